//! The files and the standard output of the process. What a file held and what a terminal showed no contract knows, so neither tells
//! its bytes, nor the names that were asked for.
ghost use Rattle.std.specs.Prelude.{◌≡◌, ◌+◌, ◌≤◌, false, None, IfOk, IfSome, length, vec_len};
ghost use Rattle.tick_io.specs.Loads.{IfTooLong};

use crate::{Inputs, LoadFault, Sink, SinkFault};
use std::alloc::Global;
use std::fs;
use std::io::Read;
use std::marker::Model;
use std::rt::Files;

/// How many bytes are read at once.
const CHUNK: usize = 65536;

/// The files of the process, by their paths. It is seen as the number of loads that have failed.
#[derive(Drop)]
pub struct HostInputs<'a, R> {
    rt: &'a R,
    failures: u64,
}

impl<'a, R> Model for HostInputs<'a, R> {
    ghost use Rattle.std.specs.Prelude.{ℕ};

    ghost Value = { ℕ };

    ghost view = { λ inputs. inputs.failures };
}

impl<'a, R: Files + Sync> HostInputs<'a, R> {
    /// No load has failed.
    pub fn new(rt: &'a R) -> Self
        ensures { result ≡ 0 }
    {
        HostInputs { rt, failures: 0 }
    }
}

impl<R: Files + Sync> Inputs for HostInputs<'_, R> {
    ghost told = { false };

    ghost content = { λ _ _. None };

    ghost failures = { λ failures _. failures };

    ghost asked = { λ _. None };

    fn load(&mut self, alloc: Global, name: &str, most: usize) -> Result<Vec<u8>, LoadFault> {
        let loaded = read_file(alloc, self.rt, name, most);
        if matches!(loaded, Err(LoadFault::Failed)) {
            self.failures = self.failures.saturating_add(1);
        }
        loaded
    }
}

/// All the bytes of a file that has at most `most` of them. Of a longer one it reads one byte more than that.
fn read_file<R: Files>(alloc: Global, rt: &R, name: &str, most: usize) -> Result<Vec<u8>, LoadFault>
    ensures within { IfOk result (λ loaded. vec_len loaded ≤ most) }
    ensures seen { IfTooLong result (λ seen. seen ≡ most + 1) }
{
    match fs::open(rt, name) {
        Ok(mut file) => read_to_end(alloc, &mut file, most),
        Err(_) => Err(LoadFault::Failed),
    }
}

/// All the bytes that a reader has left, where they are at most `most`, and else one byte more than that.
///
/// Each turn of the loop takes at least one byte, so the loop ends whatever the reader does.
fn read_to_end<F: Read>(alloc: Global, reader: &mut F, most: usize) -> Result<Vec<u8>, LoadFault>
    ensures within { IfOk result (λ loaded. vec_len loaded ≤ most) }
    ensures whole { IfOk result (λ loaded. IfSome (F.remaining reader.old) (λ bytes. loaded.items ≡ bytes)) }
    ensures seen { IfTooLong result (λ seen. seen ≡ most + 1) }
    ensures too_long { IfTooLong result (λ seen. IfSome (F.remaining reader.old) (λ bytes. seen ≤ length bytes)) }
{
    let mut loaded = Vec::new(alloc);
    let mut chunk = [0u8; CHUNK];
    while loaded.len() <= most {
        let room = (most - loaded.len()).min(CHUNK - 1) + 1;
        match reader.read(&mut chunk[..room]) {
            Ok(0) => return Ok(loaded),
            Ok(count) => loaded.extend_from_slice(&chunk[..count])?,
            Err(_) => return Err(LoadFault::Failed),
        }
    }
    Err(LoadFault::TooLong { seen: loaded.len() })
}

/// The standard output of the process, with no buffer. It is seen as the number of writes that have failed.
#[derive(Drop)]
pub struct StdSink<'a, R> {
    rt: &'a R,
    failures: u64,
}

impl<'a, R> Model for StdSink<'a, R> {
    ghost use Rattle.std.specs.Prelude.{ℕ};

    ghost Value = { ℕ };

    ghost view = { λ sink. sink.failures };
}

impl<'a, R: Print + Sync> StdSink<'a, R> {
    /// No write has failed.
    pub fn new(rt: &'a R) -> Self
        ensures { result ≡ 0 }
    {
        StdSink { rt, failures: 0 }
    }
}

impl<R: Print + Sync> Sink for StdSink<'_, R> {
    ghost bytes = { λ _. None };

    ghost failures = { λ failures. failures };

    /// A write that takes no byte has failed.
    fn write(&mut self, piece: &[u8]) -> Result<usize, SinkFault> {
        match self.rt.write_some(piece) {
            Ok(count) if count > 0 => Ok(count),
            _ => {
                self.failures = self.failures.saturating_add(1);
                Err(SinkFault::Failed)
            }
        }
    }
}
