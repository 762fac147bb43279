//! Inputs and sinks in memory, whose calls fail where they are told to.
ghost use Rattle.std.specs.Prelude.{◌≡◌, ◌<◌, ◌≤◌, [], ◌∷◌, ◌++◌, true, None, Some, IfOk, OnOk, OnErr, IfErr, IsErrOf, IsTrue, length, ◌↔◌, map, option_map, string_bytes};
ghost use Rattle.std.specs.Option.{option_copied};
ghost use Rattle.tick_io.specs.Counts.{Rose};
ghost use Rattle.tick_io.specs.Calls.{no_calls, next_fails, after_call};
ghost use Rattle.tick_io.specs.Files.{content_of, file_of, load_fails, names_told, answer_to, answer_unless, AnswersUnlessMemory};
ghost use Rattle.tick_io.specs.Asked.{AsksFor};
ghost use Rattle.tick_io.specs.Loads.{UnlessFailed};

use crate::calls::CallCounter;
use crate::{Inputs, LoadFault, Sink, SinkFault};
use std::alloc::{AllocError, Global};
use std::marker::Model;

/// Files in memory, of which the first of a name counts.
///
/// A load fails where its number, from 1, is in a list, or where there is no file of its name. The names that are asked for are told,
/// until there is no memory for one.
pub struct MemoryInputs {
    files: Vec<(String, Vec<u8>)>,
    calls: CallCounter,
    asked: Option<Vec<String>>,
}

impl Drop for MemoryInputs {
    fn drop(self) {
        let Self {
            files: _,
            calls: _,
            asked: _,
        } = self;
    }
}

impl Model for MemoryInputs {
    ghost use Rattle.std.specs.Prelude.{map};
    ghost use Rattle.tick_io.specs.Files.{Shelf, file_of, names_told};

    ghost Value = { Shelf };

    ghost view = { λ i. record { files = map file_of i.files.items; calls = i.calls; asked = names_told i.asked } };
}

impl MemoryInputs {
    /// These files, and the numbers of the loads that are to fail. It takes no memory.
    pub fn new(alloc: Global, files: Vec<(String, Vec<u8>)>, failing: Vec<u64>) -> Self
        ensures files { result.files ≡ map file_of files.items }
        ensures calls { result.calls ≡ no_calls failing.items }
        ensures asked { result.asked ≡ Some [] }
    {
        MemoryInputs {
            files,
            calls: CallCounter::new(failing),
            asked: Some(Vec::new(alloc)),
        }
    }

    /// The names that were asked for, one after the other, or `None` where there was no memory for one of them.
    pub fn asked(&self) -> Option<&[String]>
        ensures { option_map (λ names. map string_bytes names.now) result ≡ self.now.asked }
    {
        match &self.asked {
            Some(names) => Some(names.as_slice()),
            None => None,
        }
    }
}

impl Inputs for MemoryInputs {
    ghost told = { true };

    ghost content = { λ shelf name. content_of shelf.files name };

    ghost failures = { λ shelf _. shelf.calls.failures };

    ghost asked = { λ shelf. shelf.asked };

    /// Fails exactly where the call is one that is to fail or where there is no file of the name. Else it is too long exactly
    /// where the file is longer than `most`.
    fn load(&mut self, alloc: Global, name: &str, most: usize) -> Result<Vec<u8>, LoadFault>
        ensures fails_exactly { IsErrOf result LoadFault.Failed ↔ IsTrue (load_fails self.old name.now) }
        ensures answer { AnswersUnlessMemory result (answer_to self.old name.now most) }
        ensures files { self.new.files ≡ self.old.files }
        ensures calls { self.new.calls ≡ after_call (load_fails self.old name.now) self.old.calls }
        ensures asks { AsksFor self.old.asked self.new.asked (name.now ∷ []) }

        ensures failed { IsErrOf result LoadFault.Failed → Rose self.old.calls.failures self.new.calls.failures }
        ensures never_falls { self.old.calls.failures ≤ self.new.calls.failures }
        ensures steady { UnlessFailed result (self.new.calls.failures ≡ self.old.calls.failures) }
    {
        let answer = answer(alloc, &self.files, self.calls.next_fails(), name, most);
        self.calls.count(matches!(answer, Err(LoadFault::Failed)));
        self.asked = noted(alloc, self.asked.take(), name);
        answer
    }
}

/// Names with one more.
fn with_name(alloc: Global, names: Vec<String>, name: &str) -> Result<Vec<String>, AllocError>
    ensures { IfOk result (λ more. map string_bytes more.items ≡ map string_bytes names.items ++ name.now ∷ []) }
{
    let mut names = names;
    names.push(String::from_str(alloc, name)?)?;
    Ok(names)
}

/// The names that were asked for with one more, or `None` where there is no memory for it, or was none before.
fn noted(alloc: Global, asked: Option<Vec<String>>, name: &str) -> Option<Vec<String>>
    ensures { AsksFor (names_told asked) (names_told result) (name.now ∷ []) }
{
    let names = asked?;
    with_name(alloc, names, name).ok()
}

/// What a load answers where the call is to fail or not.
fn answer(
    alloc: Global,
    files: &[(String, Vec<u8>)],
    to_fail: bool,
    name: &str,
    most: usize,
) -> Result<Vec<u8>, LoadFault>
    ensures { AnswersUnlessMemory result (answer_unless to_fail (content_of (map file_of files.now) name.now) most) }
{
    if to_fail {
        return Err(LoadFault::Failed);
    }
    match content(files, name) {
        None => Err(LoadFault::Failed),
        Some(bytes) if bytes.len() > most => Err(LoadFault::TooLong { seen: bytes.len() }),
        Some(bytes) => Ok(bytes.to_vec(alloc)?),
    }
}

/// The bytes of the first file of a name.
fn content<'a>(files: &'a [(String, Vec<u8>)], name: &str) -> Option<&'a [u8]>
    ensures { option_copied result ≡ content_of (map file_of files.now) name.now }
{
    for (own_name, bytes) in files {
        if own_name.as_str() == name {
            return Some(bytes);
        }
    }
    None
}

/// A sink in memory, which takes each piece whole. A write fails where its number, from 1, is in a list.
pub struct MemorySink {
    bytes: Vec<u8>,
    calls: CallCounter,
}

impl Drop for MemorySink {
    fn drop(self) {
        let Self { bytes: _, calls: _ } = self;
    }
}

impl Model for MemorySink {
    ghost use Rattle.tick_io.specs.Written.{Recording};

    ghost Value = { Recording };

    ghost view = { λ s. record { bytes = s.bytes.items; calls = s.calls } };
}

impl MemorySink {
    /// No bytes yet, and the numbers of the writes that are to fail. It takes no memory.
    pub fn new(alloc: Global, failing: Vec<u64>) -> Self
        ensures bytes { result.bytes ≡ [] }
        ensures calls { result.calls ≡ no_calls failing.items }
    {
        MemorySink {
            bytes: Vec::new(alloc),
            calls: CallCounter::new(failing),
        }
    }

    /// The bytes written so far.
    pub fn bytes(&self) -> &[u8]
        ensures { result.now ≡ self.now.bytes }
    {
        &self.bytes
    }
}

impl Sink for MemorySink {
    ghost bytes = { λ recording. Some recording.bytes };

    ghost failures = { λ recording. recording.calls.failures };

    /// Fails exactly where the call is one that is to fail.
    fn write(&mut self, piece: &[u8]) -> Result<usize, SinkFault>
        requires { 0 < length piece.now }
        ensures whole { IfOk result (λ count. count ≡ length piece.now) }
        ensures bytes { OnOk result (self.new.bytes ≡ self.old.bytes ++ piece.now) }
        ensures err { OnErr result (self.new.bytes ≡ self.old.bytes) }
        ensures fails_exactly { IsErrOf result SinkFault.Failed ↔ IsTrue (next_fails self.old.calls) }
        ensures calls { self.new.calls ≡ after_call (next_fails self.old.calls) self.old.calls }

        ensures failed { IsErrOf result SinkFault.Failed → Rose self.old.calls.failures self.new.calls.failures }
        ensures never_falls { self.old.calls.failures ≤ self.new.calls.failures }
        ensures steady { OnOk result (self.new.calls.failures ≡ self.old.calls.failures) }
    {
        let fails = self.calls.next_fails();
        self.calls.count(fails);
        if fails {
            return Err(SinkFault::Failed);
        }
        append(&mut self.bytes, piece)
    }
}

/// A sink in memory whose writes never fail but for memory. It takes each piece whole.
pub struct SteadySink {
    bytes: Vec<u8>,
}

impl Drop for SteadySink {
    fn drop(self) {
        let Self { bytes: _ } = self;
    }
}

impl Model for SteadySink {
    ghost use Rattle.std.specs.Prelude.{ℕ, List};

    ghost Value = { List ℕ };

    ghost view = { λ s. s.bytes.items };
}

impl SteadySink {
    /// No bytes yet. It takes no memory.
    pub fn new(alloc: Global) -> Self
        ensures { result ≡ [] }
    {
        SteadySink {
            bytes: Vec::new(alloc),
        }
    }

    /// The bytes written so far.
    pub fn bytes(&self) -> &[u8]
        ensures { result.now ≡ self.now }
    {
        &self.bytes
    }
}

impl Sink for SteadySink {
    ghost bytes = { λ bytes. Some bytes };

    ghost failures = { λ _. 0 };

    fn write(&mut self, piece: &[u8]) -> Result<usize, SinkFault>
        requires { 0 < length piece.now }
        ensures whole { IfOk result (λ count. count ≡ length piece.now) }
        ensures bytes { OnOk result (self.new ≡ self.old ++ piece.now) }
        ensures err { OnErr result (self.new ≡ self.old) }
        ensures memory { IfErr result (λ fault. fault ≡ SinkFault.Memory) }
    {
        append(&mut self.bytes, piece)
    }
}

/// Appends a piece whole, and answers its length.
fn append(bytes: &mut Vec<u8>, piece: &[u8]) -> Result<usize, SinkFault>
    ensures whole { IfOk result (λ count. count ≡ length piece.now) }
    ensures bytes { OnOk result (bytes.new.items ≡ bytes.old.items ++ piece.now) }
    ensures err { OnErr result (bytes.new.items ≡ bytes.old.items) }
    ensures memory { IfErr result (λ fault. fault ≡ SinkFault.Memory) }
{
    bytes.extend_from_slice(piece)?;
    Ok(piece.len())
}

/// A sink that keeps nothing and does not tell its bytes. It takes each piece whole.
#[derive(Clone, Copy, Default)]
pub struct VoidSink;

impl Sink for VoidSink {
    ghost bytes = { λ _. None };

    ghost failures = { λ _. 0 };

    fn write(&mut self, piece: &[u8]) -> Result<usize, SinkFault>
        requires { 0 < length piece.now }
        ensures { result ≡ Ok (length piece.now) }
    {
        Ok(piece.len())
    }
}
