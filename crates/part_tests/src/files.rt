//! Inputs and sinks: what is loaded, what is written, and where memory is told to fail.

ghost use Rattle.std.specs.Prelude.{Some};

use std::alloc::{AllocError, Global};
use std::process::Abort;
use std::test::Fail;
use tick_io::{
    HostInputs, Inputs, LoadFault, MemoryInputs, MemorySink, Sink, SinkFault, SteadySink, put_all,
};

/// A sink that takes one byte at a time.
#[derive(Drop)]
struct NarrowSink {
    bytes: Vec<u8>,
}

impl Sink for NarrowSink {
    ghost bytes = { λ sink. Some sink.bytes.items };

    ghost failures = { λ _. 0 };

    fn write(&mut self, piece: &[u8]) -> Result<usize, SinkFault> {
        self.bytes.push(piece[0])?;
        Ok(1)
    }
}

/// Files `a`, of five bytes, and `b`, of none. A second `a` does not count.
const FILES: [(&str, &str); 3] = [("a", "first"), ("b", ""), ("a", "second")];

/// The names of the loads below, in their order.
const ASKED: [&str; 7] = ["a", "a", "a", "c", "c", "b", "a"];

const PIECES: [&str; 3] = ["one,", "", "two"];

fn files(alloc: Global) -> Result<Vec<(String, Vec<u8>)>, AllocError> {
    let mut files = Vec::new(alloc);
    for (name, text) in FILES {
        let bytes = text.as_bytes().to_vec(alloc)?;
        files.push((String::from_str(alloc, name)?, bytes))?;
    }
    Ok(files)
}

/// Writes the pieces one after another.
fn put_pieces<S: Sink>(sink: &mut S) -> Result<(), SinkFault> {
    for piece in PIECES {
        put_all(sink, piece.as_bytes())?;
    }
    Ok(())
}

/// Compares what loads answer: nothing but bytes, or their fault.
fn compare_loads<R: Abort, I: Inputs>(
    rt: &R,
    alloc: Global,
    inputs: &mut I,
    loads: &[(&str, usize, Option<LoadFault>)],
) {
    for (name, most, fault) in loads {
        assert!(rt;
            inputs.load(alloc, name, *most).err() == *fault,
            "{name} at {most}"
        );
    }
}

#[test]
fn files_are_loaded(rt: HostRuntime) -> Result<(), Fail> {
    let alloc = rt.alloc();
    let mut inputs = MemoryInputs::new(alloc, files(alloc)?, vec![in alloc; 2, 5]?);
    compare_loads(
        &rt,
        alloc,
        &mut inputs,
        &[
            ("a", 4, Some(LoadFault::TooLong { seen: 5 })),
            ("a", 5, Some(LoadFault::Failed)),
            ("a", 5, None),
            ("c", 5, Some(LoadFault::Failed)),
            ("c", 5, Some(LoadFault::Failed)),
            ("b", 0, None),
        ],
    );
    assert_eq!(rt; inputs.load(alloc, "a", 5)?.as_slice(), b"first".as_slice());
    let asked = inputs.asked().unwrap_or(&[]);
    assert_eq!(rt; asked.len(), ASKED.len());
    for (name, expected) in asked.iter().zip(ASKED) {
        assert_eq!(rt; name.as_str(), expected);
    }
    compare_loads(
        &rt,
        alloc,
        &mut HostInputs::new(&rt),
        &[
            ("/dev/null", 0, None),
            ("/dev/zero", 70000, Some(LoadFault::TooLong { seen: 70001 })),
            ("/dev/null/none", 5, Some(LoadFault::Failed)),
        ],
    );
    Ok(())
}

#[test]
fn pieces_are_written(rt: HostRuntime) -> Result<(), Fail> {
    let alloc = rt.alloc();
    let mut steady = SteadySink::new(alloc);
    put_pieces(&mut steady)?;
    assert_eq!(rt; steady.bytes(), b"one,two".as_slice());
    let mut narrow = NarrowSink {
        bytes: Vec::new(alloc),
    };
    put_pieces(&mut narrow)?;
    assert_eq!(rt; narrow.bytes.as_slice(), b"one,two".as_slice());
    Ok(())
}

#[test]
fn a_write_fails_where_told(rt: HostRuntime) -> Result<(), Fail> {
    let alloc = rt.alloc();
    let mut sink = MemorySink::new(alloc, vec![in alloc; 2]?);
    assert!(rt; put_pieces(&mut sink) == Err(SinkFault::Failed));
    put_pieces(&mut sink)?;
    assert_eq!(rt; sink.bytes(), b"one,one,two".as_slice());
    Ok(())
}
