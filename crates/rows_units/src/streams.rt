// Rows of units on streams in memory.
use crate::units::Call;
use real_units::{InputUnit, OutputUnit};
use std::io;
use std::io::{ErrorKind, Read, Write};
use std::test::Fail;
use unit_io::{ReadAnswer, UnitAnswer};

/// A reader that gives at most `piece` bytes a call, and whose call of the number `fails` fails.
#[derive(Drop)]
struct Pieces {
    bytes: &'static [u8],
    piece: usize,
    calls: u64,
    fails: u64,
    kind: ErrorKind,
}

impl Read for Pieces {
    fn read(&mut self, buf: &mut [u8]) -> io::Result<usize> {
        self.calls = self.calls.saturating_add(1);
        if self.calls == self.fails {
            return Err(io::Error::from(self.kind));
        }
        let count = self.piece.min(self.bytes.len()).min(buf.len());
        let (front, rest) = self.bytes.split_at(count);
        buf[..count].copy_from_slice(front);
        self.bytes = rest;
        Ok(count)
    }
}

/// Calls of a unit that reads these bytes so.
struct Source {
    bytes: &'static [u8],
    piece: usize,
    fails: u64,
    kind: ErrorKind,
    calls: &'static [Call],
}

const SOURCES: [Source; 6] = [
    // a record ends before an LF, wherever the pieces end, and is read as far as it fits
    Source {
        bytes: b"AB\nCDEFG\nHI\n",
        piece: 4,
        fails: 0,
        kind: ErrorKind::Other,
        calls: &[
            Call::Read(ReadAnswer::Rec(2), b"AB.."),
            Call::Read(ReadAnswer::Rec(4), b"CDEF"),
            Call::Read(ReadAnswer::Rec(2), b"HI.."),
            Call::Read(ReadAnswer::End, b"...."),
            Call::Read(ReadAnswer::End, b"...."),
        ],
    },
    // a CR is kept, a record may have no bytes, and the last may lack its LF
    Source {
        bytes: b"A\r\n\nlast",
        piece: 99,
        fails: 0,
        kind: ErrorKind::Other,
        calls: &[
            Call::Read(ReadAnswer::Rec(2), b"A\r.."),
            Call::Read(ReadAnswer::Rec(0), b"...."),
            Call::Read(ReadAnswer::Rec(4), b"last"),
            Call::Read(ReadAnswer::End, b"...."),
        ],
    },
    // no bytes are no record
    Source {
        bytes: b"",
        piece: 1,
        fails: 0,
        kind: ErrorKind::Other,
        calls: &[Call::Read(ReadAnswer::End, b"....")],
    },
    // a failure within a record loses the place: no rest of it is a record
    Source {
        bytes: b"AB\nCD\nEF\n",
        piece: 4,
        fails: 2,
        kind: ErrorKind::Other,
        calls: &[
            Call::Read(ReadAnswer::Rec(2), b"AB.."),
            Call::Read(ReadAnswer::Failed, b"C..."),
            Call::Read(ReadAnswer::Failed, b"...."),
        ],
    },
    // a call that was interrupted is made again
    Source {
        bytes: b"AB\nCD\n",
        piece: 4,
        fails: 2,
        kind: ErrorKind::Interrupted,
        calls: &[
            Call::Read(ReadAnswer::Rec(2), b"AB.."),
            Call::Read(ReadAnswer::Rec(2), b"CD.."),
            Call::Read(ReadAnswer::End, b"...."),
        ],
    },
    // what an input can't do
    Source {
        bytes: b"AB\n",
        piece: 1,
        fails: 0,
        kind: ErrorKind::Other,
        calls: &[
            Call::Write(b"C", UnitAnswer::Failed),
            Call::Rewind(UnitAnswer::Failed),
            Call::Backspace(UnitAnswer::Failed),
            Call::Endfile(UnitAnswer::Ok),
            Call::Finish(UnitAnswer::Ok),
            Call::Read(ReadAnswer::Rec(2), b"AB.."),
        ],
    },
];

#[test]
fn records_are_read_from_a_stream(rt: HostRuntime) -> Result<(), Fail> {
    for (row, source) in SOURCES.iter().enumerate() {
        let pieces = Pieces {
            bytes: source.bytes,
            piece: source.piece,
            calls: 0,
            fails: source.fails,
            kind: source.kind,
        };
        let mut unit = InputUnit::new(rt.alloc(), pieces)?;
        for (at, call) in source.calls.iter().enumerate() {
            assert!(rt; call.answers(&mut unit)?, "row {row}, call {at}");
        }
    }
    Ok(())
}

/// A writer that takes at most `piece` bytes a call, and whose calls fail from the number `fails` on.
#[derive(Drop)]
struct Log {
    bytes: Vec<u8>,
    piece: usize,
    calls: u64,
    fails: u64,
}

impl Write for Log {
    fn write(&mut self, buf: &[u8]) -> io::Result<usize> {
        self.calls = self.calls.saturating_add(1);
        if self.calls >= self.fails {
            return Err(io::Error::from(ErrorKind::BrokenPipe));
        }
        let count = self.piece.min(buf.len());
        self.bytes.extend_from_slice(&buf[..count])?;
        Ok(count)
    }

    fn flush(&mut self) -> io::Result<()> {
        Ok(())
    }
}

/// Calls of a unit that writes so, what it wrote, and in how many calls where none failed.
struct Target {
    piece: usize,
    fails: u64,
    calls: &'static [Call],
    wrote: &'static [u8],
    writes: Option<u64>,
}

const TARGETS: [Target; 5] = [
    // each record is written as it comes
    Target {
        piece: 99,
        fails: 99,
        calls: &[
            Call::Write(b"A", UnitAnswer::Ok),
            Call::Write(b"", UnitAnswer::Ok),
            Call::Write(b"B\r", UnitAnswer::Ok),
            Call::Finish(UnitAnswer::Ok),
        ],
        wrote: b"A\n\nB\r\n",
        writes: Some(3),
    },
    // in pieces
    Target {
        piece: 1,
        fails: 99,
        calls: &[
            Call::Write(b"AB", UnitAnswer::Ok),
            Call::Endfile(UnitAnswer::Ok),
        ],
        wrote: b"AB\n",
        writes: Some(3),
    },
    // a writer that takes nothing fails
    Target {
        piece: 0,
        fails: 99,
        calls: &[
            Call::Write(b"A", UnitAnswer::Failed),
            Call::Finish(UnitAnswer::Failed),
        ],
        wrote: b"",
        writes: None,
    },
    // a pipe that is closed fails from then on
    Target {
        piece: 99,
        fails: 2,
        calls: &[
            Call::Write(b"A", UnitAnswer::Ok),
            Call::Write(b"B", UnitAnswer::Failed),
            Call::Write(b"C", UnitAnswer::Failed),
            Call::Endfile(UnitAnswer::Failed),
            Call::Finish(UnitAnswer::Failed),
        ],
        wrote: b"A\n",
        writes: None,
    },
    // what an output can't do
    Target {
        piece: 99,
        fails: 99,
        calls: &[
            Call::Read(ReadAnswer::Failed, b"...."),
            Call::Rewind(UnitAnswer::Failed),
            Call::Backspace(UnitAnswer::Failed),
            Call::Write(b"A", UnitAnswer::Ok),
        ],
        wrote: b"A\n",
        writes: Some(1),
    },
];

#[test]
fn records_are_written_on_a_stream(rt: HostRuntime) -> Result<(), Fail> {
    for (row, target) in TARGETS.iter().enumerate() {
        let mut log = Log {
            bytes: Vec::new(rt.alloc()),
            piece: target.piece,
            calls: 0,
            fails: target.fails,
        };
        {
            let mut unit = OutputUnit::new(rt.alloc(), &mut log)?;
            for (at, call) in target.calls.iter().enumerate() {
                assert!(rt; call.answers(&mut unit)?, "row {row}, call {at}");
            }
        }
        assert!(rt; log.bytes.as_slice() == target.wrote, "row {row}");
        assert!(rt;
            target.writes.is_none_or(|writes| writes == log.calls),
            "row {row}"
        );
    }
    Ok(())
}
