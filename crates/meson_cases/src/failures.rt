//! What fails in the next call of the program.

use std::io;
use std::io::{ErrorKind, Write};

/// Calls that fail: the first one, and how many.
#[derive(Clone, Copy)]
pub struct Failing {
    pub first: u64,
    pub count: u64,
}

/// What the store and the writers fail to do.
#[derive(Clone, Copy)]
pub struct Failures {
    pub reads: Failing,
    pub replaces: Failing,
    pub leaves_new: bool,
    /// The replaces that fail are sure that their file is as it was.
    pub is_sure: bool,
    pub out: Failing,
    pub err: Failing,
}

impl Failing {
    const NONE: Failing = Failing { first: 1, count: 0 };

    /// The numbers that two words are.
    pub fn of(words: &str) -> Self {
        let (first, count) = words.split_once(' ').unwrap_or((words, "1"));
        Failing {
            first: first.parse::<u64>().unwrap_or(1),
            count: count.parse::<u64>().unwrap_or(1),
        }
    }

    /// Whether the call of this number, counted from 1, fails.
    fn has(self, call: u64) -> bool {
        call >= self.first && call - self.first < self.count
    }
}

impl Failures {
    pub const NONE: Failures = Failures {
        reads: Failing::NONE,
        replaces: Failing::NONE,
        leaves_new: false,
        is_sure: false,
        out: Failing::NONE,
        err: Failing::NONE,
    };
}

/// A writer in which some writes fail and write nothing.
#[derive(Drop)]
pub struct FailingWriter {
    pub bytes: Vec<u8>,
    failing: Failing,
    calls: u64,
}

impl FailingWriter {
    /// Nothing was written.
    pub fn new(bytes: Vec<u8>, failing: Failing) -> Self {
        FailingWriter {
            bytes,
            failing,
            calls: 0,
        }
    }
}

impl Write for FailingWriter {
    fn write(&mut self, buf: &[u8]) -> io::Result<usize> {
        self.calls = self.calls.saturating_add(1);
        if self.failing.has(self.calls) {
            return Err(io::Error::from(ErrorKind::BrokenPipe));
        }
        self.bytes.extend_from_slice(buf)?;
        Ok(buf.len())
    }

    fn flush(&mut self) -> io::Result<()> {
        Ok(())
    }
}
