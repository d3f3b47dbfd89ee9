//! The result of a case, as text in the form of a case file.

use std::alloc::Global;
use std::fmt::{Debug, Display};
use std::io::Write;

/// A run of this many equal bytes or more is written with its length.
const MANY: usize = 20;

/// Text that is written. If an allocation failed it has gaps, and says so.
#[derive(Drop)]
pub struct Transcript {
    bytes: Vec<u8>,
    has_gaps: bool,
}

/// Equal bytes next to each other.
#[derive(Clone, Copy)]
struct Run {
    byte: u8,
    count: usize,
}

impl Transcript {
    /// No text.
    pub fn new(alloc: Global) -> Self {
        Transcript {
            bytes: Vec::new(alloc),
            has_gaps: false,
        }
    }

    /// The text.
    pub fn get(&self) -> &str {
        if self.has_gaps {
            return "out of memory";
        }
        str::from_utf8(self.bytes.as_slice()).unwrap_or("not UTF-8")
    }

    fn put_bytes(&mut self, bytes: &[u8]) {
        if self.bytes.extend_from_slice(bytes).is_err() {
            self.has_gaps = true;
        }
    }

    pub fn put(&mut self, text: &str) {
        self.put_bytes(text.as_bytes());
    }

    /// The display form of a value.
    pub fn show<T: Display>(&mut self, value: &T) {
        if write!(self.bytes, "{value}").is_err() {
            self.has_gaps = true;
        }
    }

    /// The debug form of a value.
    pub fn debug<T: Debug>(&mut self, value: &T) {
        if write!(self.bytes, "{value:?}").is_err() {
            self.has_gaps = true;
        }
    }

    /// A line of one or more words.
    pub fn line(&mut self, text: &str) {
        self.put("  ");
        self.put(text);
        self.put("\n");
    }

    /// A line with the display form of a value.
    pub fn show_line<T: Display>(&mut self, value: &T) {
        self.put("  ");
        self.show(value);
        self.put("\n");
    }

    fn put_number_of(&mut self, byte: u8) {
        if write!(self.bytes, "«{byte:02x}»").is_err() {
            self.has_gaps = true;
        }
    }

    fn put_byte(&mut self, byte: u8, is_text: bool) {
        match byte {
            b'\n' => self.put("⏎"),
            b'\r' => self.put("␍"),
            b'\t' => self.put("␉"),
            0..=31 | 127 => self.put_number_of(byte),
            128.. => {
                if is_text {
                    self.put_bytes(&[byte]);
                } else {
                    self.put_number_of(byte);
                }
            }
            _ => self.put_bytes(&[byte]),
        }
    }

    fn put_run(&mut self, run: Run, is_text: bool) {
        if run.count < MANY || run.byte < 32 || run.byte > 126 {
            for _ in 0..run.count {
                self.put_byte(run.byte, is_text);
            }
        } else {
            self.put("«");
            self.show(&run.count);
            self.put(" ");
            self.put_bytes(&[run.byte]);
            self.put("»");
        }
    }

    /// Bytes, as `bytes_of` reads them.
    pub fn escape(&mut self, bytes: &[u8]) {
        let is_text = str::from_utf8(bytes).is_ok();
        let mut run = Run { byte: 0, count: 0 };
        for byte in bytes {
            if *byte == run.byte {
                run.count = run.count.saturating_add(1);
            } else {
                self.put_run(run, is_text);
                run = Run {
                    byte: *byte,
                    count: 1,
                };
            }
        }
        self.put_run(run, is_text);
    }

    /// A line of a file after a prefix, without its end.
    fn file_line(&mut self, front: &str, line: &[u8]) {
        self.put(front);
        self.escape(line);
        if self.bytes.as_slice().last() == Some(&b' ') {
            let _ = self.bytes.pop();
            self.put("«20»");
        }
    }

    /// The lines of a file.
    pub fn text(&mut self, bytes: &[u8]) {
        self.lines("  |", bytes);
    }

    /// Lines, each after this prefix.
    pub fn lines(&mut self, front: &str, bytes: &[u8]) {
        let mut last: &[u8] = b"";
        let mut is_first = true;
        for line in bytes.split(|b| *b == b'\n') {
            if !is_first {
                self.file_line(front, last);
                self.put("\n");
            }
            last = line;
            is_first = false;
        }
        if !last.is_empty() {
            self.file_line(front, last);
            self.put("«no line end»\n");
        }
    }
}
