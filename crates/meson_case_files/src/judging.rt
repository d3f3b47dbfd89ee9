//! Runs cases one after another, and compares the results with those in their file.

use crate::transcript::Transcript;
use std::alloc::{AllocError, Global};
use std::io;
use std::io::Write;

/// What the lines of a case do.
pub trait Case {
    /// A case of which no line was read.
    fn new(alloc: Global) -> Self;

    /// Reads a line, and writes its result: lines that begin with a blank.
    ///
    /// # Errors
    /// Out of memory.
    fn step(&mut self, line: &str, to: &mut Transcript) -> Result<(), AllocError>;
}

/// The results of the lines of a case, each after its line. A line that begins with a blank is a result, and is not read.
fn done<C: Case + Drop>(alloc: Global, written: &str) -> Result<Transcript, AllocError> {
    let mut case = C::new(alloc);
    let mut to = Transcript::new(alloc);
    let mut lines = written.lines();
    to.put(lines.next().unwrap_or(""));
    to.put("\n");
    for line in lines {
        if !line.starts_with(' ') {
            to.put(line);
            to.put("\n");
            case.step(line, &mut to)?;
        }
    }
    Ok(to)
}

/// Runs the cases of a file. Each begins with a line of `## ` and its title. Writes those whose results differ from the file, and the number of cases.
///
/// # Errors
/// Out of memory, or the writer failed.
pub fn judge<C: Case + Drop, W: Write>(
    alloc: Global,
    name: &str,
    text: &str,
    out: &mut W,
) -> io::Result<()> {
    let mut count = 0u64;
    let mut others = 0u64;
    for written in text.split("\n## ").skip(1) {
        count = count.saturating_add(1);
        let came = done::<C>(alloc, written)?;
        if came.get().trim_end() != written.trim_end() {
            others = others.saturating_add(1);
            writeln!(out, "## {}", came.get())?;
        }
    }
    writeln!(out, "{name}: {count} cases, {others} other than written")
}
