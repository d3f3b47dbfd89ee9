//! The program over real files: its words, its writers and its status.
#![tactic(auto)]

use meson_rewrite::{Counted, Folder, Output, Store, rewrite, words_with_code};
use std::alloc::Global;
use std::io::{ErrorKind, IsTerminal};
use std::process::ExitCode;
use std::{env, io};

/// The option for lines below a refusal.
const EXPLAIN: &str = "--explain";

/// Whether a refusal is to be explained though the words do not say so: where standard error is a terminal.
fn is_read_by_a_person(rt: &HostRuntime, words: &[String]) -> bool {
    rt.stderr().is_terminal() && !words.iter().any(|word| word.as_str() == EXPLAIN)
}

/// The words of the command line, of which the first is the program's name.
fn words(rt: &HostRuntime) -> io::Result<Vec<String>> {
    let mut words: Vec<String> = env::args(rt)?.collect(rt.alloc())?;
    if is_read_by_a_person(rt, words.as_slice()) && !words.is_empty() {
        words.insert(1, String::from_str(rt.alloc(), EXPLAIN)?)?;
    }
    Ok(words)
}

/// Says that the words could not be read. A word that is not text is wrong usage.
fn refuse<E: Output>(err: &mut E, kind: ErrorKind, explains: bool) -> u8 {
    let (line, status) = if kind == ErrorKind::OutOfMemory {
        ("error: out of memory\n", 1)
    } else if explains {
        ("error: U1 usage\nnote: a word is not UTF-8\n", 2)
    } else {
        ("error: U1 usage\n", 2)
    };
    match err.tell(line.as_bytes()) {
        Ok(()) => status,
        Err(_) => 3,
    }
}

/// Runs the program on words, with the code of standard input where `-` stands for it.
fn run<S: Store, O: Output, E: Output>(
    alloc: Global,
    store: &mut S,
    words: Vec<String>,
    out: &mut O,
    err: &mut E,
) -> u8 {
    match words_with_code(alloc, store, words) {
        Ok(words) => rewrite(alloc, store, words.as_slice(), out, err),
        Err(unread) => unread.tell(alloc, out, err),
    }
}

fn main(rt: HostRuntime) -> ExitCode {
    let alloc = rt.alloc();
    let mut out = Counted::new(rt.stdout());
    let mut err = Counted::new(rt.stderr());
    let status = match words(&rt) {
        Ok(words) => {
            let mut folder = Folder::new(&rt, alloc);
            run(alloc, &mut folder, words, &mut out, &mut err)
        }
        Err(e) => refuse(&mut err, e.kind(), rt.stderr().is_terminal()),
    };
    ExitCode::from(status)
}
