//! Runs the cases on projects and on the whole program, over a store in memory.
#![tactic(auto)]

mod case;
mod command;
mod cutting;
mod failures;
mod files;
mod performing;
mod program;
mod project;
mod sources;
mod undoing;

use crate::case::ProjectCase;
use meson_case_files::judge;
use std::{env, fs, io};

fn main(rt: HostRuntime) -> io::Result<()> {
    let mut out = rt.stdout();
    for name in env::args(&rt)?.skip(1) {
        let text = fs::read_to_string(&rt, name.as_str())?;
        judge::<ProjectCase, _>(rt.alloc(), name.as_str(), text.as_str(), &mut out)?;
    }
    Ok(())
}
