//! Runs the cases on texts: items, trees, literals and the splices of single edits.
#![tactic(auto)]

mod case;
mod code_places;
mod edits;
mod moved;
mod nodes;
mod putting;
mod readiness;
mod texts;
mod tree;

use crate::case::TextCase;
use meson_case_files::judge;
use std::{env, fs, io};

fn main(rt: HostRuntime) -> io::Result<()> {
    let mut out = rt.stdout();
    for name in env::args(&rt)?.skip(1) {
        let text = fs::read_to_string(&rt, name.as_str())?;
        judge::<TextCase, _>(rt.alloc(), name.as_str(), text.as_str(), &mut out)?;
    }
    Ok(())
}
