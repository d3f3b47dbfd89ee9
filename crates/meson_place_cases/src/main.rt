//! Runs the cases on places: what a name finds in a project, the slot of a key, and the edits that set or delete it.
#![tactic(auto)]

mod answers;
mod case;

use crate::case::PlaceCase;
use meson_case_files::judge;
use std::{env, fs, io};

fn main(rt: HostRuntime) -> io::Result<()> {
    let mut out = rt.stdout();
    for name in env::args(&rt)?.skip(1) {
        let text = fs::read_to_string(&rt, name.as_str())?;
        judge::<PlaceCase, _>(rt.alloc(), name.as_str(), text.as_str(), &mut out)?;
    }
    Ok(())
}
