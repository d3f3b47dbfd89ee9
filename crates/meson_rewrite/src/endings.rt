//! How runs end, and what is written of it.

ghost use Rattle.std.specs.Prelude.{◌≡◌, MatchResult};
ghost use Rattle.meson_rewrite.specs.Lines.{done_status, status, store_fault_status, usage_status};
ghost use Rattle.meson_rewrite.specs.Runs.{CannotSay, Says, Tells};

use crate::lines::tell_stop;
use crate::said::Said;
use crate::stop::Stop;
use meson_command::UsageFault;
use meson_store::{Output, StoreFault};
use std::alloc::Global;
use std::io;

/// How a run ends, and how it reports that.
#[derive(Drop)]
pub(crate) struct Ending {
    pub end: Result<Said, Stop>,
    /// Whether it is written in JSON.
    pub json: bool,
    /// Whether the status says that a build file was changed.
    pub exit_code: bool,
}

/// Writes the lines of the ending, or its object of JSON.
fn tell<O: Output, E: Output>(
    alloc: Global,
    out: &mut O,
    err: &mut E,
    json: bool,
    end: &Result<Said, Stop>,
) -> io::Result<()>
    ensures { MatchResult result (λ _. Says json end.now (O.heard out.old) (O.heard out.new) (E.heard err.old) (E.heard err.new))
        (λ _. CannotSay end.now (O.heard out.old) (O.heard out.new) (E.heard err.old) (E.heard err.new)) }
{
    match end {
        Ok(said) => said.tell(out, err),
        Err(stop) => tell_stop(alloc, err, json, stop),
    }
}

fn store_fault_status(fault: &StoreFault) -> u8
    ensures { result ≡ store_fault_status fault.now }
{
    match fault {
        StoreFault::OutOfMemory => 1,
        _ => 3,
    }
}

fn usage_status(fault: &UsageFault) -> u8
    ensures { result ≡ usage_status fault.now }
{
    match fault {
        UsageFault::OutOfMemory => 1,
        _ => 2,
    }
}

fn done_status(exit_code: bool, said: &Said) -> u8
    ensures { result ≡ done_status exit_code said.now }
{
    if exit_code && said.changed { 4 } else { 0 }
}

fn status(exit_code: bool, end: &Result<Said, Stop>) -> u8
    ensures { result ≡ status exit_code end.now }
{
    match end {
        Ok(said) => done_status(exit_code, said),
        Err(Stop::Usage { fault, .. }) => usage_status(fault),
        Err(Stop::Store { fault, .. }) => store_fault_status(fault),
        Err(_) => 1,
    }
}

/// Writes the lines of the ending, or its object of JSON. Returns its status, or 3 if a writer failed.
pub(crate) fn ended<O: Output, E: Output>(
    alloc: Global,
    out: &mut O,
    err: &mut E,
    ending: &Ending,
) -> u8
    ensures { Tells ending.now.exit_code ending.now.json result (O.heard out.old) (O.heard out.new) (E.heard err.old) (E.heard err.new) ending.now.end }
{
    match tell(alloc, out, err, ending.json, &ending.end) {
        Ok(()) => status(ending.exit_code, &ending.end),
        Err(_) => 3,
    }
}
