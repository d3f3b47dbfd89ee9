//! The lines that the program writes.

ghost use Rattle.std.specs.Prelude.{◌≡◌, IfOk, MatchResult, codes, decimal, if◌then◌else◌};
ghost use Rattle.meson_rewrite.specs.Lines.{advice_lines, done_line, forgot_line, left_lines, line, lines_below, stop_lines, title_line, version_line};
ghost use Rattle.meson_rewrite.specs.Refused.{stop_object};
ghost use Rattle.meson_rewrite.specs.Runs.{knows_json, stopped_text};
ghost use Rattle.meson_rewrite.specs.Steps.{step_lines};
ghost use Rattle.meson_store.specs.Output.{Gets, Fails};

use crate::advice::Advice;
use crate::refused::tell_refused;
use crate::stop::Stop;
use meson_command::UsageFault;
use meson_script::Report;
use meson_splice::Text;
use meson_store::{Output, StoreFault};
use std::alloc::{AllocError, Global};
use std::io;

/// What `--version` writes.
const VERSION: &str = "meson_rewrite 1.0.0\n";

/// Writes a line for each file that may have its new bytes.
fn tell_left<O: Output>(alloc: Global, to: &mut O, names: &[Text]) -> io::Result<()>
    ensures { MatchResult result (λ _. Gets (O.heard to.old) (O.heard to.new) (left_lines names.now))
        (λ _. Fails (O.heard to.old) (O.heard to.new)) }
{
    for name in names {
        to.tell_line(alloc, &format_args!("left new: {name}"))?;
    }
    Ok(())
}

/// Writes the lines of what explains a fault.
#[tactic(auto, using(crate::proofs::Telling::gets_nothing))]
fn tell_advice<O: Output>(to: &mut O, advice: &Advice) -> io::Result<()>
    ensures { MatchResult result (λ _. Gets (O.heard to.old) (O.heard to.new) (advice_lines advice.now))
        (λ _. Fails (O.heard to.old) (O.heard to.new)) }
{
    match advice {
        Advice::Lines(lines) => to.tell(lines.get().as_bytes()),
        _ => Ok(()),
    }
}

/// Writes what is below the line of a fault.
#[tactic(auto, using(crate::proofs::Telling::gets_nothing))]
fn tell_below<O: Output>(alloc: Global, to: &mut O, stop: &Stop) -> io::Result<()>
    ensures { MatchResult result (λ _. Gets (O.heard to.old) (O.heard to.new) (lines_below stop.now))
        (λ _. Fails (O.heard to.old) (O.heard to.new)) }
{
    match stop {
        Stop::Store {
            fault: StoreFault::WriteFailed { still_new, .. },
            advice,
        } => {
            tell_left(alloc, to, still_new.get())?;
            tell_advice(to, advice)
        }
        Stop::Usage { advice, .. }
        | Stop::Script { advice, .. }
        | Stop::Parse { advice, .. }
        | Stop::TooManyFiles(advice)
        | Stop::Refused { advice, .. }
        | Stop::Splice(_, _, advice)
        | Stop::OtherFiles { advice, .. }
        | Stop::BadTexts(advice)
        | Stop::Store { advice, .. } => tell_advice(to, advice),
        _ => Ok(()),
    }
}

/// Writes why a run was stopped, as lines.
fn tell_lines<O: Output>(alloc: Global, to: &mut O, stop: &Stop) -> io::Result<()>
    ensures { MatchResult result (λ _. Gets (O.heard to.old) (O.heard to.new) (stop_lines stop.now))
        (λ _. Fails (O.heard to.old) (O.heard to.new)) }
{
    to.tell_line(alloc, &format_args!("error: {stop}"))?;
    tell_below(alloc, to, stop)
}

/// Writes why a run was stopped, as an object of JSON or as lines.
fn tell_stop_as<O: Output>(alloc: Global, to: &mut O, json: bool, stop: &Stop) -> io::Result<()>
    ensures { MatchResult result (λ _. Gets (O.heard to.old) (O.heard to.new) (if json then line (stop_object stop.now) else stop_lines stop.now))
        (λ _. Fails (O.heard to.old) (O.heard to.new)) }
{
    if json {
        return tell_refused(alloc, to, stop);
    }
    tell_lines(alloc, to, stop)
}

/// Whether it is known that the words want JSON: not where memory ran out while they were read.
fn knows_json(json: bool, stop: &Stop) -> bool
    ensures { result ≡ knows_json json stop.now }
{
    match stop {
        Stop::Usage {
            fault: UsageFault::OutOfMemory,
            ..
        } => false,
        _ => json,
    }
}

/// Writes why a run was stopped: an object of JSON where it is known that the words want it, else lines.
pub(crate) fn tell_stop<O: Output>(
    alloc: Global,
    to: &mut O,
    json: bool,
    stop: &Stop,
) -> io::Result<()>
    ensures { MatchResult result (λ _. Gets (O.heard to.old) (O.heard to.new) (stopped_text json stop.now))
        (λ _. Fails (O.heard to.old) (O.heard to.new)) }
{
    tell_stop_as(alloc, to, knows_json(json, stop), stop)
}

/// The line that says what a run did.
pub(crate) fn done_text(alloc: Global, files: usize, splices: usize) -> Result<Vec<u8>, AllocError>
    ensures { IfOk result (λ text. text.items ≡ done_line files splices) }
{
    let line = format!(in alloc; "files: {files}, splices: {splices}\n")?;
    Ok(line.into_bytes())
}

/// The line that says the program's version.
pub(crate) fn version_text(alloc: Global) -> Result<Text, AllocError>
    ensures { IfOk result (λ text. text ≡ version_line) }
{
    Ok(Text::of(String::from_str(alloc, VERSION)?))
}

/// The line that says how many of the oldest changes were dropped.
pub(crate) fn forgotten_text(alloc: Global, count: usize) -> Result<Vec<u8>, AllocError>
    ensures { IfOk result (λ text. text.items ≡ forgot_line (decimal count)) }
{
    let line = format!(in alloc; "forgot: {count}\n")?;
    Ok(line.into_bytes())
}

/// The line that says that all changes were dropped.
pub(crate) fn all_forgotten_text(alloc: Global) -> Result<Vec<u8>, AllocError>
    ensures { IfOk result (λ text. text.items ≡ forgot_line (codes "all")) }
{
    Ok(String::from_str(alloc, "forgot: all\n")?.into_bytes())
}

/// The line that says what a change is for; nothing if it has no title.
fn title_text(alloc: Global, title: &str) -> Result<Vec<u8>, AllocError>
    ensures { IfOk result (λ text. text.items ≡ title_line title.now) }
{
    if title.is_empty() {
        return Ok(Vec::new(alloc));
    }
    let line = format!(in alloc; "title: {title}\n")?;
    Ok(line.into_bytes())
}

/// The lines that say what was taken back or done again.
pub(crate) fn step_text(alloc: Global, report: &Report) -> Result<Vec<u8>, AllocError>
    ensures { IfOk result (λ text. text.items ≡ step_lines report.now) }
{
    let mut text = done_text(alloc, report.files, report.splices)?;
    let title = title_text(alloc, report.title.get())?;
    text.extend_from_slice(title.as_slice())?;
    Ok(text)
}
