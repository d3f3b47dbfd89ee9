//! What a completed run says.

ghost use Rattle.std.specs.Prelude.{◌≡◌, IfOk, List, MatchResult, Ok, false, map};
ghost use Rattle.std.specs.List.{All};
ghost use Rattle.std.specs.Str.{IsUtf8};
ghost use Rattle.serde_json.specs.Data.{Data};
ghost use Rattle.serde_json.specs.View.{view};
ghost use Rattle.serde_json.specs.Written.{compact_text, has_float};
ghost use Rattle.meson_rewrite.specs.Lines.{line, shown_text};
ghost use Rattle.meson_rewrite.specs.Objects.{SaysObject, changes_files};
ghost use Rattle.meson_rewrite.specs.Runs.{CannotGet, CannotSay, Says};
ghost use Rattle.meson_rewrite.specs.Steps.{listing_line, said_of};
ghost use Rattle.meson_script.specs.Listings.{listings_text};
ghost use Rattle.meson_store.specs.Output.{Gets};

use crate::lines::{all_forgotten_text, done_text, forgotten_text, step_text};
use crate::objects::{done_object_line, forgot_object_line};
use crate::request::Step;
use meson_script::Report;
use meson_splice::{Bytes, FileSet, Text};
use meson_store::Output;
use serde_json::Value;
use std::alloc::{AllocError, Global};
use std::io;

/// What a completed run has for its two writers.
#[derive(Drop)]
pub(crate) struct Said {
    pub out: Bytes,
    pub err: Bytes,
    /// Whether a build file has other bytes after the run, or would have them after a run that is only shown.
    pub changed: bool,
}

/// Whether a step that reports this gives a build file other bytes.
fn changes_files(step: &Step, report: &Report) -> bool
    ensures { result ≡ changes_files step.now report.now }
{
    match step {
        Step::Tell(_) | Step::ForgetOldest(_) | Step::ForgetAll => false,
        _ => report.files != 0,
    }
}

/// A value as a line of compact JSON.
pub(crate) fn json_line(alloc: Global, value: &Value) -> Result<Vec<u8>, AllocError>
    requires { has_float (view value.now) ≡ false }
    ensures { IfOk result (λ text. text.items ≡ line (compact_text (view value.now))) }
{
    let mut text = value.to_vec(alloc)?;
    text.push(b'\n')?;
    Ok(text)
}

/// What a step lists, as a line; nothing if it lists nothing.
fn listing_line(report: Report) -> Result<Vec<u8>, AllocError>
    ensures { IfOk result (λ text. text.items ≡ listing_line report.info) }
{
    let Report { info, .. } = report;
    let mut text = info.take();
    if text.as_slice().is_empty() {
        return Ok(text);
    }
    text.push(b'\n')?;
    Ok(text)
}

impl Said {
    /// A text for the output.
    pub(crate) fn show(alloc: Global, text: Text) -> Said
        ensures { result ≡ shown_text text }
    {
        Said {
            out: Bytes::of(text.take().into_bytes()),
            err: Bytes::of(Vec::new(alloc)),
            changed: false,
        }
    }

    /// What is said of a step.
    pub(crate) fn of(alloc: Global, step: &Step, report: Report) -> Result<Said, AllocError>
        ensures { IfOk result (λ said. said ≡ said_of step.now report) }
    {
        let changed = changes_files(step, &report);
        let out = match step {
            Step::Run { .. } => done_text(alloc, report.files, report.splices)?,
            Step::Tell(_) => Vec::new(alloc),
            Step::Undo | Step::UndoTo(_) | Step::UndoChecked { .. } | Step::Redo => {
                step_text(alloc, &report)?
            }
            Step::ForgetOldest(count) => forgotten_text(alloc, *count)?,
            Step::ForgetAll => all_forgotten_text(alloc)?,
        };
        let err = listing_line(report)?;
        Ok(Said {
            out: Bytes::of(out),
            err: Bytes::of(err),
            changed,
        })
    }

    /// What is said of a step that is shown, and not done: this diff.
    pub(crate) fn shown(step: &Step, changes: Vec<u8>, report: Report) -> Result<Said, AllocError>
        ensures { IfOk result (λ said. said ≡ record {
          out = changes.items;
          err = listing_line report.info;
          changed = changes_files step.now report;
        }) }
    {
        let changed = changes_files(step, &report);
        let listing = listing_line(report)?;
        Ok(Said {
            out: Bytes::of(changes),
            err: Bytes::of(listing),
            changed,
        })
    }

    /// What is said in JSON of a step that makes the second files, which are text, of the first.
    pub(crate) fn object(
        alloc: Global,
        step: &Step,
        old: &FileSet,
        new: &FileSet,
        report: Report,
    ) -> Result<Said, AllocError>
        requires same_files { map (λ f. f.name) old.now ≡ map (λ f. f.name) new.now }
        requires old_text { All (λ f. IsUtf8 f.bytes) old.now }
        requires new_text { All (λ f. IsUtf8 f.bytes) new.now }
        requires listed { (listings : List Data) × (report.info ≡ listings_text listings) }
        ensures { IfOk result (SaysObject step.now old.now new.now report) }
    {
        let changed = changes_files(step, &report);
        let out = match step {
            Step::ForgetOldest(count) => forgot_object_line(alloc, Value::from(*count))?,
            Step::ForgetAll => forgot_object_line(alloc, Value::try_from_str(alloc, "all")?)?,
            _ => done_object_line(alloc, old, new, report)?,
        };
        Ok(Said {
            out: Bytes::of(out),
            err: Bytes::of(Vec::new(alloc)),
            changed,
        })
    }

    /// Writes the text for errors, then the text for output, each by one write.
    pub(crate) fn tell<O: Output, E: Output>(&self, out: &mut O, err: &mut E) -> io::Result<()>
        ensures { MatchResult result (λ _. Says false (Ok self.now) (O.heard out.old) (O.heard out.new) (E.heard err.old) (E.heard err.new))
            (λ _. CannotSay (Ok self.now) (O.heard out.old) (O.heard out.new) (E.heard err.old) (E.heard err.new)) }
    {
        tell_bytes(err, self.err.get())?;
        tell_bytes(out, self.out.get())
    }
}

/// Writes the bytes by one write, if there are any.
#[tactic(auto, using(crate::proofs::Telling::gets_nothing))]
fn tell_bytes<O: Output>(to: &mut O, bytes: &[u8]) -> io::Result<()>
    ensures { MatchResult result (λ _. Gets (O.heard to.old) (O.heard to.new) bytes.now)
        (λ _. CannotGet (O.heard to.old) (O.heard to.new) bytes.now) }
{
    if bytes.is_empty() {
        return Ok(());
    }
    to.tell(bytes)
}
