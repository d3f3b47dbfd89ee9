//! A text that is open at one place, where bytes are removed and inserted.

ghost use Rattle.std.specs.Prelude.{◌≡◌, ◌≢◌, ◌≤◌, ◌++◌, Err, IfErr, IfOk, Ok, OnOk, length, reverse};
ghost use Rattle.meson_splice.specs.inside.Borrowed.{splice_of};
ghost use Rattle.meson_splice.specs.inside.Gap.{gap_text};
ghost use Rattle.meson_splice.specs.Patch.{patched};
ghost use Rattle.meson_splice.specs.declared.fault.SpliceFault.TheVariants.{OutOfMemory};

use crate::fault::SpliceFault;
use crate::splice::Borrowed;
use meson_values::Bytes;
use std::alloc::{AllocError, Global};

/// The bytes of `front`, followed by those of `back` from its end to its start.
#[derive(Drop)]
pub(crate) struct GapText {
    front: Vec<u8>,
    back: Vec<u8>,
}

/// Appends bytes to others, the last of them first.
fn push_reversed(bytes: &mut Vec<u8>, more: &[u8]) -> Result<(), AllocError>
    ensures { OnOk result (bytes.new.items ≡ bytes.old.items ++ reverse more.now) }
{
    let start = bytes.len();
    bytes.extend_from_slice(more)?;
    bytes[start..].reverse();
    Ok(())
}

impl GapText {
    /// The text of these bytes, open at its end. Does not allocate.
    pub(crate) fn of(alloc: Global, bytes: Bytes) -> Self
        ensures { gap_text result ≡ bytes }
    {
        GapText {
            front: bytes.take(),
            back: Vec::new(alloc),
        }
    }

    /// Opens the text at that offset. Only what is between there and the place where it was open is moved.
    fn open_at(&mut self, at: usize) -> Result<(), AllocError>
        requires { at ≤ length (gap_text self.old) }
        ensures text { OnOk result (gap_text self.new ≡ gap_text self.old) }
        ensures place { OnOk result (length self.new.front.items ≡ at) }
    {
        let front = self.front.len();
        if at <= front {
            push_reversed(&mut self.back, &self.front[at..])?;
            self.front.truncate(at);
        } else {
            let left = self.back.len() - (at - front);
            push_reversed(&mut self.front, &self.back[left..])?;
            self.back.truncate(left);
        }
        Ok(())
    }

    /// Does a splice. After a refusal the text must not be used.
    pub(crate) fn patch(&mut self, splice: Borrowed<'_>) -> Result<(), SpliceFault>
        ensures done { OnOk result (patched (gap_text self.old) (splice_of splice.entry) ≡ Ok (gap_text self.new)) }
        ensures refused { IfErr result (λ e. e ≢ OutOfMemory → patched (gap_text self.old) (splice_of splice.entry) ≡ Err e) }
    {
        let len = self.front.len() + self.back.len();
        if splice.at > len || splice.old.len() > len - splice.at {
            return Err(SpliceFault::OutOfRange(splice.file.clone()?, splice.at));
        }
        self.open_at(splice.at + splice.old.len())?;
        if &self.front[splice.at..] != splice.old {
            return Err(SpliceFault::Stale(splice.file.clone()?, splice.at));
        }
        self.front.truncate(splice.at);
        self.front.extend_from_slice(splice.new)?;
        Ok(())
    }

    /// The bytes of the text.
    pub(crate) fn close(self) -> Result<Bytes, AllocError>
        ensures { IfOk result (λ bytes. bytes ≡ gap_text self) }
    {
        let GapText { front, back } = self;
        let mut bytes = front;
        push_reversed(&mut bytes, back.as_slice())?;
        Ok(Bytes::of(bytes))
    }
}
