//! Where a new element is inserted.

ghost use Rattle.std.specs.Prelude.{◌≡◌, ◌++◌, ◌∷◌, [], OnOk, ◌+◌, ◌<◌, ◌≤◌, ◌^◌, IfErr, IfOk, length, take, zero};
ghost use Rattle.meson_lex.specs.Items.{joined};
ghost use Rattle.meson_layout.specs.Insertion.{before_bracket, first, inserted, plain_insertion, with_comma, without_comma};
ghost use Rattle.meson_layout.specs.Pieces.{as_one, splices};
ghost use Rattle.meson_layout.specs.inside.Places.{PlaceFits, at_place};
ghost use Rattle.meson_splice.specs.declared.fault.SpliceFault.TheVariants.{OutOfMemory};

use crate::lexemes::Lexeme;
use crate::looks::{closes, comma_note_len, line_before, note_len};
use crate::place::{Place, addition, push_texts, splice, text_len, two_splices};
use meson_splice::{Splice, SpliceFault};

/// Writes a line end with its indent, and the new text of that line.
fn push_line(to: &mut Vec<u8>, line: &[Lexeme<'_>], new: &[u8]) -> Result<(), SpliceFault>
    ensures done { OnOk result (to.new.items ≡ to.old.items ++ (joined line.now ++ new.now)) }
    ensures refused { IfErr result (λ e. e ≡ OutOfMemory) }
{
    push_texts(to, line)?;
    to.extend_from_slice(new)?;
    Ok(())
}

impl<'i, 'a> Place<'i, 'a> {
    /// Directly after the element.
    fn plain(self, new: &[u8]) -> Result<Vec<Splice>, SpliceFault>
        requires { PlaceFits self }
        ensures done { IfOk result (λ v. v.items ≡ splices self.entry.file.now 0 (at_place plain_insertion self.entry (as_one new.now))) }
        ensures refused { IfErr result (λ e. e ≡ OutOfMemory) }
    {
        let mut now = Vec::new(self.alloc);
        now.extend_from_slice(b", ")?;
        now.extend_from_slice(new)?;
        addition(self.alloc, self.file, self.end(), now)
    }

    /// After the element, on a line of its own: a comma and the new line.
    #[tactic(auto, using(crate::proofs::Texts::line_joined))]
    fn before_bracket(self, line: &[Lexeme<'a>], new: &[u8]) -> Result<Vec<Splice>, SpliceFault>
        requires { PlaceFits self }
        ensures done { IfOk result (λ v. v.items ≡ splices self.entry.file.now 0 (at_place before_bracket self.entry line.now (as_one new.now))) }
        ensures refused { IfErr result (λ e. e ≡ OutOfMemory) }
    {
        let mut now = Vec::new(self.alloc);
        now.extend_from_slice(b",")?;
        push_line(&mut now, line, new)?;
        addition(self.alloc, self.file, self.end(), now)
    }

    /// After the line of the element and its comma: the new line with a comma.
    #[tactic(auto, using(crate::proofs::Texts::joined_take, crate::proofs::Texts::line_joined_comma))]
    fn with_comma(
        self,
        n: usize,
        line: &[Lexeme<'a>],
        new: &[u8],
    ) -> Result<Vec<Splice>, SpliceFault>
        requires fits { PlaceFits self }
        requires within { n ≤ length self.right.now }
        ensures done { IfOk result (λ v. v.items ≡ splices self.entry.file.now 0 (at_place (with_comma n) self.entry line.now (as_one new.now))) }
        ensures refused { IfErr result (λ e. e ≡ OutOfMemory) }
    {
        let mut now = Vec::new(self.alloc);
        push_line(&mut now, line, new)?;
        now.extend_from_slice(b",")?;
        let at = self.end() + text_len(&self.right[..n]);
        addition(self.alloc, self.file, at, now)
    }

    /// After the line of the element, which has no comma yet.
    #[tactic(auto, using(crate::proofs::Texts::joined_take, crate::proofs::Texts::line_joined))]
    fn without_comma(
        self,
        n: usize,
        line: &[Lexeme<'a>],
        new: &[u8],
    ) -> Result<Vec<Splice>, SpliceFault>
        requires fits { PlaceFits self }
        requires within { n ≤ length self.right.now }
        ensures done { IfOk result (λ v. v.items ≡ splices self.entry.file.now 0 (at_place (without_comma n) self.entry line.now (as_one new.now))) }
        ensures refused { IfErr result (λ e. e ≡ OutOfMemory) }
    {
        if n == 0 {
            return self.before_bracket(line, new);
        }
        let first = self.comma()?;
        let second = self.line_after_comma(n, line, new)?;
        two_splices(self.alloc, first, second)
    }

    /// A comma directly after the element.
    fn comma(self) -> Result<Splice, SpliceFault>
        requires { PlaceFits self }
        ensures done { let p = self.entry in let end = length (joined p.left.now) + length (joined p.own.now) in
            IfOk result (λ s. s ≡ record { file = p.file.now; at = end; was = []; now = 44 ∷ [] }) }
        ensures refused { IfErr result (λ e. e ≡ OutOfMemory) }
    {
        let mut comma = Vec::new(self.alloc);
        comma.extend_from_slice(b",")?;
        splice(
            self.alloc,
            self.file,
            self.end(),
            Vec::new(self.alloc),
            comma,
        )
    }

    /// The new line after the line of the element, where the comma after the element is written first.
    #[tactic(auto, using(crate::proofs::Texts::joined_take))]
    fn line_after_comma(
        self,
        n: usize,
        line: &[Lexeme<'a>],
        new: &[u8],
    ) -> Result<Splice, SpliceFault>
        requires fits { PlaceFits self }
        requires within { n ≤ length self.right.now }
        requires apart { 1 ≤ n }
        ensures done { let p = self.entry in let at = length (joined p.left.now) + length (joined p.own.now) + 1 + length (joined (take n p.right.now)) in
            IfOk result (λ s. s ≡ record { file = p.file.now; at = at; was = []; now = joined line.now ++ new.now }) }
        ensures refused { IfErr result (λ e. e ≡ OutOfMemory) }
    {
        let at = self.end() + 1 + text_len(&self.right[..n]);
        let mut now = Vec::new(self.alloc);
        push_line(&mut now, line, new)?;
        splice(self.alloc, self.file, at, Vec::new(self.alloc), now)
    }

    /// A new element after this one.
    #[tactic(auto, unfolding(crate::specs::Insertion::inserted))]
    pub(crate) fn inserted(self, new: &[u8]) -> Result<Vec<Splice>, SpliceFault>
        requires { PlaceFits self }
        ensures done { IfOk result (λ v. v.items ≡ splices self.entry.file.now 0 (at_place inserted self.entry (as_one new.now))) }
        ensures refused { IfErr result (λ e. e ≡ OutOfMemory) }
    {
        let Some(indent) = line_before(self.left) else {
            return self.plain(new);
        };
        let line = &self.left[self.left.len() - (indent + 1)..];
        if let Some(n) = comma_note_len(self.right) {
            return self.with_comma(n, line, new);
        }
        if let Some(n) = note_len(self.right) {
            return self.without_comma(n, line, new);
        }
        if closes(self.right) {
            self.before_bracket(line, new)
        } else {
            self.plain(new)
        }
    }
}
