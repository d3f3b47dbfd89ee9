//! What is removed along with an element.

ghost use Rattle.std.specs.Prelude.{◌≡◌, ◌+◌, ◌<◌, ◌≤◌, ◌^◌, ◌++◌, IfErr, IfOk, length, reverse, take};
ghost use Rattle.meson_layout.specs.Looks.{gap_len, last_few};
ghost use Rattle.meson_lex.specs.Items.{joined};
ghost use Rattle.meson_layout.specs.Removal.{comma_before, comma_behind, comma_len, gone, grown, no_comma_behind, one_range, removed, two_ranges};
ghost use Rattle.meson_layout.specs.Pieces.{splices};
ghost use Rattle.meson_layout.specs.inside.Places.{PlaceFits, at_place};
ghost use Rattle.meson_splice.specs.declared.fault.SpliceFault.TheVariants.{OutOfMemory};

use crate::lexemes::Lexeme;
use crate::looks::{
    all_white, at_most_blank, begins_comma, blanks, ends_comma, gap_len, last_gap_len, line_before,
    line_behind,
};
use crate::place::{Place, push_texts, replacement, splice, text_len, two_splices};
use meson_splice::{Splice, SpliceFault};

/// The number of items that a removed range takes along, so that whole lines are removed.
#[derive(Clone, Copy)]
pub(crate) struct Growth {
    pub before: usize,
    pub behind: usize,
}

fn grown(left: &[Lexeme<'_>], right: &[Lexeme<'_>]) -> Growth
    ensures value { result ≡ grown left.now right.now }
    ensures before { result.before ≤ length left.now }
    ensures behind { result.behind ≤ length right.now }
{
    match (line_before(left), line_behind(right)) {
        (Some(before), Some(behind)) => Growth { before, behind },
        _ => Growth {
            before: 0,
            behind: 0,
        },
    }
}

impl<'i, 'a> Place<'i, 'a> {
    /// The text of this place and the items after it, with the items that are removed along with them.
    fn range_text(
        self,
        growth: Growth,
        more: &[Lexeme<'a>],
        last: &[Lexeme<'a>],
    ) -> Result<Vec<u8>, SpliceFault>
        requires before { growth.before ≤ length self.left.now }
        requires behind { growth.behind ≤ length self.right.now }
        ensures done { let p = self.entry in let behind = joined more.now ++ (joined last.now ++ joined (take growth.behind p.right.now)) in
            IfOk result (λ v. v.items ≡ joined (last_few growth.before p.left.now) ++ (joined p.own.now ++ behind)) }
        ensures refused { IfErr result (λ e. e ≡ OutOfMemory) }
    {
        let mut text = Vec::new(self.alloc);
        push_texts(&mut text, &self.left[self.left.len() - growth.before..])?;
        push_texts(&mut text, self.own)?;
        push_texts(&mut text, more)?;
        push_texts(&mut text, last)?;
        push_texts(&mut text, &self.right[..growth.behind])?;
        Ok(text)
    }

    /// This is removed, with the items after it: one range.
    #[tactic(auto, using(crate::proofs::Texts::joined_take, crate::proofs::Texts::joined_five))]
    fn one_range(self, more: &[Lexeme<'a>], last: &[Lexeme<'a>]) -> Result<Vec<Splice>, SpliceFault>
        requires { length (joined self.left.now) < 2 ^ 64 }
        ensures done { let p = self.entry in
            IfOk result (λ v. v.items ≡ splices p.file.now 0 (one_range p.left.now (p.own.now ++ (more.now ++ last.now)) p.right.now)) }
        ensures refused { IfErr result (λ e. e ≡ OutOfMemory) }
    {
        let growth = grown(self.left, self.right);
        let at = text_len(&self.left[..self.left.len() - growth.before]);
        let was = self.range_text(growth, more, last)?;
        replacement(self.alloc, self.file, at, was, Vec::new(self.alloc))
    }

    /// This is removed at the offset, with the items that are removed along with it.
    pub(crate) fn gone(self, at: usize, growth: Growth) -> Result<Splice, SpliceFault>
        requires before { growth.before ≤ length self.left.now }
        requires behind { growth.behind ≤ length self.right.now }
        ensures done { let p = self.entry in let behind = joined (take growth.behind p.right.now) in
            IfOk result (λ s. s ≡ gone p.file.now at (joined (last_few growth.before p.left.now) ++ (joined p.own.now ++ behind))) }
        ensures refused { IfErr result (λ e. e ≡ OutOfMemory) }
    {
        let was = self.range_text(growth, &[], &[])?;
        splice(self.alloc, self.file, at, was, Vec::new(self.alloc))
    }

    /// This and another range are removed. `mid` is between the two.
    #[tactic(auto, using(crate::proofs::Texts::joined_take, crate::proofs::Texts::joined_drop, crate::proofs::Ranges::two_ranges_splices))]
    fn two_ranges(
        self,
        mid: &[Lexeme<'a>],
        other: &[Lexeme<'a>],
    ) -> Result<Vec<Splice>, SpliceFault>
        requires { length (joined self.left.now) + length (joined mid.now) < 2 ^ 64 }
        ensures done { let p = self.entry in
            IfOk result (λ v. v.items ≡ splices p.file.now 0 (two_ranges p.left.now p.own.now mid.now other.now p.right.now)) }
        ensures refused { IfErr result (λ e. e ≡ OutOfMemory) }
    {
        let behind = grown(mid, self.right);
        let between = &mid[..mid.len() - behind.before];
        let before = grown(self.left, between);
        let at = text_len(&self.left[..self.left.len() - before.before]);
        let first = Place {
            right: between,
            ..self
        }
        .gone(at, before)?;
        let at = at + text_len(&between[before.behind..]);
        let second = Place {
            left: mid,
            own: other,
            ..self
        }
        .gone(at, behind)?;
        two_splices(self.alloc, first, second)
    }
}

/// The number of items of the comma at the front, with the blank after it.
fn comma_len(items: &[Lexeme<'_>]) -> usize
    requires { 1 ≤ length items.now }
    ensures value { result ≡ comma_len items.now }
    ensures within { result ≤ length items.now }
{
    1 + blanks(&items[1..])
}

impl<'i, 'a> Place<'i, 'a> {
    /// This is removed with the comma after it; `mid` is before that comma. The comma begins the items after this place.
    fn with_comma_behind(self, mid: &[Lexeme<'a>]) -> Result<Vec<Splice>, SpliceFault>
        requires fits { length (joined self.left.now) + length (joined mid.now) < 2 ^ 64 }
        requires comma { 1 ≤ length self.right.now }
        ensures done { let p = self.entry in IfOk result (λ v. v.items ≡ splices p.file.now 0 (comma_behind p.left.now p.own.now mid.now p.right.now)) }
        ensures refused { IfErr result (λ e. e ≡ OutOfMemory) }
    {
        let (comma, right) = self.right.split_at(comma_len(self.right));
        let place = Place { right, ..self };
        if at_most_blank(mid) {
            place.one_range(mid, comma)
        } else {
            place.two_ranges(mid, comma)
        }
    }

    /// This is removed with the comma before it; `mid` is after that comma.
    fn with_comma_before(
        self,
        comma: &'i [Lexeme<'a>],
        mid: &[Lexeme<'a>],
    ) -> Result<Vec<Splice>, SpliceFault>
        requires { length (joined self.left.now) + length (joined mid.now) < 2 ^ 64 }
        ensures done { let p = self.entry in
            IfOk result (λ v. v.items ≡ splices p.file.now 0 (comma_before p.left.now comma.entry.now mid.now p.own.now p.right.now)) }
        ensures refused { IfErr result (λ e. e ≡ OutOfMemory) }
    {
        let place = Place { own: comma, ..self };
        if all_white(mid) {
            place.one_range(mid, self.own)
        } else {
            place.two_ranges(mid, self.own)
        }
    }

    /// This is removed, and no comma is after it.
    #[tactic(auto, using(crate::proofs::Texts::joined_take, crate::proofs::Texts::joined_split))]
    fn without_comma_behind(self) -> Result<Vec<Splice>, SpliceFault>
        requires { PlaceFits self }
        ensures done { let p = self.entry in
            IfOk result (λ v. v.items ≡ splices p.file.now 0 (no_comma_behind (gap_len (reverse p.left.now)) p.left.now p.own.now p.right.now)) }
        ensures refused { IfErr result (λ e. e ≡ OutOfMemory) }
    {
        let m = last_gap_len(self.left);
        let (before, mid) = self.left.split_at(self.left.len() - m);
        if !ends_comma(before) {
            return self.one_range(&[], &[]);
        }
        let (left, comma) = before.split_at(before.len() - 1);
        Place { left, ..self }.with_comma_before(comma, mid)
    }

    /// This element is removed.
    #[tactic(auto, using(crate::proofs::Texts::joined_take), unfolding(crate::specs::Removal::removed))]
    pub(crate) fn removed(self) -> Result<Vec<Splice>, SpliceFault>
        requires { PlaceFits self }
        ensures done { IfOk result (λ v. v.items ≡ splices self.entry.file.now 0 (at_place removed self.entry)) }
        ensures refused { IfErr result (λ e. e ≡ OutOfMemory) }
    {
        let (mid, right) = self.right.split_at(gap_len(self.right));
        if begins_comma(right) {
            Place { right, ..self }.with_comma_behind(mid)
        } else {
            self.without_comma_behind()
        }
    }
}
