//! What is removed along with a statement, and where a new one is inserted.

ghost use Rattle.std.specs.Prelude.{◌≡◌, ◌+◌, ◌<◌, ◌≤◌, ◌^◌, ◌++◌, IfErr, IfOk, length};
ghost use Rattle.meson_lex.specs.Items.{joined};
ghost use Rattle.meson_layout.specs.Pieces.{as_one, splices};
ghost use Rattle.meson_layout.specs.inside.Places.{PlaceFits, at_place};
ghost use Rattle.meson_layout.specs.StatementRemoval.{statement_gone, statement_removed};
ghost use Rattle.meson_layout.specs.Statements.{appended, line_end_of};
ghost use Rattle.meson_splice.specs.declared.fault.SpliceFault.TheVariants.{OutOfMemory};

use crate::blank_lines::statement_growth;
use crate::lexemes::Lexeme;
use crate::looks::{at_line_start, is_line_end};
use crate::place::{Place, addition, one_splice, text_len};
use crate::primitive::BlankLines;
use crate::removal::Growth;
use meson_splice::{Splice, SpliceFault};
use std::alloc::Global;

impl<'i, 'a> Place<'i, 'a> {
    /// This is removed with these numbers of items before it and after it.
    #[tactic(auto, using(crate::proofs::Texts::joined_take, crate::proofs::Texts::joined_three))]
    fn statement_gone(self, growth: Growth) -> Result<Vec<Splice>, SpliceFault>
        requires fits { PlaceFits self }
        requires before { growth.before ≤ length self.left.now }
        requires behind { growth.behind ≤ length self.right.now }
        ensures done { IfOk result (λ v. v.items ≡ splices self.entry.file.now 0 (at_place (statement_gone growth) self.entry)) }
        ensures refused { IfErr result (λ e. e ≡ OutOfMemory) }
    {
        let at = text_len(&self.left[..self.left.len() - growth.before]);
        one_splice(self.alloc, self.gone(at, growth)?)
    }

    /// This statement is removed, with these blank lines beside it.
    #[tactic(auto, unfolding(crate::specs::StatementRemoval::statement_removed))]
    pub(crate) fn statement_removed(self, blank: BlankLines) -> Result<Vec<Splice>, SpliceFault>
        requires { PlaceFits self }
        ensures done { IfOk result (λ v. v.items ≡ splices self.entry.file.now 0 (at_place (statement_removed blank) self.entry)) }
        ensures refused { IfErr result (λ e. e ≡ OutOfMemory) }
    {
        let growth = statement_growth(blank, self.left, self.right);
        self.statement_gone(growth)
    }
}

/// The first line end of a text, else LF.
pub(crate) fn line_end<'a>(items: &[Lexeme<'a>]) -> &'a [u8]
    ensures { result.now ≡ (line_end_of items.now).text }
{
    for x in items {
        if is_line_end(x.kind) {
            return x.text;
        }
    }
    b"\n"
}

/// A new statement at the end.
#[tactic(auto, unfolding(crate::specs::Statements::appended))]
pub(crate) fn appended(
    alloc: Global,
    file: &str,
    items: &[Lexeme<'_>],
    new: &[u8],
) -> Result<Vec<Splice>, SpliceFault>
    requires { length (joined items.now) < 2 ^ 64 }
    ensures done { IfOk result (λ v. v.items ≡ splices file.now 0 (appended items.now (as_one new.now))) }
    ensures refused { IfErr result (λ e. e ≡ OutOfMemory) }
{
    let line = line_end(items);
    let mut now = Vec::new(alloc);
    if !at_line_start(items) {
        now.extend_from_slice(line)?;
    }
    now.extend_from_slice(new)?;
    now.extend_from_slice(line)?;
    addition(alloc, file, text_len(items), now)
}
