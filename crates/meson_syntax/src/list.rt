//! Lists: the arguments of a call, the elements of an array, the entries of a dictionary.
//!
//! The rules are those of the Syntax page of the Meson manual.

ghost use Rattle.std.specs.Prelude.{◌≡◌};
ghost use Rattle.meson_syntax.specs.View.{Bytes, arg_view, list_view};
ghost use Rattle.meson_syntax.specs.inside.Nests.{Follows, Nests, elements_view};
ghost use Rattle.meson_syntax.specs.Operators as operators;
ghost use Rattle.meson_syntax.specs.inside.Reading as spec;
ghost use Rattle.meson_syntax.specs.Tree.{is_named};

use crate::fault::ParseFault;
use crate::grammar::{Cursor, Grammar};
use crate::operator::Bracket;
use crate::tree::{Arg, Expr, List};
use meson_lex::Kind;
use meson_values::Many;
use std::alloc::Global;

/// The token that opens a list in these brackets.
pub(crate) fn opens(bracket: Bracket) -> Kind
    ensures { result ≡ operators.opens bracket }
{
    match bracket {
        Bracket::Round => Kind::OpenRound,
        Bracket::Square => Kind::OpenSquare,
        Bracket::Curly => Kind::OpenCurly,
    }
}

/// The token that closes a list in these brackets.
fn closes(bracket: Bracket) -> Kind
    ensures { result ≡ operators.closes bracket }
{
    match bracket {
        Bracket::Round => Kind::CloseRound,
        Bracket::Square => Kind::CloseSquare,
        Bracket::Curly => Kind::CloseCurly,
    }
}

/// Whether the element has a name.
fn is_named(element: &Arg) -> bool
    ensures { (source : Bytes) → result ≡ is_named (arg_view source element.now) }
{
    match element {
        Arg::Plain(_) => false,
        Arg::Named { .. } => true,
        Arg::Pair { .. } => false,
    }
}

impl<'a, F: Fn(Global, &[u8], &mut Cursor<'_>, usize) -> Result<Expr, ParseFault>> Grammar<'a, F> {
    /// A list from its opening bracket, which comes next, to the closing one.
    #[tactic(auto, unfolding(crate::specs::inside::Reading::listed))]
    pub(crate) fn listed(
        &self,
        tokens: &mut Cursor<'_>,
        bracket: Bracket,
    ) -> Result<List, ParseFault>
        requires { Nests self.now.depth (F.pre self.now.deeper) (F.post self.now.deeper) }
        ensures { Follows (λ room inner. spec.listed room inner bracket) list_view self.now.source.now self.now.depth tokens.old result tokens.new }
    {
        if self.depth == 0 {
            return Err(self.too_deep(tokens));
        }
        let start = self.from(tokens);
        self.take(tokens);
        if self.eat(tokens, closes(bracket)) {
            return Ok(List {
                items: Many::new(self.alloc),
                trailing: false,
                span: self.since(tokens, start),
            });
        }
        let (trailing, items) = self.elements(tokens, bracket)?;
        Ok(List {
            items,
            trailing,
            span: self.since(tokens, start),
        })
    }

    /// The elements up to the closing bracket and that, with whether a comma is before it.
    #[tactic(auto, unfolding(crate::specs::inside::Reading::listed_elements))]
    fn elements(
        &self,
        tokens: &mut Cursor<'_>,
        bracket: Bracket,
    ) -> Result<(bool, Many<Arg>), ParseFault>
        requires { Nests self.now.depth (F.pre self.now.deeper) (F.post self.now.deeper) }
        ensures { Follows (λ room inner. spec.listed_elements room inner bracket)
            elements_view self.now.source.now self.now.depth tokens.old result tokens.new }
    {
        let mut found = Many::new(self.alloc);
        let mut seen = false;
        // Each turn takes at least one token.
        for _turn in 0..self.left(tokens) {
            let element = self.element(tokens, bracket, seen)?;
            seen = is_named(&element);
            found.push_expecting(element, self.sees(tokens, Kind::Comma))?;
            if !self.eat(tokens, Kind::Comma) {
                self.expect(tokens, closes(bracket))?;
                return Ok((false, found));
            }
            if self.eat(tokens, closes(bracket)) {
                return Ok((true, found));
            }
        }
        Err(self.unexpected(tokens))
    }

    /// An element; `seen` says whether there was one with a name before.
    #[tactic(auto, unfolding(crate::specs::inside::Reading::listed_element))]
    fn element(
        &self,
        tokens: &mut Cursor<'_>,
        bracket: Bracket,
        seen: bool,
    ) -> Result<Arg, ParseFault>
        requires { Nests self.now.depth (F.pre self.now.deeper) (F.post self.now.deeper) }
        ensures { Follows (λ room inner. spec.listed_element room inner bracket seen)
            arg_view self.now.source.now self.now.depth tokens.old result tokens.new }
    {
        match bracket {
            Bracket::Round => {
                if self.sees_two(tokens, Kind::Identifier, Kind::Colon) {
                    self.with_name(tokens)
                } else {
                    self.without_name(tokens, seen)
                }
            }
            Bracket::Square => self.without_name(tokens, seen),
            Bracket::Curly => self.paired(tokens),
        }
    }

    /// An argument with a name, which comes next with its colon.
    #[tactic(auto, unfolding(crate::specs::inside::Reading::named_argument))]
    fn with_name(&self, tokens: &mut Cursor<'_>) -> Result<Arg, ParseFault>
        requires { Nests self.now.depth (F.pre self.now.deeper) (F.post self.now.deeper) }
        ensures { Follows spec.named_argument arg_view self.now.source.now self.now.depth tokens.old result tokens.new }
    {
        let start = self.from(tokens);
        let name = self.take(tokens);
        self.take(tokens);
        let value = self.inner(tokens)?;
        let span = self.since(tokens, start);
        Ok(Arg::Named { span, name, value })
    }

    /// An element without a name; `seen` says whether there was one with a name before.
    #[tactic(auto, unfolding(crate::specs::inside::Reading::without_name))]
    fn without_name(&self, tokens: &mut Cursor<'_>, seen: bool) -> Result<Arg, ParseFault>
        requires { Nests self.now.depth (F.pre self.now.deeper) (F.post self.now.deeper) }
        ensures { Follows (λ room inner. spec.without_name room inner seen) arg_view self.now.source.now self.now.depth tokens.old result tokens.new }
    {
        if seen {
            return Err(self.unexpected(tokens));
        }
        Ok(Arg::Plain(self.inner(tokens)?))
    }

    /// A key, a colon and a value.
    #[tactic(auto, unfolding(crate::specs::inside::Reading::paired))]
    fn paired(&self, tokens: &mut Cursor<'_>) -> Result<Arg, ParseFault>
        requires { Nests self.now.depth (F.pre self.now.deeper) (F.post self.now.deeper) }
        ensures { Follows spec.paired arg_view self.now.source.now self.now.depth tokens.old result tokens.new }
    {
        let start = self.from(tokens);
        let key = self.boxed(tokens)?;
        self.expect(tokens, Kind::Colon)?;
        let value = self.boxed(tokens)?;
        let span = self.since(tokens, start);
        Ok(Arg::Pair { span, key, value })
    }
}
