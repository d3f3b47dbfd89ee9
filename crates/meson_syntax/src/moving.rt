//! How borders move when bytes are replaced.

ghost use Rattle.std.specs.Prelude.{◌≤◌};

use meson_lex::Span;

/// The `was` bytes before `end` become `now` bytes: each border at `end` or after it moves by the difference, the others stay.
#[derive(Clone, Copy)]
pub(crate) struct Move {
    pub end: usize,
    pub was: usize,
    pub now: usize,
    ghost inside: { was ≤ end },
}

impl Move {
    ghost use Rattle.std.specs.Prelude.{◌≡◌};
    ghost use Rattle.meson_syntax.specs.Furthest.{furthest_span};
    ghost use Rattle.meson_syntax.specs.Moving.{span_by};
    ghost use Rattle.meson_syntax.specs.Moving.{MayMove, border_by};

    /// The new place of a border.
    fn border(self, n: usize) -> usize
        requires { MayMove self n }
        ensures { result ≡ border_by self n }
    {
        if self.end <= n {
            (n - self.was) + self.now
        } else {
            n
        }
    }

    /// Moves both borders of a span.
    pub(crate) fn shift(self, span: &mut Span)
        requires { MayMove self (furthest_span span.old) }
        ensures { span.new ≡ span_by (border_by self) span.old }
    {
        span.from = self.border(span.from);
        span.to = self.border(span.to);
    }
}
