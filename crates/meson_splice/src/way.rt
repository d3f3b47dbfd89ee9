//! The way in which a change is applied: forward or back.

ghost use Rattle.std.specs.Prelude.{◌+◌, ◌<◌, ◌∷◌, ◌≡◌, drop, length};
ghost use Rattle.meson_splice.specs.inside.Borrowed.{splice_of};
ghost use Rattle.meson_splice.specs.inside.Ordered.{ordered};

use crate::splice::{Borrowed, Splice};

/// Whether splices are done, first to last, or taken back, last to first.
#[derive(Clone, Copy)]
pub(crate) enum Way {
    Forward,
    Backward,
}

impl Way {
    /// The splice after the first `n`.
    pub(crate) fn at<'a>(self, splices: &'a [Splice], n: usize) -> Borrowed<'a>
        requires { n < length splices.now }
        ensures { drop n (ordered self splices.now) ≡ splice_of result ∷ drop (n + 1) (ordered self splices.now) }
    {
        match self {
            Way::Forward => Borrowed::forward(&splices[n]),
            Way::Backward => Borrowed::backward(&splices[splices.len() - 1 - n]),
        }
    }
}
