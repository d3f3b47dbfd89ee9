//! The titles of changes.

ghost use Rattle.std.specs.Prelude.{◌≡◌, IfOk};

use meson_splice::{Change, Text};
use std::alloc::{AllocError, Global};

/// A title for a change, and one for its report.
pub(crate) fn titles(alloc: Global, title: &str) -> Result<(Text, Text), AllocError>
    ensures { IfOk result (λ both. both ≡ (title.now, title.now)) }
{
    let kept = String::from_str(alloc, title)?;
    let told = String::from_str(alloc, title)?;
    Ok((Text::of(kept), Text::of(told)))
}

/// The same change with this title.
pub(crate) fn titled(change: Change, title: Text) -> Change
    ensures { result ≡ record { splices = change.splices; title = title } }
{
    let Change { splices, title: _ } = change;
    Change { splices, title }
}
