//! Titles of changes.

ghost use Rattle.std.specs.Prelude.{◌≡◌};
ghost use Rattle.meson_json.specs.Titles.{is_title};

use meson_calls::folders::has_control;

/// The largest number of bytes in a title.
const MAX_TITLE: usize = 200;

/// Whether a text may be the title of a change: it has at most 200 bytes, and no control character of ASCII.
pub fn is_title(text: &str) -> bool
    ensures { result ≡ is_title text.now }
{
    let bytes = text.as_bytes();
    bytes.len() <= MAX_TITLE && !has_control(bytes)
}
