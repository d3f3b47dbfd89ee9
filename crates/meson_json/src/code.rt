//! How many blank lines go with code, by a script or on the command line.

ghost use Rattle.std.specs.Prelude.{◌≡◌};
ghost use Rattle.meson_json.specs.Codes.{blank_of};

/// The largest number of blank lines that may be requested.
pub const MAX_BLANK_LINES: usize = 100;

/// The number of blank lines, from 0 to `MAX_BLANK_LINES`, that a word of decimal digits writes. Leading zeros are allowed, and nothing else.
pub fn blank_of(word: &str) -> Option<usize>
    ensures { result ≡ blank_of word.now }
{
    if word.starts_with('+') {
        return None;
    }
    match word.parse::<usize>() {
        Ok(count) if count <= MAX_BLANK_LINES => Some(count),
        Ok(_) => None,
        Err(_) => None,
    }
}
