//! A number of runs, as a word gives it.

ghost use Rattle.std.specs.Prelude.{◌≡◌};
ghost use Rattle.meson_json.specs.Counts.{count_of};

/// The number, from 1 to `usize::MAX`, that a word of decimal digits writes. Leading zeros are allowed, and nothing else.
pub fn count_of(word: &str) -> Option<usize>
    ensures { result ≡ count_of word.now }
{
    if word.starts_with('+') {
        return None;
    }
    match word.parse::<usize>() {
        Ok(0) => None,
        Ok(count) => Some(count),
        Err(_) => None,
    }
}
