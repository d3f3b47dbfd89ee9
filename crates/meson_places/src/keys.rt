//! Keys: the steps from an expression to a value in it.

ghost use Rattle.std.specs.Prelude.{◌≡◌};
ghost use Rattle.meson_places.specs.Slots.{number_of};

/// The number that a word of decimal digits writes. Leading zeros are allowed, and nothing else.
pub(crate) fn number_of(word: &str) -> Option<usize>
    ensures { result ≡ number_of word.now }
{
    if word.starts_with('+') {
        return None;
    }
    match word.parse::<usize>() {
        Ok(number) => Some(number),
        Err(_) => None,
    }
}
