//! Versions of the undo log.

ghost use Rattle.std.specs.Prelude.{◌≡◌};
ghost use Rattle.meson_json.specs.Log.{version_of};

/// The form of the changes in a log.
#[derive(Clone, Copy)]
pub(crate) enum Version {
    /// Each is its splices alone.
    Bare,
    /// Each is an object with its splices and its title.
    Titled,
}

/// The version of this number.
pub(crate) fn version_of(number: u64) -> Option<Version>
    ensures { result ≡ version_of number }
{
    match number {
        1 => Some(Version::Bare),
        2 => Some(Version::Titled),
        _ => None,
    }
}
