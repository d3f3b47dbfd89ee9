//! The bytes with which two texts begin and end, cut at whole characters and line ends.

ghost use Rattle.std.specs.Prelude.{◌≡◌, ◌≤◌, false, length, true};
ghost use Rattle.meson_ranges.specs.Trimming.{IsCut, IsLongest, IsSharedBack, IsSharedFront};

/// Whether a text may be cut at an offset: not inside a character of UTF-8, and not between the two bytes of a line end CR LF,
/// where the language server protocol has no position.
fn may_cut(text: &[u8], at: usize) -> bool
    requires { at ≤ length text.now }
    ensures may { result ≡ true → IsCut text.now at }
    ensures may_not { result ≡ false → IsCut text.now at → ⊥ }
{
    if at == text.len() {
        return true;
    }
    match text[at] {
        128..=191 => false,
        b'\n' => at == 0 || text[at - 1] != b'\r',
        _ => true,
    }
}

/// The length of the longest front that two texts share and after which both may be cut.
pub(crate) fn shared_front(was: &[u8], now: &[u8]) -> usize
    ensures in_was { result ≤ length was.now }
    ensures in_now { result ≤ length now.now }
    ensures longest { IsLongest (IsSharedFront was.now now.now) result }
{
    let mut front = 0;
    for n in 0..was.len().min(now.len()) {
        if was[n] != now[n] {
            return front;
        }
        if may_cut(was, n + 1) && may_cut(now, n + 1) {
            front = n + 1;
        }
    }
    front
}

/// The length of the longest back that two texts share and before which both may be cut.
pub(crate) fn shared_back(was: &[u8], now: &[u8]) -> usize
    ensures in_was { result ≤ length was.now }
    ensures in_now { result ≤ length now.now }
    ensures longest { IsLongest (IsSharedBack was.now now.now) result }
{
    let mut back = 0;
    for n in 0..was.len().min(now.len()) {
        let (was_at, now_at) = (was.len() - 1 - n, now.len() - 1 - n);
        if was[was_at] != now[now_at] {
            return back;
        }
        if may_cut(was, was_at) && may_cut(now, now_at) {
            back = n + 1;
        }
    }
    back
}
