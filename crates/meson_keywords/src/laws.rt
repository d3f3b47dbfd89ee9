//! Laws of changes of a call. The functions do nothing: what they ensure is the law.

ghost use Rattle.meson_keywords.specs.Effects.{RequestsLeave, StepsLeave};

/// The steps of tasks, done one after another, leave of their call what these tasks leave. The value that was set is the only one. The old elements have the
/// new ones after them. All other arguments are as they were.
pub fn steps_leave()
    ensures { StepsLeave }
{}

/// If a request means steps, they leave of the one call that it names what its tasks leave.
pub fn requests_leave()
    ensures { RequestsLeave }
{}
