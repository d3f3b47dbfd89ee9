//! The law of digests. The function does nothing: what it ensures is the law.

ghost use Rattle.meson_sums.specs.Laws.{SumsTell};

/// Files with the same digests are the same files, or there are two texts with one digest.
pub fn sums_tell()
    ensures { SumsTell }
{}
