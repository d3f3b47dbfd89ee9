//! Laws of the files that a build file enters. The functions do nothing: what they ensure is the law.

ghost use Rattle.meson_entering.specs.Laws.{FollowedEntersMore, LiteralsMeanOne, WrittenAreLiterals};
ghost use Rattle.meson_entering.specs.Rows.{Around, Lists, Variables};

/// A literal means at most one file, in a loop or not.
pub fn literals_mean_one()
    ensures { LiteralsMeanOne }
{}

/// As files are written, nothing else means any.
pub fn written_are_literals()
    ensures { WrittenAreLiterals }
{}

/// What is entered as it is written is entered where files are followed.
pub fn followed_enters_more()
    ensures { FollowedEntersMore }
{}

/// What some small build files with loops enter.
pub fn rows()
    ensures lists { Lists }
    ensures variables { Variables }
    ensures around { Around }
{}
