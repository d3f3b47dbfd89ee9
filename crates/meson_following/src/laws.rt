//! Laws of what is known of variables. The functions do nothing: what they ensure is the law.

ghost use Rattle.meson_following.specs.Infos.{Beginning, Either, Folders, Limit, Naming, Once, OneAfterAnother, Summing, Turning};
ghost use Rattle.meson_following.specs.Laws.{LeftOutAreSeen};
ghost use Rattle.meson_following.specs.Rows.{Branching, Entering, EnteringEach, InTurn, Looping, Setting};

/// What is known of a variable in some build files.
pub fn rows()
    ensures in_turn { InTurn }
    ensures branching { Branching }
    ensures looping { Looping }
    ensures setting { Setting }
    ensures entering { Entering }
    ensures entering_each { EnteringEach }
{}

/// What the targets of some build files are made of.
pub fn infos()
    ensures one_after_another { OneAfterAnother }
    ensures either { Either }
    ensures turning { Turning }
    ensures summing { Summing }
    ensures folders { Folders }
    ensures once { Once }
    ensures beginning { Beginning }
    ensures naming { Naming }
    ensures limit { Limit }
{}

/// What it means that makers are left out.
pub fn limits()
    ensures { LeftOutAreSeen }
{}
