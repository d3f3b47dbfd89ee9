//! Laws of what build files mean. The functions do nothing: what they ensure is the law.

ghost use Rattle.meson_meaning.specs.Evaluations.{Either, Folders, OneAfterAnother, Setting, Summing, Turning, Using};
ghost use Rattle.meson_meaning.specs.Followed.{OnlyListedGo};
ghost use Rattle.meson_meaning.specs.FollowedRemovals.{OnlyFollowedGo};
ghost use Rattle.meson_meaning.specs.Laws.{OnlyNamesGo, ToldFoldersStay};
ghost use Rattle.meson_meaning.specs.Leaving.{Leaving};
ghost use Rattle.meson_meaning.specs.Removals.{OnlyExtraGoes, OnlyRemovedGo};
ghost use Rattle.meson_meaning.specs.Written.{CallsMakeTargets};

/// What evaluations of some build files make.
pub fn evaluations()
    ensures one_after_another { OneAfterAnother }
    ensures either { Either }
    ensures turning { Turning }
    ensures folders { Folders }
    ensures setting { Setting }
    ensures summing { Summing }
    ensures using { Using }
{}

/// Each target is made by a call, of the literals that stand in it at least. What literals it has stand in the build files.
pub fn made()
    ensures { CallsMakeTargets }
{}

/// What is left of some build files, where all literals are left out that may be.
pub fn leaving()
    ensures { Leaving }
{}

/// Where literals are left out of lists, each evaluation makes what it made before, without them.
pub fn left_out()
    ensures { OnlyNamesGo }
{}

/// Where sources or extra files of a target are removed, each evaluation makes what it made before, without them.
pub fn removed()
    ensures sources { OnlyRemovedGo }
    ensures extra_files { OnlyExtraGoes }
{}

/// The same of sources in lists, as they are met where variables are followed.
pub fn listed_removed()
    ensures { OnlyListedGo }
{}

/// Where sources of a target are removed by their names, as they are met where variables are followed, each evaluation makes what it made before, without them.
pub fn followed_removed()
    ensures { OnlyFollowedGo }
{}

/// Where each `subdir` tells its folder, no literal in a list names one.
pub fn told_folders()
    ensures { ToldFoldersStay }
{}
