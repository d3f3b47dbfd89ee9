//! Laws of sources that are added, removed and renamed where variables are followed. The functions do nothing: what they ensure is the law.

ghost use Rattle.meson_followed.specs.Laws.{AddedGoToOne, MissingAreAdded, NamedAreRemoved, NamesMeanPaths, OldAreRenamed, RemovedAreOfOne, RenamedAreOfOne, SureAreNotAdded};
ghost use Rattle.meson_followed.specs.RenameRows.{RenamedAcrossFolders, RenamedInPlace, RenamesRefused};
ghost use Rattle.meson_followed.specs.Rows.{Branching, Folders, InTurn, SharedWithOthers, Unknown};

/// What commands make of some build files.
pub fn edit_rows()
    ensures in_turn { InTurn }
    ensures unknown { Unknown }
    ensures branching { Branching }
    ensures folders { Folders }
    ensures shared { SharedWithOthers }
{}

/// What renaming makes of some build files.
pub fn rename_rows()
    ensures in_place { RenamedInPlace }
    ensures across_folders { RenamedAcrossFolders }
    ensures refused { RenamesRefused }
{}

/// Which sources are added and removed.
pub fn named_sources()
    ensures missing_are_added { MissingAreAdded }
    ensures sure_are_not_added { SureAreNotAdded }
    ensures named_are_removed { NamedAreRemoved }
{}

/// Which sources are renamed, and by which names.
pub fn renamed_sources()
    ensures old_are_renamed { OldAreRenamed }
    ensures names_mean_paths { NamesMeanPaths }
{}

/// Where shared lists are kept, other targets keep their sources.
pub fn others_stay()
    ensures added_go_to_one { AddedGoToOne }
    ensures removed_are_of_one { RemovedAreOfOne }
    ensures renamed_are_of_one { RenamedAreOfOne }
{}
