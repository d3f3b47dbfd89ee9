//! Laws of edits. The functions do nothing: what they ensure is the law.

ghost use Rattle.meson_edit.specs.ExchangedTrees.{OldListsLook, TreesExchange, TreesExchangeBack};
ghost use Rattle.meson_edit.specs.Kept.{EditsKeep};
ghost use Rattle.meson_edit.specs.Laws.{AppendedSpell, AssignmentsSpell, FirstsSpell, InsertionsSpell, LinesSpell, ListEditsLook, ListEditsWrite, RemovalsSpell, ReplacementsSpell, StatementRemovalsSpell, WrapsSpell, WrittenListsRead};
ghost use Rattle.meson_edit.specs.PutBack.{ListsPutBack};
ghost use Rattle.meson_edit.specs.Sequences.{AssignmentsDeepen, AssignmentsKeepLevels, DepthsGrow, EditsDeepen, EditsDeepenByOne, FirstsKeepLevels, FirstsStayWithin, InsertionsKeepLevels, InsertionsStayWithin, LineEditsDeepen, LinesKeepLevels, ListsAreShallow, ListsStay, RemovalsKeepLevels, RemovalsStayWithin, ReplacementsKeepLevels, WrapsKeepLevels};

/// An element is inserted, removed, replaced or wrapped: the new text spells the tree with that edit. No byte outside the list is read or changed. In its place
/// is the text of the edited list, which also parses by itself.
pub fn lists()
    ensures firsts { FirstsSpell }
    ensures insertions { InsertionsSpell }
    ensures removals { RemovalsSpell }
    ensures replacements { ReplacementsSpell }
    ensures wraps { WrapsSpell }
    ensures look { ListEditsLook }
    ensures write { ListEditsWrite }
    ensures written_read { WrittenListsRead }
{}

/// A statement is removed or appended, an assignment assigns another value, or statements are inserted on lines of their own: the new text spells the tree with
/// that edit.
pub fn statements()
    ensures removals { StatementRemovalsSpell }
    ensures appended { AppendedSpell }
    ensures assigned { AssignmentsSpell }
    ensures lines { LinesSpell }
{}

/// What an edit keeps. In a list: each comment and continuation but those of what is touched, and each other element, byte for byte. Around a removed
/// statement: all but a blank on each side and the line end of its line. Before an appended one: all. Around an assigned value, and around new lines: all.
pub fn kept()
    ensures edits { EditsKeep }
{}

/// What one edit leaves to the next. A list is where it was put, and all around it is as before. The tree is no deeper than the inserted part makes it, no list
/// is deeper than its tree, and the tree keeps its levels.
pub fn sequences()
    ensures stay { ListsStay }
    ensures depths { DepthsGrow }
    ensures shallow { ListsAreShallow }
    ensures deepen { EditsDeepen }
    ensures removals_within { RemovalsStayWithin }
    ensures firsts_within { FirstsStayWithin }
    ensures insertions_within { InsertionsStayWithin }
    ensures by_one { EditsDeepenByOne }
    ensures assigned_deepen { AssignmentsDeepen }
    ensures lines_deepen { LineEditsDeepen }
    ensures removals_level { RemovalsKeepLevels }
    ensures wraps_level { WrapsKeepLevels }
    ensures replacements_level { ReplacementsKeepLevels }
    ensures assigned_level { AssignmentsKeepLevels }
    ensures lines_level { LinesKeepLevels }
    ensures firsts_level { FirstsKeepLevels }
    ensures insertions_level { InsertionsKeepLevels }
{}

/// A list was replaced by another one and is put back from its old bytes. Then the tree is as it was, to the last border.
pub fn put_back()
    ensures lists { ListsPutBack }
{}

/// A tree of the code whose list is replaced is spelled by the new text. With the old list put back, it is the old value.
pub fn exchanged_trees()
    ensures exchange { TreesExchange }
    ensures old { OldListsLook }
    ensures back { TreesExchangeBack }
{}
