//! Laws of trees and of the texts that spell them: where nodes are, and what stays when a list or a statement is replaced.
//! The functions do nothing: what they ensure is the law.

ghost use Rattle.meson_edit.specs.Holes.{ListsStand, NodesStand, BlocksErase, ListsErase, NodesErase, HolesFit, ListsFit};
ghost use Rattle.meson_edit.specs.Exchange.{ListsExchange, ListsLevel, ListsReadAgain};
ghost use Rattle.meson_edit.specs.Blocks.{AppendedReadAgain, AppendingLevels, RemovalsLevel, RemovalsReadAgain, StatementsCome, StatementsGo};
ghost use Rattle.meson_edit.specs.Lines.{AppendedWords, CutsAreUtf8, FilesEnd, LinesAreTexts, SpelledReads, StatementsAreTexts, StatementsEnd, StatementsStand};
ghost use Rattle.meson_edit.specs.ExchangedLines.{AppendingExchanges, ExchangesComputed, ExchangesStand, FilesAreLines, FilesEndStand, LinesAlike, LinesDeepen, LinesExchange, LinesLevel, LinesReadAgain, LinesThere, QuietBefore, QuietBehind, RemovalsExchange, RoomsSuffice, StatementsComeAndGo, StatementsHaveLines};
ghost use Rattle.meson_edit.specs.ExchangedTokens.{TokensMove};
ghost use Rattle.meson_edit.specs.MappedPaths.{ListsMap, NodesMap};
ghost use Rattle.meson_edit.specs.Swap.{ListsSwap};
ghost use Rattle.meson_edit.specs.MovedTrees.{FilesMove, ListViewsMove, ListsMove, ViewsMove, ListViewsTell, ListViewsText, ViewsTell, ViewsText};
ghost use Rattle.meson_edit.specs.Borders.{ListsEnd, TreesEnd};
ghost use Rattle.meson_edit.specs.KeptLists.{ListsAlone, ListsKept, ListsPutErase};
ghost use Rattle.meson_edit.specs.PutLists.{FoundListsLook, PutListsLook, ElementsStay};

/// A span determines its node's place among the items of the text. So it is for each expression and statement that a path names, and for each list with its
/// elements and their values.
pub fn places()
    ensures nodes_stand { NodesStand }
    ensures lists_stand { ListsStand }
{}

/// A path names the same in a tree and in the tree without its spans: node, list or block, with the same words around it.
pub fn erased()
    ensures nodes_erase { NodesErase }
    ensures lists_erase { ListsErase }
    ensures blocks_erase { BlocksErase }
{}

/// Another node, or another list, may be put where a path names one. Then the tree has the words of the other in the place of the old ones.
pub fn holes()
    ensures holes_fit { HolesFit }
    ensures lists_fit { ListsFit }
{}

/// A list's bytes may be replaced by the text of another list: the new text spells the tree with the other list in that place. It parses as that tree if its
/// length and its depth allow it.
pub fn exchange()
    ensures lists_exchange { ListsExchange }
    ensures lists_read_again { ListsReadAgain }
    ensures lists_level { ListsLevel }
{}

/// A statement may be removed from its block, with the blank before it and with what ends its line. One may be added at the end of a file on lines of its own.
/// The new text spells the tree without that statement, or with it at the end. It parses as that tree if its length and its depth allow it.
pub fn statements()
    ensures statements_go { StatementsGo }
    ensures removals_read_again { RemovalsReadAgain }
    ensures removals_level { RemovalsLevel }
    ensures statements_come { StatementsCome }
    ensures appended_read_again { AppendedReadAgain }
    ensures appending_levels { AppendingLevels }
{}

/// What an edit on the items of a text has to know of them. Before a statement a line begins, after it one ends. Which words are left without it. Which items
/// are a statement's text. And a text which spells a tree parses as it.
pub fn lines()
    ensures statements_stand { StatementsStand }
    ensures statements_are_texts { StatementsAreTexts }
    ensures lines_are_texts { LinesAreTexts }
    ensures files_end { FilesEnd }
    ensures statements_end { StatementsEnd }
    ensures appended_words { AppendedWords }
    ensures cuts_are_utf8 { CutsAreUtf8 }
    ensures spelled_reads { SpelledReads }
{}

/// Of a list of statements some become others: where each is then. A statement that is removed, and one that is appended, are the two simplest cases.
pub fn exchanged_statements()
    ensures stand { ExchangesStand }
    ensures removals { RemovalsExchange }
    ensures appending { AppendingExchanges }
    ensures computed { ExchangesComputed }
{}

/// Whole lines may be exchanged for others, in any block: the new text spells the tree in which the statements that stood there are those of the new lines. It
/// parses as that tree if its length and its depth allow it. The depth does, if it allows the old tree and the one whose block has the new statements alone.
pub fn exchanged_lines()
    ensures lines_exchange { LinesExchange }
    ensures lines_read_again { LinesReadAgain }
    ensures lines_level { LinesLevel }
    ensures lines_deepen { LinesDeepen }
    ensures rooms_suffice { RoomsSuffice }
{}

/// Which lines stand for a statement: others may come before them or after them, or they may go. Comments and empty lines may be counted with them. Others may
/// also come at the end of a file. And a file's text is lines of its statements, however they are indented.
pub fn whole_lines()
    ensures statements { StatementsHaveLines }
    ensures there { LinesThere }
    ensures come_and_go { StatementsComeAndGo }
    ensures files_end { FilesEndStand }
    ensures quiet_before { QuietBefore }
    ensures quiet_behind { QuietBehind }
    ensures files { FilesAreLines }
    ensures alike { LinesAlike }
{}

/// If a list is replaced by another one, the tokens before it stay where they are. Those after it move by the difference of the lengths.
pub fn tokens()
    ensures tokens_move { TokensMove }
{}

/// A path names the same in a tree and in that tree with its spans mapped by one function: a node or a list between the same words.
pub fn mapped()
    ensures nodes_map { NodesMap }
    ensures lists_map { ListsMap }
{}

/// If located tokens spell a file, the tokens of a list may be replaced by those of another list with the same span, if the depth allows it. They spell the
/// file with the other list in that place.
pub fn swapping()
    ensures lists_swap { ListsSwap }
{}

/// If the borders of a tree and of the tokens that spell it move alike, the tokens spell it as before. And the view of a tree once the code's value has its
/// borders moved.
pub fn moving()
    ensures files_move { FilesMove }
    ensures lists_move { ListsMove }
    ensures views_move { ViewsMove }
    ensures list_views_move { ListViewsMove }
{}

/// Two trees that look alike over one source are the same value, and so are two lists. Over two sources one tree looks alike but for its texts.
pub fn views_tell()
    ensures views_tell { ViewsTell }
    ensures list_views_tell { ListViewsTell }
    ensures views_text { ViewsText }
    ensures list_views_text { ListViewsText }
{}

/// No border of a tree is after the end of its text, which ends where the tree does. The same holds of a list that is read alone.
pub fn borders()
    ensures trees_end { TreesEnd }
    ensures lists_end { ListsEnd }
{}

/// If a list's bytes are replaced by the text of another list, the tree of the new text is the old one with two changes. Its borders after the list are moved
/// by the difference of the lengths, and the other list is in that place, moved to it. And each list of a tree is what is parsed from its own bytes, moved.
pub fn kept()
    ensures lists_kept { ListsKept }
    ensures lists_put_erase { ListsPutErase }
    ensures lists_alone { ListsAlone }
{}

/// The model of a tree of the code once a list is put in it, and the model of the list that was there.
pub fn putting()
    ensures put_lists_look { PutListsLook }
    ensures found_lists_look { FoundListsLook }
{}

/// If the borders from a list's end on move, its elements stay where they are.
pub fn elements()
    ensures elements_stay { ElementsStay }
{}
