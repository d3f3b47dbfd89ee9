//! Laws of build files and their trees. The functions do nothing: what they ensure is the law.

ghost use Rattle.meson_syntax.specs.Texts.{ListSpannedTexts, ListSpelledTexts, SpannedTexts, SpelledTexts, TokensAreSlices};
ghost use Rattle.meson_syntax.specs.Laws.{HasSpans, OneSpannedList, OneSpannedTree, OneSpannedTreeWithin, OneTree};

/// A text parses as at most one tree, whose nodes have their places in it in one way, whatever the limits. So does a text that is one list.
pub fn one_tree()
    ensures one_tree { OneTree }
    ensures has_spans { HasSpans }
    ensures one_spanned_tree { OneSpannedTree }
    ensures one_spanned_tree_within { OneSpannedTreeWithin }
    ensures one_spanned_list { OneSpannedList }
{}

/// A tree that is spelled by a source has the texts that the source has at its spans.
pub fn texts()
    ensures tokens_are_slices { TokensAreSlices }
    ensures spelled_texts { SpelledTexts }
    ensures list_spelled_texts { ListSpelledTexts }
    ensures spanned_texts { SpannedTexts }
    ensures list_spanned_texts { ListSpannedTexts }
{}
