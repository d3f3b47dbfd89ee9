//! Laws of item lists, as functions that do nothing; the contract of each is a law.
ghost use Rattle.std.specs.Prelude.{◌≡◌, ◌↔◌, ℕ, List, [], ◌++◌, Result, IfOk, Some, None, false, IsUtf8};
ghost use Rattle.std.specs.List.{AllByRecursion};
ghost use Rattle.meson_lex.specs.Bytes.{is_quote, begins, first_bare_return};
ghost use Rattle.meson_lex.specs.Kinds.{IsString};
ghost use Rattle.meson_lex.specs.Neighbours.{MayStand};
ghost use Rattle.meson_lex.specs.Items.{Lexeme, joined, AreItems, IsItemList, StandTogether};
ghost use Rattle.meson_lex.specs.Lexed.{IsLexed, StandsIn};
ghost use Rattle.meson_lex.specs.Located.{located, words};
ghost use Rattle.meson_lex.specs.Significant.{significant};
ghost use Rattle.meson_lex.specs.Literals.{literal, value};
ghost use Rattle.meson_lex.specs.declared.kinds.Item.{Item};
ghost use Rattle.meson_lex.specs.declared.kinds.Kind.TheVariants.{PlainString};
ghost use Rattle.meson_lex.specs.declared.fault.LexFault.{LexFault};

/// A text has at most one item list.
pub fn one_item_list()
    ensures { (bytes : List ℕ) (xs ys : List Lexeme) → IsItemList bytes xs → IsItemList bytes ys → xs ≡ ys }
{}

/// A text has its items, or the items before its one fault and that fault, and not both.
pub fn one_answer()
    ensures { (offset : ℕ) (bytes : List ℕ) (rs qs : List (Result Item LexFault)) → IsLexed offset bytes rs → IsLexed offset bytes qs → rs ≡ qs }
{}

/// The text of each item that an iterator gives is an item of the source, and may be before what follows it there.
pub fn items_stand()
    ensures { (source : List ℕ) (results : List (Result Item LexFault)) → IsLexed 0 source results
        → AllByRecursion (λ result. IfOk result (StandsIn source)) results }
{}

/// An item list may be described by the whole text. The texts joined are the text, and each is of its kind and may be before what follows it. The text has no
/// CR without an LF after it.
pub fn item_list_by_whole_text()
    ensures { (bytes : List ℕ) (xs : List Lexeme) → IsItemList bytes xs ↔ ((joined xs ≡ bytes) × StandTogether xs [] × (first_bare_return bytes ≡ None)) }
{}

/// Items may be joined if those of the first list may be before the others, and may be split anywhere.
pub fn items_join()
    ensures join { (xs ys : List Lexeme) (rest : List ℕ) → AreItems xs (joined ys ++ rest) → AreItems ys rest → AreItems (xs ++ ys) rest }
    ensures split { (xs ys : List Lexeme) (rest : List ℕ) → AreItems (xs ++ ys) rest → AreItems xs (joined ys ++ rest) × AreItems ys rest }
{}

/// The literal that is written for a text means that text.
pub fn literal_reads_back()
    ensures { (text : List ℕ) → IsUtf8 text → value PlainString (literal text) ≡ Some text }
{}

/// The literal that is written for a text is one plain string without a CR, and UTF-8 if the text is. It may be before all that does not begin with a quote.
pub fn literal_is_plain_string()
    ensures string { (text : List ℕ) → IsString PlainString (literal text) }
    ensures no_return { (text : List ℕ) → first_bare_return (literal text) ≡ None }
    ensures stands { (text rest : List ℕ) → begins is_quote rest ≡ false → MayStand PlainString (literal text) rest }
    ensures text { (text : List ℕ) → IsUtf8 text → IsUtf8 (literal text) }
{}

/// The tokens of items with their places are their significant tokens.
pub fn located_tokens()
    ensures { (xs : List Lexeme) → words (located xs) ≡ significant xs }
{}
