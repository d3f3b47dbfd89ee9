//! Laws of lines that are written. The functions do nothing: what they ensure is the law.

ghost use Rattle.meson_statements.specs.CodeTexts.{CodeIsStatements, LexemesAreItems, TreesAreRead};
ghost use Rattle.meson_statements.specs.GapRows.{GapRows, PlaceRows};
ghost use Rattle.meson_statements.specs.Gaps.{BlankLinesCounted};
ghost use Rattle.meson_statements.specs.IndentRows.{IndentRows};
ghost use Rattle.meson_statements.specs.Indented.{IndentedAreLines, IndentedAreUtf8, IndentedSayTheSame};
ghost use Rattle.meson_statements.specs.Places.{PlacedAreLines, PlacedAreUtf8};

/// Lines that are indented are lines of the same statements. Each token and each comment stays as it is.
pub fn indented()
    ensures lines { IndentedAreLines }
    ensures utf8 { IndentedAreUtf8 }
    ensures said { IndentedSayTheSame }
{}

/// Examples of indented lines.
pub fn indented_examples()
    ensures { IndentRows }
{}

/// What the functions on texts say: of the items of a text, of the tree that it parses as, and of whether it has a statement.
pub fn texts()
    ensures items { LexemesAreItems }
    ensures trees { TreesAreRead }
    ensures code { CodeIsStatements }
{}

/// What is inserted at a place is whole lines of the code's statements, and UTF-8 if the code is.
pub fn placed()
    ensures lines { PlacedAreLines }
    ensures utf8 { PlacedAreUtf8 }
{}

/// The blank lines that end a file are those after its last line with text.
pub fn blank_lines()
    ensures { BlankLinesCounted }
{}

/// Examples of code beside statements and at the end of a file.
pub fn placed_examples()
    ensures gaps { GapRows }
    ensures places { PlaceRows }
{}
