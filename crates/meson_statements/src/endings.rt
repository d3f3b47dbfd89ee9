//! The end of a file: the line end that its lines have, and its blank lines there.

ghost use Rattle.std.specs.Prelude.{◌≡◌, ◌+◌, ◌<◌, ◌^◌, List};
ghost use Rattle.meson_lex.specs.Items.{IsItemList, Lexeme};
ghost use Rattle.meson_layout.specs.Looks.{is_line_end};
ghost use Rattle.meson_layout.specs.Statements.{line_end_of};
ghost use Rattle.meson_statements.specs.Gaps.{blank_lines, blank_lines_at_end, ending_by};

use meson_lex::{Kind, items, text};

/// How a file ends after some of its items.
#[derive(Clone, Copy)]
enum Ending {
    /// In a line with text.
    Text,
    /// In no line, after this number of blank lines.
    Lines(usize),
    /// In a line of blanks, which is the last of this number of blank lines.
    Blanks(usize),
}

impl Ending {
    /// The number of blank lines.
    fn blank_lines(self) -> usize
        ensures { result ≡ blank_lines self }
    {
        match self {
            Ending::Text => 0,
            Ending::Lines(lines) => lines,
            Ending::Blanks(lines) => lines,
        }
    }

    /// How the file ends after one more item of that kind.
    fn after(self, kind: Kind) -> Ending
        requires { blank_lines self + 1 < 2 ^ 64 }
        ensures { result ≡ ending_by kind self }
    {
        match (kind, self) {
            (Kind::LineEnd, Ending::Text) => Ending::Lines(0),
            (Kind::LineEnd, Ending::Lines(lines)) => Ending::Lines(lines + 1),
            (Kind::LineEnd, Ending::Blanks(lines)) => Ending::Lines(lines),
            (Kind::Blank, Ending::Lines(lines)) => Ending::Blanks(lines + 1),
            (Kind::Blank, same) => same,
            (_, _) => Ending::Text,
        }
    }
}

/// The number of blank lines that end a file.
pub(crate) fn blank_lines_at_end(source: &[u8]) -> usize
    ensures { (xs : List Lexeme) → IsItemList source.now xs → result ≡ blank_lines_at_end xs }
{
    let mut ending = Ending::Lines(0);
    for item in items(source) {
        if let Ok(item) = item {
            ending = ending.after(item.kind);
        }
    }
    ending.blank_lines()
}

/// Whether it is a line end. A continuation is not.
fn is_line_end(kind: Kind) -> bool
    ensures { result ≡ is_line_end kind }
{
    matches!(kind, Kind::LineEnd)
}

/// The first line end of a file, else LF.
pub(crate) fn line_end(source: &[u8]) -> &[u8]
    ensures { (xs : List Lexeme) → IsItemList source.now xs → result.now ≡ (line_end_of xs).text }
{
    for item in items(source) {
        if let Ok(item) = item {
            if is_line_end(item.kind) {
                return text(source, item.span);
            }
        }
    }
    b"\n"
}
