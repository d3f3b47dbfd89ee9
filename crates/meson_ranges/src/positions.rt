//! Positions in a text, as the language server protocol counts them.

ghost use Rattle.std.specs.Prelude.{◌≡◌, ◌≤◌, ◌+◌, ◌*◌, ◌^◌, ◌<◌, length};
ghost use Rattle.meson_ranges.specs.Positions.{position_after, position_after_byte, position_of, start, units_of};

/// A position in a text, as the language server protocol counts it.
///
/// Lines end with a line feed, which may follow a carriage return. A carriage return alone ends no line here.
#[derive(Clone, Copy, Debug, PartialEq, Eq)]
pub struct Position {
    /// The number of the line, counted from 0.
    pub line: usize,
    /// UTF-16 code units from the beginning of the line.
    pub character: usize,
}

/// The number of UTF-16 code units of the character that a byte of UTF-8 begins: 0 where the byte continues a character.
fn units_of(byte: u8) -> usize
    ensures value { result ≡ units_of byte }
    ensures small { result ≤ 2 }
{
    match byte {
        128..=191 => 0,
        240..=255 => 2,
        _ => 1,
    }
}

impl Position {
    /// The position at which a text begins.
    pub const START: Position = Position {
        line: 0,
        character: 0,
    };

    /// The position after one byte.
    fn after_byte(self, byte: u8) -> Position
        requires line { self.line + 1 < 2 ^ 64 }
        requires character { self.character + 2 < 2 ^ 64 }
        ensures value { result ≡ position_after_byte self byte }
        ensures line_grows { result.line ≤ self.line + 1 }
        ensures character_grows { result.character ≤ self.character + 2 }
    {
        if byte == b'\n' {
            return Position {
                line: self.line + 1,
                character: 0,
            };
        }
        Position {
            line: self.line,
            character: self.character + units_of(byte),
        }
    }

    /// The position after a text that begins at this one. The positions of many offsets in one text are found in one pass
    /// over it: each from the one before it and the bytes between them.
    pub fn after(self, text: &[u8]) -> Position
        requires line { self.line + length text.now < 2 ^ 64 }
        requires character { self.character + 2 * length text.now < 2 ^ 64 }
        ensures value { result ≡ position_after self text.now }
        ensures line_grows { result.line ≤ self.line + length text.now }
        ensures character_grows { result.character ≤ self.character + 2 * length text.now }
    {
        let mut position = self;
        'bytes: for byte in text {
            position = position.after_byte(*byte);
        }
        position
    }
}

/// The position of an offset, in bytes, in a text.
pub fn position_of(text: &[u8], offset: usize) -> Position
    requires { offset ≤ length text.now }
    ensures { result ≡ position_of text.now offset }
{
    Position::START.after(&text[..offset])
}
