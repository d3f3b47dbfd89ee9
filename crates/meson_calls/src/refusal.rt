//! Why a command is refused.

use meson_splice::Text;
use std::alloc::AllocError;
use std::error::Error;
use std::fmt;

/// Why a command is refused. The reasons are in the order in which they are checked.
#[derive(Debug, Drop, PartialEq)]
pub enum Refusal {
    /// No file has a `project` call.
    NoProject,
    /// The id names no call.
    NotFound,
    /// It names more than one.
    Ambiguous,
    /// Keyword arguments of this name are not changed in such a call.
    UnknownKey(Text),
    /// The keyword argument of this name can't have such a value.
    WrongKind(Text),
    /// A name is empty or can't be written.
    BadName,
    /// The call has a `kwargs:` argument, which may hold any keyword.
    HiddenKeywords,
    /// The call has more than one argument of this name.
    DuplicateKeyword(Text),
    /// The value of this name is not a literal that can be changed.
    NotLiteral(Text),
    /// The value stands in the variable of this name, which something else reads too.
    Shared(Text),
    /// A word would replace a value of another kind, which has this key.
    OtherKind(Text),
    /// The new value is there already.
    ThereAlready,
    /// No argument, entry or element has this key or number, or none has this value.
    NoSuchValue(Text),
    /// The source is not one of the target's.
    SourceNotFound,
    /// It is not among the known ones, and some are not known.
    Unresolved,
    /// It is in no list.
    NotRemovable,
    /// A target has this name.
    NameTaken,
    /// The project has no such file.
    NoFile,
    /// The target's call is neither a statement nor an assigned value.
    NotStatement,
    /// The target's variable of this name is used.
    InUse(Text),
    /// The new file would nest too deep.
    TooDeep,
    /// The new file would be too large.
    TooLarge,
    /// An allocation failed.
    OutOfMemory,
}

impl Refusal {
    ghost use Rattle.std.specs.Prelude.{◌≡◌};
    ghost use Rattle.meson_calls.specs.Messages.{refusal_name, refusal_words};

    /// The code, and what it means.
    fn words(&self) -> &'static str
        ensures { result.now ≡ refusal_words self.now }
    {
        match self {
            Refusal::NoProject => "C1 no project",
            Refusal::NotFound => "C2 not found",
            Refusal::Ambiguous => "C3 ambiguous",
            Refusal::UnknownKey(_) => "C4 unknown key",
            Refusal::WrongKind(_) => "C5 wrong kind",
            Refusal::BadName => "C6 bad name",
            Refusal::HiddenKeywords => "C7 hidden keywords",
            Refusal::DuplicateKeyword(_) => "C8 duplicate keyword: ",
            Refusal::NotLiteral(_) => "C9 not literal: ",
            Refusal::Shared(_) => "C20 shared: ",
            Refusal::OtherKind(_) => "C21 other kind: ",
            Refusal::ThereAlready => "C22 there already",
            Refusal::NoSuchValue(_) => "C23 no such value: ",
            Refusal::SourceNotFound => "C10 source not found",
            Refusal::Unresolved => "C11 unresolved",
            Refusal::NotRemovable => "C12 not removable",
            Refusal::NameTaken => "C13 name taken",
            Refusal::NoFile => "C14 no file",
            Refusal::NotStatement => "C15 not a statement",
            Refusal::InUse(_) => "C16 in use: ",
            Refusal::TooDeep => "C17 too deep",
            Refusal::TooLarge => "C18 too large",
            Refusal::OutOfMemory => "out of memory",
        }
    }

    /// The name that is printed after the words, or nothing.
    fn name(&self) -> &str
        ensures { result.now ≡ refusal_name self.now }
    {
        match self {
            Refusal::DuplicateKeyword(name)
            | Refusal::NotLiteral(name)
            | Refusal::Shared(name)
            | Refusal::OtherKind(name)
            | Refusal::NoSuchValue(name)
            | Refusal::InUse(name) => name.get(),
            _ => "",
        }
    }
}

impl fmt::Display for Refusal {
    ghost use Rattle.std.specs.Prelude.{Some};
    ghost use Rattle.meson_calls.specs.Messages.{refusal_text};

    ghost output = { λ refusal. Some (refusal_text refusal) };

    fn fmt<W: fmt::Write>(&self, f: &mut fmt::Formatter<W>) -> fmt::Result {
        f.write_str(self.words())?;
        f.write_str(self.name())
    }
}

impl Error for Refusal {}

impl From<AllocError> for Refusal {
    ghost use Rattle.std.specs.Prelude.{◌≡◌};
    ghost use Rattle.meson_calls.specs.declared.refusal.Refusal.TheVariants.{OutOfMemory};

    ghost from_gives = { λ _ e. e ≡ OutOfMemory };

    fn from(_: AllocError) -> Refusal {
        Refusal::OutOfMemory
    }
}
