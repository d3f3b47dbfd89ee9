//! The codes of the reasons for which a run is stopped.

ghost use Rattle.std.specs.Prelude.{◌≡◌};
ghost use Rattle.meson_rewrite.specs.Codes.{lex_code, file_fault_code, refusal_code, script_code, splice_code, stop_code, store_code, usage_code};

use crate::stop::Stop;
use meson_command::UsageFault;
use meson_json::ScriptFault;
use meson_lex::LexFault;
use meson_plan::Refusal;
use meson_splice::SpliceFault;
use meson_store::StoreFault;
use meson_syntax::ParseFault;

/// The code of an allocation that failed.
const MEMORY: &str = "memory";

fn usage_code(fault: &UsageFault) -> &'static str
    ensures { result.now ≡ usage_code fault.now }
{
    match fault {
        UsageFault::Usage => "U1",
        UsageFault::OddWords => "U2",
        UsageFault::RepeatedKey => "U3",
        UsageFault::Unsupported => "U4",
        UsageFault::BadTitle => "U6",
        UsageFault::NotCode => "U7",
        UsageFault::OutOfMemory => MEMORY,
    }
}

fn script_code(fault: &ScriptFault) -> &'static str
    ensures { result.now ≡ script_code fault.now }
{
    match fault {
        ScriptFault::NotJson => "J1",
        ScriptFault::NotArray => "J2",
        ScriptFault::TooMany => "J3",
        ScriptFault::NotObject(_) => "J4",
        ScriptFault::UnknownType(_) => "J5",
        ScriptFault::BadField(..) => "J6",
        ScriptFault::UnknownOperation(_) => "J7",
        ScriptFault::Unsupported(_) => "J8",
        ScriptFault::UnknownMember(..) => "J12",
        ScriptFault::BadLog => "J9",
        ScriptFault::OutOfMemory => MEMORY,
    }
}

fn lex_code(fault: LexFault) -> &'static str
    ensures { result.now ≡ lex_code fault }
{
    match fault {
        LexFault::StrayByte(_) => "L1",
        LexFault::OpenString(_) => "L2",
        LexFault::BadNumber(_) => "L3",
        LexFault::BareCarriageReturn(_) => "L4",
    }
}

fn file_fault_code(fault: ParseFault) -> &'static str
    ensures { result.now ≡ file_fault_code fault }
{
    match fault {
        ParseFault::TooLarge => "S1",
        ParseFault::NotUtf8 => "S2",
        ParseFault::ByteOrderMark => "S3",
        ParseFault::Lex(fault) => lex_code(fault),
        ParseFault::Unexpected(_) => "S5",
        ParseFault::TooDeep(_) => "S6",
        ParseFault::OutOfMemory => MEMORY,
    }
}

fn refusal_code(refusal: &Refusal) -> &'static str
    ensures { result.now ≡ refusal_code refusal.now }
{
    match refusal {
        Refusal::NoProject => "C1",
        Refusal::NotFound => "C2",
        Refusal::Ambiguous => "C3",
        Refusal::UnknownKey(_) => "C4",
        Refusal::WrongKind(_) => "C5",
        Refusal::BadName => "C6",
        Refusal::HiddenKeywords => "C7",
        Refusal::DuplicateKeyword(_) => "C8",
        Refusal::NotLiteral(_) => "C9",
        Refusal::Shared(_) => "C20",
        Refusal::OtherKind(_) => "C21",
        Refusal::ThereAlready => "C22",
        Refusal::NoSuchValue(_) => "C23",
        Refusal::SourceNotFound => "C10",
        Refusal::Unresolved => "C11",
        Refusal::NotRemovable => "C12",
        Refusal::NameTaken => "C13",
        Refusal::NoFile => "C14",
        Refusal::NotStatement => "C15",
        Refusal::InUse(_) => "C16",
        Refusal::TooDeep => "C17",
        Refusal::TooLarge => "C18",
        Refusal::OutOfMemory => MEMORY,
    }
}

fn splice_code(fault: &SpliceFault) -> &'static str
    ensures { result.now ≡ splice_code fault.now }
{
    match fault {
        SpliceFault::NoFile(_) => "P1",
        SpliceFault::OutOfRange(..) => "P2",
        SpliceFault::Stale(..) => "P3",
        SpliceFault::NothingToUndo => "P4",
        SpliceFault::NothingToRedo => "P5",
        SpliceFault::OutOfMemory => MEMORY,
    }
}

fn store_code(fault: &StoreFault) -> &'static str
    ensures { result.now ≡ store_code fault.now }
{
    match fault {
        StoreFault::ReadFailed(_) => "W1",
        StoreFault::WriteFailed { .. } => "W2",
        StoreFault::NoFile(_) => "W3",
        StoreFault::OutputFailed => "W4",
        StoreFault::OutOfMemory => MEMORY,
    }
}

/// The code of the reason, or `memory` when out of memory.
pub(crate) fn code_of(stop: &Stop) -> &'static str
    ensures { result.now ≡ stop_code stop.now }
{
    match stop {
        Stop::Usage { fault, .. } => usage_code(fault),
        Stop::Script { fault, .. } => script_code(fault),
        Stop::Parse { fault, .. } => file_fault_code(*fault),
        Stop::TooManyFiles(_) => "M1",
        Stop::BadFileName(_) => "M2",
        Stop::Refused { fault, .. } => refusal_code(&fault.refusal),
        Stop::Splice(fault, ..) => splice_code(fault),
        Stop::OtherFiles { .. } => "P6",
        Stop::BadTexts(_) => "J11",
        Stop::Store { fault, .. } => store_code(fault),
    }
}
