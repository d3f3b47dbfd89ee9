//! Why a run of the program is stopped.

use crate::advice::Advice;
use crate::logged_runs::LoggedRun;
use meson_command::UsageFault;
use meson_gathering::GatherFault;
use meson_json::ScriptFault;
use meson_plan::LoadFault;
use meson_script::RunFault;
use meson_splice::{Bytes, SpliceFault, Text};
use meson_store::StoreFault;
use meson_syntax::ParseFault;
use std::alloc::AllocError;
use std::fmt;

/// Which text of a build file is not valid.
#[derive(Drop)]
pub(crate) enum FileText {
    /// Its bytes, as they were read.
    Read(Bytes),
    /// The one that it would have after this run of the log is taken back or done again.
    After(Option<LoggedRun>),
}

/// Why a run was stopped.
#[derive(Drop)]
pub(crate) enum Stop {
    /// The words are not a request that the program knows. The advice explains it.
    Usage {
        fault: UsageFault,
        advice: Advice,
    },
    /// The script or the log is not valid. The advice explains it of a script.
    Script {
        fault: ScriptFault,
        advice: Advice,
    },
    /// The file of this name is not a valid build file, or would not be one. The advice explains it.
    Parse {
        name: Text,
        text: FileText,
        fault: ParseFault,
        advice: Advice,
    },
    /// The project has more files than it may have. The advice explains it.
    TooManyFiles(Advice),
    /// The file of this number would not have the name of a build file.
    BadFileName(usize),
    /// A command of the script is refused; the subject is the name that is meant, if the command alone names it. The advice explains it.
    Refused {
        fault: RunFault,
        subject: Option<Text>,
        advice: Advice,
    },
    /// This run of the log, if there is one, is not taken back, or not done again. The advice explains it.
    Splice(SpliceFault, Option<LoggedRun>, Advice),
    /// The files of the project have other digests than the file of this name holds. The advice explains it.
    OtherFiles {
        name: Text,
        advice: Advice,
    },
    /// The file of texts lists no texts of build files. The advice explains it.
    BadTexts(Advice),
    /// The store failed, or memory ran out. The advice explains it.
    Store {
        fault: StoreFault,
        advice: Advice,
    },
}

impl Stop {
    ghost use Rattle.std.specs.Prelude.{◌≡◌, option_map};
    ghost use Rattle.meson_rewrite.specs.Stops.{advised, stop_advice};

    /// What explains it.
    pub(crate) fn advice(&self) -> Option<&Advice>
        ensures { option_map (λ advice. advice.now) result ≡ stop_advice self.now }
    {
        match self {
            Stop::Usage { advice, .. }
            | Stop::Script { advice, .. }
            | Stop::Parse { advice, .. }
            | Stop::TooManyFiles(advice)
            | Stop::Refused { advice, .. }
            | Stop::Splice(_, _, advice)
            | Stop::OtherFiles { advice, .. }
            | Stop::BadTexts(advice)
            | Stop::Store { advice, .. } => Some(advice),
            _ => None,
        }
    }

    /// The same, explained by this in place of what explained it. Only a fault of files, of texts, of the log or of the store is explained so.
    pub(crate) fn advised(self, advice: Advice) -> Stop
        ensures { result ≡ advised advice self }
    {
        match self {
            Stop::Parse {
                name,
                text,
                fault,
                ..
            } => Stop::Parse {
                name,
                text,
                fault,
                advice,
            },
            Stop::TooManyFiles(_) => Stop::TooManyFiles(advice),
            Stop::Splice(fault, run, _) => Stop::Splice(fault, run, advice),
            Stop::OtherFiles { name, .. } => Stop::OtherFiles { name, advice },
            Stop::BadTexts(_) => Stop::BadTexts(advice),
            Stop::Script {
                fault: ScriptFault::BadLog,
                ..
            } => Stop::Script {
                fault: ScriptFault::BadLog,
                advice,
            },
            Stop::Store { fault, .. } => Stop::Store { fault, advice },
            stop => stop,
        }
    }
}

impl fmt::Display for Stop {
    ghost use Rattle.std.specs.Prelude.{Some};
    ghost use Rattle.meson_rewrite.specs.Lines.{stop_text};

    ghost output = { λ stop. Some (stop_text stop) };

    fn fmt<W: fmt::Write>(&self, f: &mut fmt::Formatter<W>) -> fmt::Result {
        match self {
            Stop::Usage { fault, .. } => write!(f, "{fault}"),
            Stop::Script { fault, .. } => write!(f, "{fault}"),
            Stop::Parse { name, fault, .. } => match fault {
                ParseFault::OutOfMemory => write!(f, "{fault}"),
                _ => write!(f, "{name}: {fault}"),
            },
            Stop::TooManyFiles(_) => write!(f, "{}", LoadFault::TooManyFiles),
            Stop::BadFileName(index) => write!(f, "{}", LoadFault::BadFileName(*index)),
            Stop::Refused { fault, .. } => write!(f, "{fault}"),
            Stop::Splice(fault, ..) => write!(f, "{fault}"),
            Stop::OtherFiles { name, .. } => write!(f, "P6 files are not as {name} has them"),
            Stop::BadTexts(_) => f.write_str("J11 bad texts"),
            Stop::Store { fault, .. } => write!(f, "{fault}"),
        }
    }
}

impl From<AllocError> for Stop {
    ghost use Rattle.std.specs.Prelude.{◌≡◌};
    ghost use Rattle.meson_rewrite.specs.declared.advice.Advice.TheVariants.{Nothing};
    ghost use Rattle.meson_rewrite.specs.declared.stop.Stop.TheVariants.{Store};
    ghost use Rattle.meson_store.specs.declared.store_fault.StoreFault.TheVariants.{OutOfMemory};

    ghost from_gives = { λ _ stop. stop ≡ Store OutOfMemory Nothing };

    fn from(refused: AllocError) -> Stop {
        Stop::from(StoreFault::from(refused))
    }
}

impl From<StoreFault> for Stop {
    ghost use Rattle.std.specs.Prelude.{◌≡◌};
    ghost use Rattle.meson_rewrite.specs.declared.advice.Advice.TheVariants.{Nothing};
    ghost use Rattle.meson_rewrite.specs.declared.stop.Stop.TheVariants.{Store};

    ghost from_gives = { λ fault stop. stop ≡ Store fault Nothing };

    fn from(fault: StoreFault) -> Stop {
        Stop::Store {
            fault,
            advice: Advice::Nothing,
        }
    }
}

impl From<SpliceFault> for Stop {
    ghost use Rattle.std.specs.Prelude.{◌≡◌, None};
    ghost use Rattle.meson_rewrite.specs.declared.advice.Advice.TheVariants.{Nothing};
    ghost use Rattle.meson_rewrite.specs.declared.stop.Stop.TheVariants.{Splice};

    ghost from_gives = { λ fault stop. stop ≡ Splice fault None Nothing };

    fn from(fault: SpliceFault) -> Stop {
        Stop::Splice(fault, None, Advice::Nothing)
    }
}

impl From<GatherFault> for Stop {
    ghost use Rattle.std.specs.Prelude.{◌≡◌};
    ghost use Rattle.meson_rewrite.specs.Stops.{gathering_stop};

    ghost from_gives = { λ fault stop. stop ≡ gathering_stop fault };

    fn from(fault: GatherFault) -> Stop {
        match fault {
            GatherFault::Parse { name, bytes, fault } => Stop::Parse {
                name,
                text: FileText::Read(bytes),
                fault,
                advice: Advice::Nothing,
            },
            GatherFault::TooManyFiles => Stop::TooManyFiles(Advice::Nothing),
            GatherFault::Store(fault) => Stop::from(fault),
        }
    }
}
