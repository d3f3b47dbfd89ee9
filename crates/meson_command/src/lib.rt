//! The command line: which words the program takes, and what they request.
#![tactic(auto)]

mod answers;
mod argument;
mod argument_faults;
mod asked;
mod choices;
mod clap_faults;
mod code;
mod code_faults;
mod code_help;
mod fault;
mod follow;
mod help;
mod history;
mod input;
mod keys;
mod kwargs;
pub mod laws;
mod misuse;
mod operations;
mod options;
mod pairs;
mod program;
mod script;
mod shell;
mod spelling;
mod subcommands;
mod target;
mod word_faults;
mod words;

pub use answers::wants_json;
pub use asked::{Action, Asked, Flags, command_of};
pub use fault::UsageFault;
pub use input::{reads_code, text_of, with_last};
pub use misuse::explain_words;
