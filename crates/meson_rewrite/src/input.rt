//! Code of the words that is on standard input, which a store has by the name `-`.

ghost use Rattle.std.specs.Prelude.{◌≡◌, ◌≤◌, ◌⊎◌, Err, IfErr, IfOk, Option, codes, false, map, option_map, string_bytes, String};
ghost use Rattle.std.specs.Global.{Global};
ghost use Rattle.meson_command.specs.Input.{reads_code};
ghost use Rattle.meson_rewrite.specs.InputCode.{IsCodeOf, given_words};
ghost use Rattle.meson_rewrite.specs.Requests.{IsNoFile};
ghost use Rattle.meson_rewrite.specs.Runs.{Tells};
ghost use Rattle.meson_rewrite.specs.Stops.{WantsMemory};

use crate::endings::{Ending, ended};
use crate::request::read_named;
use crate::stop::Stop;
use meson_command::{reads_code, text_of, wants_json, with_last};
use meson_json::owned;
use meson_store::{Output, Store};
use std::alloc::Global;

/// The name of standard input.
const INPUT: &str = "-";

/// The code on standard input, if the words insert that and it is UTF-8.
fn code_of<S: Store>(alloc: Global, store: &mut S, words: &[String]) -> Result<Option<String>, Stop>
    ensures code { IfOk result (λ code. IsCodeOf (reads_code (map string_bytes words.now)) (S.content store.old) (option_map string_bytes code)) }
    ensures none { IfErr result (λ why. WantsMemory why ⊎ IsNoFile (S.content store.old) (S.failures store.old) (S.failures store.new) (codes "-") why) }
    ensures kept { S.content store.new ≡ S.content store.old }
    ensures counts { S.failures store.old ≤ S.failures store.new }
    ensures no_replace { S.replaces store.new ≡ S.replaces store.old }
{
    if !reads_code(alloc, words)? {
        return Ok(None);
    }
    let name = owned(alloc, INPUT)?;
    let file = read_named(alloc, store, name)?;
    Ok(text_of(alloc, file.bytes.get())?)
}

/// A run that ended before its request was known, since standard input was not read.
#[derive(Drop)]
pub struct Unread {
    ending: Ending,
}

impl Unread {
    /// The one of these words, stopped by this.
    fn of(alloc: Global, words: &[String], stop: Stop) -> Unread
        ensures { result.ending.end ≡ Err stop }
    {
        Unread {
            ending: Ending {
                end: Err(stop),
                json: wants_json(alloc, words).unwrap_or(false),
                exit_code: false,
            },
        }
    }

    /// Writes why it ended, as `rewrite` does. Returns its status, or 3 if a writer failed.
    pub fn tell<O: Output, E: Output>(&self, alloc: Global, out: &mut O, err: &mut E) -> u8
        ensures { Tells self.now.ending.exit_code self.now.ending.json result (O.heard out.old) (O.heard out.new) (E.heard err.old) (E.heard err.new)
            self.now.ending.end }
    {
        ended(alloc, out, err, &self.ending)
    }
}

/// The words of a command line, of which the first is the program's name, with the code of standard input in place of a `-` that stands for it. What the store
/// has by the name `-` is read only where the words insert that code, and are refused without it. If it is not UTF-8 the words stay as they are, and so they are
/// refused.
///
/// # Errors
/// Standard input is not read, or memory ran out.
pub fn words_with_code<S: Store>(
    alloc: Global,
    store: &mut S,
    words: Vec<String>,
) -> Result<Vec<String>, Unread>
    ensures given { let is_read = reads_code (map string_bytes words.items) in
        IfOk result (λ given. (code : Option (String Global)) × IsCodeOf is_read (S.content store.old) (option_map string_bytes code)
        × (given.items ≡ given_words words.items code)) }
    ensures kept { S.content store.new ≡ S.content store.old }
    ensures counts { S.failures store.old ≤ S.failures store.new }
    ensures no_replace { S.replaces store.new ≡ S.replaces store.old }
{
    let code = match code_of(alloc, store, words.as_slice()) {
        Ok(code) => code,
        Err(stop) => return Err(Unread::of(alloc, words.as_slice(), stop)),
    };
    let Some(code) = code else {
        return Ok(words);
    };
    match with_last(words, code) {
        Ok(given) => Ok(given),
        Err(refused) => Err(Unread::of(alloc, &[], Stop::from(refused))),
    }
}
