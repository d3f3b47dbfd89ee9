//! Words in pairs, each a name with its value, and words that are names alone.

ghost use Rattle.std.specs.Prelude.{◌≡◌, ◌≢◌, Err, IfErr, IfOk, Ok, bytes_eq, map, option_map};
ghost use Rattle.std.specs.List.{list_any};
ghost use Rattle.clap.specs.Words.{found_of, rows_of};
ghost use Rattle.meson_command.specs.Actions.{words_at};
ghost use Rattle.meson_command.specs.Pairs.{in_pairs, lone_names, pair_names, pairs_of, repeats};
ghost use Rattle.meson_command.specs.declared.fault.UsageFault.TheVariants.{OutOfMemory};

use crate::fault::UsageFault;
use crate::words::words_at;
use clap::ArgMatches;
use meson_json::owned;
use meson_splice::{Many, Text};
use std::alloc::{AllocError, Global};

/// The words two by two, or none if the last one is left over.
fn in_pairs(alloc: Global, words: &[&str]) -> Result<Option<Vec<(Text, Text)>>, AllocError>
    ensures { IfOk result (λ o. option_map (λ v. v.items) o ≡ in_pairs (map (λ w. w.now) words.now)) }
{
    let mut pairs = Vec::new(alloc);
    for pair in words.chunks(2) {
        let [name, value] = pair else {
            return Ok(None);
        };
        pairs.push((owned(alloc, name)?, owned(alloc, value)?))?;
    }
    Ok(Some(pairs))
}

/// Whether a name is one of these.
fn is_among(name: &Text, pairs: &[(Text, Text)]) -> bool
    ensures { result ≡ list_any (λ x. bytes_eq x name.now) (pair_names pairs.now) }
{
    for i in 0..pairs.len() {
        if pairs[i].0 == *name {
            return true;
        }
    }
    false
}

/// Whether two names are the same.
fn repeats(pairs: &[(Text, Text)]) -> bool
    ensures { result ≡ repeats (pair_names pairs.now) }
{
    for i in 0..pairs.len() {
        if is_among(&pairs[i].0, &pairs[i + 1..]) {
            return true;
        }
    }
    false
}

#[tactic(auto, unfolding(crate::specs::Pairs::pairs_of))]
/// The pairs of these words.
///
/// # Errors
/// The last word is left over; two names are the same.
fn pairs_of(alloc: Global, words: &[&str]) -> Result<Vec<(Text, Text)>, UsageFault>
    ensures ok { IfOk result (λ v. pairs_of (map (λ w. w.now) words.now) ≡ Ok v.items) }
    ensures refused { IfErr result (λ e. e ≢ OutOfMemory → pairs_of (map (λ w. w.now) words.now) ≡ Err e) }
{
    let Some(pairs) = in_pairs(alloc, words)? else {
        return Err(UsageFault::OddWords);
    };
    if repeats(pairs.as_slice()) {
        return Err(UsageFault::RepeatedKey);
    }
    Ok(pairs)
}

/// The pairs of the words of a list.
///
/// # Errors
/// The last word is left over; two names are the same.
pub(crate) fn pairs_at(
    alloc: Global,
    matches: &ArgMatches<'_>,
    name: &str,
) -> Result<Vec<(Text, Text)>, UsageFault>
    ensures ok { IfOk result (λ v. pairs_of (words_at name.now (rows_of (found_of matches.now))) ≡ Ok v.items) }
    ensures refused { IfErr result (λ e. e ≢ OutOfMemory → pairs_of (words_at name.now (rows_of (found_of matches.now))) ≡ Err e) }
{
    match matches.get_strs(name) {
        Some(words) => pairs_of(alloc, words),
        None => Ok(Vec::new(alloc)),
    }
}

/// The names of pairs.
pub(crate) fn names(alloc: Global, pairs: Vec<(Text, Text)>) -> Result<Many<Text>, AllocError>
    ensures { IfOk result (λ ts. ts ≡ pair_names pairs.items) }
{
    let mut all = Vec::new(alloc);
    for (name, _) in pairs {
        all.push(name)?;
    }
    Ok(Many::of(all))
}

/// Whether two words are the same.
fn repeats_word(words: &[Text]) -> bool
    ensures { result ≡ repeats words.now }
{
    for i in 0..words.len() {
        if words[i + 1..].contains(&words[i]) {
            return true;
        }
    }
    false
}

/// The words of a list, each of which is a name.
///
/// # Errors
/// Two names are the same.
#[tactic(auto, unfolding(crate::specs::Pairs::lone_names))]
pub(crate) fn names_at(
    alloc: Global,
    matches: &ArgMatches<'_>,
    name: &str,
) -> Result<Many<Text>, UsageFault>
    ensures ok { IfOk result (λ ts. lone_names (words_at name.now (rows_of (found_of matches.now))) ≡ Ok ts) }
    ensures refused { IfErr result (λ e. e ≢ OutOfMemory → lone_names (words_at name.now (rows_of (found_of matches.now))) ≡ Err e) }
{
    let names = words_at(alloc, matches, name)?;
    if repeats_word(names.get()) {
        return Err(UsageFault::RepeatedKey);
    }
    Ok(names)
}
