//! The name that a refusal means where its command has several.

ghost use Rattle.std.specs.Prelude.{◌≡◌, ◌∷◌, [], IfOk, find, is_some, option_map};
ghost use Rattle.meson_keywords.specs.ValueKinds.{is_identifier};
ghost use Rattle.meson_explaining.specs.Names.{bad_name, bad_value, find_key, has_equals, is_bad_option, is_bad_pair, is_bad_variable, is_empty_name};
ghost use Rattle.meson_explaining.specs.Names.{meant_name, missing_name};
ghost use Rattle.meson_explaining.specs.Followed.{sought_names};
ghost use Rattle.meson_followed.specs.Changes.{names_of};

use crate::followed::{first_absent, place_of};
use crate::sources::{extras_at, first_missing, sources_at};
use meson_calls::Refusal;
use meson_calls::keys::is_identifier_list_key;
use meson_plan::{Project, Role};
use meson_splice::Text;
use meson_steps::command::{Command, Setting};
use meson_steps::source_change::SourceChange;
use std::alloc::{AllocError, Global};
use std::slice;

/// Whether a name is empty.
fn is_empty_name(name: &str) -> bool
    ensures { result ≡ is_empty_name name.now }
{
    match name.as_bytes() {
        [] => true,
        [_, ..] => false,
    }
}

/// The first empty name.
fn first_empty(names: &[Text]) -> Option<&str>
    ensures { option_map (λ name. name.now) result ≡ find is_empty_name names.now }
{
    for i in 0..names.len() {
        if is_empty_name(names[i].get()) {
            return Some(names[i].get());
        }
    }
    None
}

/// Whether a text has `=`.
fn has_equals(text: &str) -> bool
    ensures { result ≡ has_equals text.now }
{
    text.as_bytes().iter().any(|byte| *byte == b'=')
}

/// Whether a text cannot be the name of an option.
fn is_bad_option(name: &str) -> bool
    ensures { result ≡ is_bad_option name.now }
{
    is_empty_name(name) || has_equals(name)
}

/// The first text that cannot be the name of an option.
pub(crate) fn first_bad_option(names: &[Text]) -> Option<&str>
    ensures { option_map (λ name. name.now) result ≡ find is_bad_option names.now }
{
    for i in 0..names.len() {
        if is_bad_option(names[i].get()) {
            return Some(names[i].get());
        }
    }
    None
}

/// The first key that cannot be the name of an option.
pub(crate) fn first_bad_entry(pairs: &[(Text, Text)]) -> Option<&str>
    ensures { option_map (λ name. name.now) result ≡ find_key (λ p. is_bad_option p.0) pairs.now }
{
    for i in 0..pairs.len() {
        let (name, _) = &pairs[i];
        if is_bad_option(name.get()) {
            return Some(name.get());
        }
    }
    None
}

/// Whether a text cannot be the name of a variable.
pub(crate) fn is_bad_variable(text: &str) -> bool
    ensures { result ≡ is_bad_variable text.now }
{
    !meson_lex::is_identifier(text)
}

/// The first text that cannot be the name of a variable.
fn first_bad_variable(texts: &[Text]) -> Option<&str>
    ensures { option_map (λ name. name.now) result ≡ find is_bad_variable texts.now }
{
    for i in 0..texts.len() {
        if is_bad_variable(texts[i].get()) {
            return Some(texts[i].get());
        }
    }
    None
}

/// The first of the values that cannot be the name of a variable.
pub(crate) fn bad_value(setting: &Setting) -> Option<&str>
    ensures { option_map (λ name. name.now) result ≡ bad_value setting.now }
{
    match setting {
        Setting::Text(text) => {
            if is_bad_variable(text.get()) {
                Some(text.get())
            } else {
                None
            }
        }
        Setting::Bool(_) => None,
        Setting::Texts(texts) => first_bad_variable(texts.get()),
    }
}

/// Whether a key takes variables, and one of the values cannot be the name of one.
fn is_bad_pair(role: Role, pair: &(Text, Setting)) -> bool
    ensures { result ≡ is_bad_pair role pair.now }
{
    let (key, setting) = pair;
    is_identifier_list_key(role, key.get().as_bytes()) && bad_value(setting).is_some()
}

/// The first pair whose key takes variables and whose values are not all names of variables.
pub(crate) fn first_bad_pair(role: Role, pairs: &[(Text, Setting)]) -> Option<&(Text, Setting)>
    ensures { option_map (λ pair. pair.now) result ≡ find (is_bad_pair role) pairs.now }
{
    for i in 0..pairs.len() {
        if is_bad_pair(role, &pairs[i]) {
            return Some(&pairs[i]);
        }
    }
    None
}

/// The key of that pair.
fn first_bad_key(role: Role, pairs: &[(Text, Setting)]) -> Option<&str>
    ensures { option_map (λ key. key.now) result ≡ find_key (is_bad_pair role) pairs.now }
{
    match first_bad_pair(role, pairs) {
        Some((key, _)) => Some(key.get()),
        None => None,
    }
}

/// The first of two names that is empty.
fn first_empty_of_two<'n>(first: &'n Text, second: &'n Text) -> Option<&'n str>
    ensures { option_map (λ name. name.now) result ≡ find is_empty_name (first.entry.now ∷ second.entry.now ∷ []) }
{
    if is_empty_name(first.get()) {
        return Some(first.get());
    }
    first_empty(slice::from_ref(second))
}

/// The first empty name of a change of sources.
fn first_empty_of(change: &SourceChange) -> Option<&str>
    ensures { option_map (λ name. name.now) result ≡ find is_empty_name (names_of change.now) }
{
    match change {
        SourceChange::Add(names) | SourceChange::Remove(names) => first_empty(names.get()),
        SourceChange::Rename { old, new } => first_empty_of_two(old, new),
    }
}

/// The names of a change that have to mean sources of the target.
pub(crate) fn sought_names(change: &SourceChange) -> &[Text]
    ensures { result.now ≡ sought_names change.entry.now }
{
    match change {
        SourceChange::Add(_) => &[],
        SourceChange::Remove(names) => names.get(),
        SourceChange::Rename { old, .. } => slice::from_ref(old),
    }
}

/// The first name of a command that is not valid.
pub(crate) fn bad_name(command: &Command) -> Option<&str>
    ensures { option_map (λ name. name.now) result ≡ bad_name command.now }
{
    match command {
        Command::SourcesAdd { sources, .. }
        | Command::SourcesAddSorted { sources, .. }
        | Command::SourcesRemove { sources, .. }
        | Command::ExtraAdd { sources, .. }
        | Command::ExtraRemove { sources, .. } => first_empty(sources.get()),
        Command::FollowedSources { change, .. } => first_empty_of(change),
        Command::SourcesRename { old, new, .. } => first_empty_of_two(old, new),
        Command::TargetAdd {
            target,
            sources,
            ..
        } => {
            if is_empty_name(target.get()) {
                Some(target.get())
            } else {
                first_empty(sources.get())
            }
        }
        Command::KwargsSet { role, pairs, .. }
        | Command::KwargsAdd { role, pairs, .. }
        | Command::KwargsRemove { role, pairs, .. } => first_bad_key(*role, pairs.get()),
        Command::OptionsSet { pairs } => first_bad_entry(pairs.get()),
        Command::OptionsDelete { names } => first_bad_option(names.get()),
        _ => None,
    }
}

/// A copy of a text, if there is one.
fn copied(alloc: Global, name: Option<&str>) -> Result<Option<Text>, AllocError>
    ensures { IfOk result (λ copy. copy ≡ option_map (λ name. name.now) name.entry) }
{
    match name {
        Some(name) => Ok(Some(Text::of(String::from_str(alloc, name)?))),
        None => Ok(None),
    }
}

/// The first name of a command that its target does not have, as far as its sources or extra files are known.
fn missing_name(
    alloc: Global,
    project: &Project,
    command: &Command,
) -> Result<Option<Text>, AllocError>
    ensures { IfOk result (λ name. name ≡ missing_name project.now command.now) }
{
    match command {
        Command::SourcesRemove { target, sources } => {
            let items = sources_at(alloc, project, target.as_name())?;
            copied(alloc, first_missing(items.get(), sources.get()))
        }
        Command::SourcesRename { target, old, .. } => {
            let items = sources_at(alloc, project, target.as_name())?;
            copied(alloc, first_missing(items.get(), slice::from_ref(old)))
        }
        Command::FollowedSources { target, change, .. } => {
            let place = place_of(alloc, project, target.as_name())?;
            let names = sought_names(change);
            copied(alloc, first_absent(alloc, project, &place, names)?)
        }
        Command::ExtraRemove { target, sources } => {
            let items = extras_at(alloc, project, target.as_name())?;
            copied(alloc, first_missing(items.get(), sources.get()))
        }
        _ => Ok(None),
    }
}

/// The name that a refusal means: of the sources, keys or options of a command the first with which alone it would be refused for the same reason. Only a name
/// that is not valid, that the target does not have, or that is not among its known sources is searched for; of another reason it is None.
///
/// # Errors
/// Out of memory.
pub fn meant_name(
    alloc: Global,
    project: &Project,
    command: &Command,
    refusal: &Refusal,
) -> Result<Option<Text>, AllocError>
    ensures { IfOk result (λ name. name ≡ meant_name project.now command.now refusal.now) }
{
    match refusal {
        Refusal::BadName => copied(alloc, bad_name(command)),
        Refusal::SourceNotFound | Refusal::Unresolved => missing_name(alloc, project, command),
        _ => Ok(None),
    }
}
