//! The parts of a command on keyword arguments or default options: changes of one call, each made after the one before it.

ghost use Rattle.std.specs.Prelude.{◌≡◌, ◌++◌, ◌∷◌, [], IfOk, MatchOption, None, Ok, OnOk, Some};
ghost use Rattle.std.specs.Str.{IsUtf8};
ghost use Rattle.meson_calls.specs.Refusals.{RefusedAs};
ghost use Rattle.meson_splice.specs.Patch.{then_ok};
ghost use Rattle.meson_keywords.specs.ValueKinds as keys;
ghost use Rattle.meson_keywords.specs.Tasks.{add_entry, before_equals, checked_option, delete_entry, delete_option_entry, each_made, remove_entry, set_entry, set_option_entry};
ghost use Rattle.meson_keywords.specs.Tasking.{IsKey, asked, asked_tasks};
ghost use Rattle.meson_keywords.specs.inside.Tasking.{AreTasks, AreTasksBehind};

use crate::request::AskedWords;
use crate::value_kinds::{ElementKind, kind_of, list_kind};
use crate::writing::{list_values, written_value};
use meson_calls::{Refusal, Role};
use meson_splice::{Bytes, Text};
use meson_steps::command::Setting;
use std::alloc::{AllocError, Global};

/// One change of a call.
#[derive(Drop)]
pub(crate) enum Task<'c> {
    /// The keyword argument gets this written value.
    Set(&'c Text, Bytes),
    /// It is removed.
    Delete(&'c Text),
    /// Each of these values is made one of its elements.
    Add(&'c Text, ElementKind, Vec<&'c Text>),
    /// This value is removed from its elements.
    Remove(&'c Text, ElementKind, &'c Text),
    /// No change: it may be there once only.
    Once(&'c Text),
    /// A default option gets this value.
    SetOption(&'c Text, &'c str),
    /// It is removed.
    DeleteOption(&'c Text),
}

fn push_task<'c>(tasks: &mut Vec<Task<'c>>, task: Task<'c>) -> Result<(), AllocError>
    ensures { OnOk result (tasks.new.items ≡ tasks.old.items ++ task.entry ∷ []) }
{
    tasks.push(task)?;
    Ok(())
}

/// The tasks that set keyword arguments.
///
/// # Errors
/// A keyword argument is not changed in such a call, or can't have such a value, or out of memory.
fn set_tasks<'c>(
    alloc: Global,
    role: Role,
    pairs: &'c [(Text, Setting)],
) -> Result<Vec<Task<'c>>, Refusal>
    ensures made { IfOk result (λ tasks. AreTasks (each_made (set_entry role) pairs.entry.now) tasks.items) }
    ensures refused { RefusedAs result (each_made (set_entry role) pairs.entry.now) }
{
    let mut tasks = Vec::new(alloc);
    for i in 0..pairs.len() {
        let (key, setting) = &pairs[i];
        let kind = kind_of(role, key)?;
        let new = written_value(alloc, kind, key, setting)?;
        push_task(&mut tasks, Task::Set(key, new))?;
    }
    Ok(tasks)
}

/// The tasks that delete keyword arguments.
///
/// # Errors
/// A keyword argument is not changed in such a call, or out of memory.
fn delete_tasks<'c>(alloc: Global, role: Role, keys: &'c [Text]) -> Result<Vec<Task<'c>>, Refusal>
    ensures made { IfOk result (λ tasks. AreTasks (each_made (delete_entry role) keys.entry.now) tasks.items) }
    ensures refused { RefusedAs result (each_made (delete_entry role) keys.entry.now) }
{
    let mut tasks = Vec::new(alloc);
    for i in 0..keys.len() {
        let key = &keys[i];
        kind_of(role, key)?;
        push_task(&mut tasks, Task::Delete(key))?;
    }
    Ok(tasks)
}

/// What the elements of a keyword argument are.
///
/// # Errors
/// It is not changed in such a call, or is not a list, or out of memory.
fn element_kind(role: Role, key: &Text) -> Result<ElementKind, Refusal>
    ensures found { IfOk result (λ e. then_ok (keys.key_kind role key.now) (keys.list_kind key.now) ≡ Ok e) }
    ensures key { IfOk result (λ e. IsKey key.now) }
    ensures refused { RefusedAs result (then_ok (keys.key_kind role key.now) (keys.list_kind key.now)) }
{
    let kind = kind_of(role, key)?;
    list_kind(key, kind)
}

/// The tasks that add values to keyword arguments.
///
/// # Errors
/// A keyword argument is not changed in such a call, or is not a list of such values, or out of memory.
fn add_tasks<'c>(
    alloc: Global,
    role: Role,
    pairs: &'c [(Text, Setting)],
) -> Result<Vec<Task<'c>>, Refusal>
    ensures made { IfOk result (λ tasks. AreTasks (each_made (add_entry role) pairs.entry.now) tasks.items) }
    ensures refused { RefusedAs result (each_made (add_entry role) pairs.entry.now) }
{
    let mut tasks = Vec::new(alloc);
    for i in 0..pairs.len() {
        let (key, setting) = &pairs[i];
        let kind = element_kind(role, key)?;
        let values = list_values(alloc, kind, key, setting)?;
        push_task(&mut tasks, Task::Add(key, kind, values))?;
    }
    Ok(tasks)
}

/// Adds the tasks that remove the values of an entry.
///
/// # Errors
/// The keyword argument is not changed in such a call, or is not a list of such values, or out of memory.
fn remove_one<'c>(
    alloc: Global,
    role: Role,
    pair: &'c (Text, Setting),
    tasks: &mut Vec<Task<'c>>,
) -> Result<(), Refusal>
    ensures made { OnOk result (AreTasksBehind (remove_entry role pair.entry.now) tasks.old.items tasks.new.items) }
    ensures refused { RefusedAs result (remove_entry role pair.entry.now) }
{
    let (key, setting) = pair;
    let kind = element_kind(role, key)?;
    let values = list_values(alloc, kind, key, setting)?;
    push_task(tasks, Task::Once(key))?;
    for i in 0..values.len() {
        push_task(tasks, Task::Remove(key, kind, values[i]))?;
    }
    Ok(())
}

/// The tasks that remove values from keyword arguments.
///
/// # Errors
/// A keyword argument is not changed in such a call, or is not a list of such values, or out of memory.
fn remove_tasks<'c>(
    alloc: Global,
    role: Role,
    pairs: &'c [(Text, Setting)],
) -> Result<Vec<Task<'c>>, Refusal>
    ensures made { IfOk result (λ tasks. AreTasks (each_made (remove_entry role) pairs.entry.now) tasks.items) }
    ensures refused { RefusedAs result (each_made (remove_entry role) pairs.entry.now) }
{
    let mut tasks = Vec::new(alloc);
    for i in 0..pairs.len() {
        remove_one(alloc, role, &pairs[i], &mut tasks)?;
    }
    Ok(tasks)
}

/// The part before the first `=`.
pub(crate) fn before_equals(text: &[u8]) -> Option<&[u8]>
    ensures { MatchOption result (before_equals text.now ≡ None)
        (λ front. before_equals text.now ≡ Some front.now) }
{
    for i in 0..text.len() {
        if text[i] == b'=' {
            return Some(&text[..i]);
        }
    }
    None
}

/// Refuses what cannot be the name of an option.
///
/// # Errors
/// It is empty or holds `=`.
fn checked_option(name: &Text) -> Result<(), Refusal>
    ensures checked { result ≡ checked_option name.now }
    ensures utf8 { IsUtf8 name.now }
{
    let name = name.get().as_bytes();
    if name.is_empty() || before_equals(name).is_some() {
        return Err(Refusal::BadName);
    }
    Ok(())
}

/// The tasks that set default options.
///
/// # Errors
/// A name cannot be that of an option, or out of memory.
fn set_option_tasks<'c>(alloc: Global, pairs: &'c [(Text, Text)]) -> Result<Vec<Task<'c>>, Refusal>
    ensures made { IfOk result (λ tasks. AreTasks (each_made set_option_entry pairs.entry.now) tasks.items) }
    ensures refused { RefusedAs result (each_made set_option_entry pairs.entry.now) }
{
    let mut tasks = Vec::new(alloc);
    for i in 0..pairs.len() {
        let (name, value) = &pairs[i];
        checked_option(name)?;
        push_task(&mut tasks, Task::SetOption(name, value.get()))?;
    }
    Ok(tasks)
}

/// The tasks that delete default options.
///
/// # Errors
/// A name cannot be that of an option, or out of memory.
fn delete_option_tasks<'c>(alloc: Global, names: &'c [Text]) -> Result<Vec<Task<'c>>, Refusal>
    ensures made { IfOk result (λ tasks. AreTasks (each_made delete_option_entry names.entry.now) tasks.items) }
    ensures refused { RefusedAs result (each_made delete_option_entry names.entry.now) }
{
    let mut tasks = Vec::new(alloc);
    for i in 0..names.len() {
        let name = &names[i];
        checked_option(name)?;
        push_task(&mut tasks, Task::DeleteOption(name))?;
    }
    Ok(tasks)
}

/// The tasks of a command's words.
///
/// # Errors
/// The words do not fit such a command, or out of memory.
pub(crate) fn tasks_of<'c>(
    alloc: Global,
    role: Role,
    words: AskedWords<'c>,
) -> Result<Vec<Task<'c>>, Refusal>
    ensures made { IfOk result (λ tasks. AreTasks (asked_tasks role (asked words.entry)) tasks.items) }
    ensures refused { RefusedAs result (asked_tasks role (asked words.entry)) }
{
    match words {
        AskedWords::Set(pairs) => set_tasks(alloc, role, pairs),
        AskedWords::Delete(keys) => delete_tasks(alloc, role, keys),
        AskedWords::Add(pairs) => add_tasks(alloc, role, pairs),
        AskedWords::Remove(pairs) => remove_tasks(alloc, role, pairs),
        AskedWords::SetOptions(pairs) => set_option_tasks(alloc, pairs),
        AskedWords::DeleteOptions(names) => delete_option_tasks(alloc, names),
    }
}
