//! The order of a command: steps that are all known at once, or changes of one call, each made after the one before it.

ghost use Rattle.std.specs.Prelude.{◌≡◌, codes, false};
ghost use Rattle.meson_lex.specs.declared.kinds.Span as lex;
ghost use Rattle.meson_calls.specs.Loading.{Loaded, project};
ghost use Rattle.meson_calls.specs.Project.{Project};
ghost use Rattle.meson_calls.specs.Searching.{anywhere};
ghost use Rattle.meson_followed.specs.Changes.{target_changed};
ghost use Rattle.meson_keywords.specs.Changing.{request_steps};
ghost use Rattle.meson_keywords.specs.Tasking.{asked, request_view};
ghost use Rattle.meson_plan.specs.Listing.{asks};
ghost use Rattle.meson_plan.specs.inside.Orders.{IsOrder, plan_steps, sought};
ghost use Rattle.meson_sources.specs.Targeted.{renamed_steps, sorted_steps, target_steps};

use meson_calls::{BorrowedName, CallName, Role};
use meson_code::Insertion;
use meson_code::removing::CodeRemoval;
use meson_keywords::request::{AskedWords, Request};
use meson_sources::renaming::Renaming;
use meson_sources::targeting::TargetChange;
use meson_sources::targeting::TargetChange::{
    ExtraAdded, ExtraRemoved, SourcesAdded, SourcesRemoved,
};
use meson_splice::{Many, Text};
use meson_steps::argument::{ValueChange, ValueName};
use meson_steps::command::Command;
use meson_steps::source_change::{SharedLists, SourceChange};
use meson_targets::target_adding::NewTarget;

/// What is done by steps that are all known at once.
#[derive(Clone, Copy)]
pub(crate) enum Plan<'c> {
    /// Names are added to a target or removed from it.
    OnTarget(BorrowedName<'c>, TargetChange, &'c Many<Text>),
    /// Sources are added to a target, each in its place where the list that gets them is in order.
    SortSources(BorrowedName<'c>, &'c Many<Text>),
    /// Sources of a target get another name.
    RenameSources(BorrowedName<'c>, Renaming<'c>),
    /// The sources of a target are changed where variables are followed.
    FollowSources(BorrowedName<'c>, &'c SourceChange, SharedLists),
    /// A target is added at the end of its file.
    AddTarget(NewTarget<'c>),
    /// A target is removed, with its statement.
    RemoveTarget(BorrowedName<'c>),
}

impl<'c> Plan<'c> {
    /// The call that is searched for: its role, and what names it.
    pub(crate) fn sought(self) -> (Role, &'c str)
        ensures { (result.0 ≡ (sought self.entry).0) × (result.1.now ≡ (sought self.entry).1) }
    {
        match self {
            Plan::OnTarget(target, _, _) => (Role::Target, target.id),
            Plan::SortSources(target, _) => (Role::Target, target.id),
            Plan::RenameSources(target, _) => (Role::Target, target.id),
            Plan::FollowSources(target, _, _) => (Role::Target, target.id),
            Plan::AddTarget(new) => (Role::Target, new.name.get()),
            Plan::RemoveTarget(target) => (Role::Target, target.id),
        }
    }
}

/// The order of a command.
#[derive(Clone, Copy)]
pub(crate) enum Order<'c> {
    Planned(Plan<'c>),
    Changed(Request<'c>),
    /// A value is changed.
    OnValue(&'c ValueName, &'c ValueChange),
    /// Code is inserted.
    InsertCode(Insertion<'c>),
    /// A statement is removed.
    RemoveCode(CodeRemoval<'c>),
}

/// A change of a target.
fn on_target<'c>(target: &'c CallName, change: TargetChange, names: &'c Many<Text>) -> Plan<'c>
    ensures { (l : Loaded) → plan_steps l result ≡ target_steps (project l) target.entry.now change names.entry.now }
{
    Plan::OnTarget(target.as_name(), change, names)
}

/// An addition of sources in order.
fn in_order<'c>(target: &'c CallName, names: &'c Many<Text>) -> Plan<'c>
    ensures { (l : Loaded) → plan_steps l result ≡ sorted_steps l.files (project l) target.entry.now names.entry.now }
{
    Plan::SortSources(target.as_name(), names)
}

/// A renaming of sources.
fn on_sources<'c>(target: &'c CallName, old: &'c Text, new: &'c Text) -> Plan<'c>
    ensures { (l : Loaded) → plan_steps l result ≡ renamed_steps (project l) target.entry.now old.entry.now new.entry.now }
{
    Plan::RenameSources(target.as_name(), Renaming { old, new })
}

/// A change of sources where variables are followed.
fn follow_sources<'c>(
    target: &'c CallName,
    change: &'c SourceChange,
    shared: SharedLists,
) -> Plan<'c>
    ensures { (l : Loaded) → plan_steps l result ≡ target_changed (project l) target.entry.now change.entry.now shared }
{
    Plan::FollowSources(target.as_name(), change, shared)
}

/// A change of a call.
fn on_call<'c>(role: Role, name: &'c CallName, words: AskedWords<'c>) -> Request<'c>
    ensures { (p : Project lex.Span) → request_steps p (request_view result) ≡ request_steps p (role, name.entry.now, asked words.entry) }
{
    Request {
        role,
        name: name.as_name(),
        words,
    }
}

/// A change of the call of `project`.
fn on_project(words: AskedWords<'_>) -> Request<'_>
    ensures { (p : Project lex.Span) → request_steps p (request_view result) ≡ request_steps p (Role.Project, anywhere (codes "/"), asked words.entry) }
{
    Request {
        role: Role::Project,
        name: BorrowedName {
            id: "/",
            folder: None,
        },
        words,
    }
}

/// The order of a command that changes something. What the order means is what the command means.
pub(crate) fn order_of(command: &Command) -> Order<'_>
    requires { asks command.now ≡ false }
    ensures { IsOrder command.now result }
{
    match command {
        Command::SourcesAdd { target, sources } => {
            Order::Planned(on_target(target, SourcesAdded, sources))
        }
        Command::SourcesAddSorted { target, sources } => Order::Planned(in_order(target, sources)),
        Command::SourcesRemove { target, sources } => {
            Order::Planned(on_target(target, SourcesRemoved, sources))
        }
        Command::SourcesRename { target, old, new } => {
            Order::Planned(on_sources(target, old, new))
        }
        Command::FollowedSources {
            target,
            change,
            shared,
        } => Order::Planned(follow_sources(target, change, *shared)),
        Command::ExtraAdd { target, sources } => {
            Order::Planned(on_target(target, ExtraAdded, sources))
        }
        Command::ExtraRemove { target, sources } => {
            Order::Planned(on_target(target, ExtraRemoved, sources))
        }
        Command::TargetAdd {
            target,
            target_kind,
            subdir,
            sources,
        } => Order::Planned(Plan::AddTarget(NewTarget {
            name: target,
            kind: target_kind,
            folder: subdir,
            sources: sources.get(),
        })),
        Command::TargetRemove { target } => Order::Planned(Plan::RemoveTarget(target.as_name())),
        Command::TargetInfo { .. } => unreachable!(),
        Command::KwargsInfo { .. } => unreachable!(),
        Command::ArgumentInfo { .. } => unreachable!(),
        Command::KwargsSet { role, name, pairs } => {
            Order::Changed(on_call(*role, name, AskedWords::Set(pairs.get())))
        }
        Command::KwargsAdd { role, name, pairs } => {
            Order::Changed(on_call(*role, name, AskedWords::Add(pairs.get())))
        }
        Command::KwargsRemove { role, name, pairs } => {
            Order::Changed(on_call(*role, name, AskedWords::Remove(pairs.get())))
        }
        Command::KwargsDelete { role, name, keys } => {
            Order::Changed(on_call(*role, name, AskedWords::Delete(keys.get())))
        }
        Command::OptionsSet { pairs } => {
            Order::Changed(on_project(AskedWords::SetOptions(pairs.get())))
        }
        Command::OptionsDelete { names } => {
            Order::Changed(on_project(AskedWords::DeleteOptions(names.get())))
        }
        Command::Argument { name, change } => Order::OnValue(name, change),
        Command::CodeInsert { place, code, blank } => Order::InsertCode(Insertion {
            place,
            code,
            blank: *blank,
        }),
        Command::CodeRemove { statement, unused } => Order::RemoveCode(CodeRemoval {
            statement,
            unused: *unused,
        }),
    }
}
