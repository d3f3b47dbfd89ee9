//! A project: its files, and the tree of each.

ghost use Rattle.std.specs.Prelude.{◌≡◌, List, ℕ, Some, Ok, Err, false, IfErr, IfOk, IsTrue, OnErr};
ghost use Rattle.meson_calls.specs.Loading.{IsProject, Loaded, MayNotLoad, project};
ghost use Rattle.meson_calls.specs.NotedProjects.{IsNotedFor, loaded_in};
ghost use Rattle.meson_calls.specs.Notes.{note_views, taken_view};
ghost use Rattle.meson_calls.specs.Setters.{AreKept};
ghost use Rattle.meson_calls.specs.Spelling.{AreNotesWith, sought_words};
ghost use Rattle.meson_plan.specs.Listing.{asks};
ghost use Rattle.meson_plan.specs.Performing.{MayRefuse, Performs};
ghost use Rattle.meson_calls.specs.Roles.{targets, is_target};
ghost use Rattle.meson_calls.specs.Finding.{the_call};
ghost use Rattle.meson_calls.specs.Refusals.{IfRefused, RefusedAs};
ghost use Rattle.meson_calls.specs.Searching.{name_at};
ghost use Rattle.meson_variables.specs.TargetSources.{sources};
ghost use Rattle.meson_details.specs.Details.{head, is_call, keywords};
ghost use Rattle.meson_plan.specs.Details.{AreDetails, NoTarget, place_found, target_place};
ghost use Rattle.meson_plan.specs.Named.{places_named};
ghost use Rattle.meson_sources.specs.Extras.{extra_files};

use crate::details::{TargetDetails, details_at};
use crate::kept::{forget_changed, keep};
use crate::named::calls_named;
use crate::planning::performed;
use meson_calls::chosen_notes::with_role;
use meson_calls::finding::the_call;
use meson_calls::kept::Kept;
use meson_calls::loading::{copy_trees, loaded};
use meson_calls::looking::is_target;
use meson_calls::note::Note;
use meson_calls::noted::Noted;
use meson_calls::notes::{notes_for, notes_of};
use meson_calls::taken::Taken;
use meson_calls::{BorrowedName, CallRef, Refusal, Role, Unloaded};
use meson_details::called::call_at;
use meson_details::showing::{head_of, keywords_of};
use meson_details::{Head, Shown};
use meson_sources::extra_files::extra_files_of;
use meson_splice::{Change, FileSet, Many, Text, put_bytes_back};
use meson_steps::command::{Command, Done};
use meson_steps::journal::put_back;
use meson_steps::work::Work;
use meson_syntax::Parsed;
use meson_variables::Sources;
use meson_variables::target_sources::sources_at;
use meson_variables::variables::Variables;
use std::alloc::{AllocError, Global};
use std::marker::Model;
use std::{fmt, mem};

/// Files that are a project. Contracts see the files and the tree of each.
#[derive(Drop)]
pub struct Project {
    files: FileSet,
    trees: Vec<Parsed>,
    /// Of each file what sets variables in it, as far as a command has found that.
    kept: Vec<Kept>,
}

impl Model for Project {
    ghost use Rattle.std.specs.Coded.{codes};
    ghost use Rattle.meson_calls.specs.Loading.{Loaded, IsProject};
    ghost use Rattle.meson_calls.specs.Setters.{AreKept};
    ghost use Rattle.meson_syntax.specs.contracts.tree.Stmt as statement;

    ghost Value = { Loaded };

    ghost coded = { Prim.hlevel (codes, statement.the_row.coded) };

    ghost view = { λ p. record { files = p.files; parsed = p.trees.items } };

    ghost invariant = { λ p. IsProject (record { files = p.files; parsed = p.trees.items }) × AreKept p.kept.items p.files p.trees.items };
}

/// A project is shown as its files; its trees are those of the files.
impl fmt::Debug for Project {
    fn fmt<W: fmt::Write>(&self, f: &mut fmt::Formatter<W>) -> fmt::Result {
        f.debug_struct("Project")
            .field("files", &self.files)
            .finish_non_exhaustive()
    }
}

impl Project {
    /// The project of these files, or the files handed back. The files may enter one another by `subdir`; a file that is entered need not exist.
    pub fn load(alloc: Global, files: FileSet) -> Result<Project, Unloaded>
        ensures loaded { IfOk result (λ p. p.files ≡ files) }
        ensures project { IfOk result (λ p. IsProject p) }
        // A refusal is the first in order that holds.
        ensures refused { IfErr result (λ u. MayNotLoad files u.fault) }
        ensures handed_back { IfErr result (λ u. u.files ≡ files) }
    {
        match loaded(alloc, &files) {
            Ok(trees) => Ok(Project {
                files,
                trees,
                kept: Vec::new(alloc),
            }),
            Err(fault) => Err(Unloaded { files, fault }),
        }
    }

    /// The project of files, each with its tree. Does not allocate.
    pub fn of(alloc: Global, files: FileSet, trees: Vec<Parsed>) -> Project
        requires { IsProject (record { files = files; parsed = trees.items }) }
        ensures { result ≡ record { files = files; parsed = trees.items } }
    {
        Project {
            files,
            trees,
            kept: Vec::new(alloc),
        }
    }

    /// The files.
    pub fn files(&self) -> &FileSet
        ensures { result.now ≡ self.now.files }
    {
        &self.files
    }

    /// The tree of each file.
    pub fn trees(&self) -> &[Parsed]
        ensures { result.now ≡ self.now.parsed }
    {
        self.trees.as_slice()
    }

    /// Does nothing. That the files parse as the trees is true of every project; this tells it to callers.
    pub fn reads(&self)
        ensures { IsProject self.now }
    {
        let _ = &self.files;
    }

    /// An equal project.
    pub fn copy(&self, alloc: Global) -> Result<Project, Refusal>
        ensures copied { IfOk result (λ p. p ≡ self.now) }
        ensures refused { IfErr result (λ e. e ≡ Refusal.OutOfMemory) }
    {
        let files = self.files.clone()?;
        let trees = copy_trees(alloc, self.trees.as_slice())?;
        Ok(Project {
            files,
            trees,
            kept: Vec::new(alloc),
        })
    }

    /// The notes by which an id is found.
    fn notes_for(&self, alloc: Global, role: Role, id: &str) -> Result<Taken<'_>, AllocError>
        ensures { IfOk result (λ found. AreNotesWith (sought_words role id.now) 0 self.now.files self.now.parsed (taken_view found)) }
    {
        notes_for(alloc, role, id, &self.files, self.trees.as_slice())
    }

    /// The same project with notes of it.
    fn noted<'p>(&'p self, all: &'p [Note<'p, 'p>]) -> Noted<'p>
        ensures noted { (role : Role) (id : List ℕ)
            → AreNotesWith (sought_words role id) 0 self.entry.now.files self.entry.now.parsed (note_views all.entry.now) → IsNotedFor role id result }
        ensures same { loaded_in result ≡ self.entry.now }
    {
        Noted {
            files: &self.files,
            trees: self.trees.as_slice(),
            kept: self.kept.as_slice(),
            notes: all,
        }
    }

    /// The calls of all targets, in file order and source order.
    pub fn targets(&self, alloc: Global) -> Result<Vec<CallRef>, Refusal>
        ensures all { IfOk result (λ calls. calls.items ≡ targets (project self.now)) }
        ensures refused { IfErr result (λ e. e ≡ Refusal.OutOfMemory) }
    {
        let taken = notes_of(alloc, &self.files, self.trees.as_slice())?;
        let notes = taken.all(alloc)?;
        let calls = with_role(alloc, Role::Target, notes.as_slice())?;
        Ok(calls)
    }

    /// The calls that are named, in file order and source order.
    ///
    /// # Errors
    /// The folder has no build file, or out of memory.
    pub fn find(
        &self,
        alloc: Global,
        role: Role,
        name: BorrowedName<'_>,
    ) -> Result<Vec<CallRef>, Refusal>
        ensures all { IfOk result (λ calls. places_named (project self.now) role (name_at name.entry) ≡ Ok calls.items) }
        ensures refused { RefusedAs result (places_named (project self.now) role (name_at name.entry)) }
    {
        let taken = self.notes_for(alloc, role, name.id)?;
        let notes = taken.all(alloc)?;
        let noted = self.noted(notes.as_slice());
        calls_named(alloc, role, name, noted.files, noted.notes)
    }

    /// The one call that is named.
    ///
    /// # Errors
    /// The folder has no build file. Or there is no project, no such call or more than one, or out of memory.
    pub fn find_one(
        &self,
        alloc: Global,
        role: Role,
        name: BorrowedName<'_>,
    ) -> Result<CallRef, Refusal>
        ensures found { IfOk result (λ c. place_found (the_call (project self.now) role (name_at name.entry)) ≡ Ok c) }
        ensures refused { RefusedAs result (place_found (the_call (project self.now) role (name_at name.entry))) }
    {
        let taken = self.notes_for(alloc, role, name.id)?;
        let notes = taken.all(alloc)?;
        let noted = self.noted(notes.as_slice());
        the_call(alloc, role, name, noted.files, noted.notes)
    }

    /// Whether the place is that of a call of a target. Does not allocate.
    pub fn is_target(&self, call: &CallRef) -> bool
        ensures { result ≡ is_target (project self.now) call.now }
    {
        is_target(&self.files, self.trees.as_slice(), call)
    }

    /// The sources of a target.
    ///
    /// # Errors
    /// `sources:` is there twice, or out of memory.
    pub fn sources(&self, alloc: Global, call: &CallRef) -> Result<Sources, Refusal>
        requires { IsTrue (is_target (project self.now) call.now) }
        ensures found { IfOk result (λ s. sources (project self.now) call.now ≡ Some (Ok s)) }
        ensures refused { IfRefused result (λ e. sources (project self.now) call.now ≡ Some (Err e)) }
    {
        let variables = Variables::near(
            alloc,
            &self.files,
            self.trees.as_slice(),
            self.kept.as_slice(),
            call,
        )?;
        sources_at(&variables, call)
    }

    /// The extra files of a target. If none is in a list, and no empty list is met, a further one would be added to the call.
    ///
    /// # Errors
    /// `extra_files:` is there twice, or out of memory.
    pub fn extra_files(&self, alloc: Global, call: &CallRef) -> Result<Sources, Refusal>
        requires { IsTrue (is_target (project self.now) call.now) }
        ensures found { IfOk result (λ s. extra_files (project self.now) call.now ≡ Some (Ok s)) }
        ensures refused { IfRefused result (λ e. extra_files (project self.now) call.now ≡ Some (Err e)) }
    {
        let variables = Variables::near(
            alloc,
            &self.files,
            self.trees.as_slice(),
            self.kept.as_slice(),
            call,
        )?;
        let called = call_at(variables.files, variables.trees, call);
        extra_files_of(&variables, call, called.source, called.arguments)
    }

    /// What is reported of the one target that is named.
    ///
    /// # Errors
    /// The folder has no build file. Or there is no such target or more than one, or it has `sources:` or `extra_files:` twice, or out of memory.
    pub fn target_details(
        &self,
        alloc: Global,
        name: BorrowedName<'_>,
    ) -> Result<TargetDetails, Refusal>
        ensures told { IfOk result (λ told. (target_place (project self.now) (name_at name.entry) ≡ Ok told.place) × AreDetails (project self.now) told.place told) }
        ensures refused { IfRefused result (NoTarget (project self.now) (name_at name.entry)) }
    {
        let taken = self.notes_for(alloc, Role::Target, name.id)?;
        let notes = taken.all(alloc)?;
        let noted = self.noted(notes.as_slice());
        let place = the_call(alloc, Role::Target, name, noted.files, noted.notes)?;
        let variables = Variables::near_noted(alloc, &noted, &place)?;
        details_at(&variables, place)
    }

    /// What is reported of a call before its arguments.
    ///
    /// # Errors
    /// Out of memory.
    pub fn head(&self, alloc: Global, call: &CallRef) -> Result<Head, Refusal>
        requires { IsTrue (is_call (project self.now) call.now) }
        ensures told { IfOk result (λ h. head (project self.now) call.now ≡ Some h) }
        ensures refused { IfErr result (λ e. e ≡ Refusal.OutOfMemory) }
    {
        let head = self.head_at(alloc, call)?;
        Ok(head)
    }

    /// The same, whose one error is a failed allocation.
    pub fn head_at(&self, alloc: Global, call: &CallRef) -> Result<Head, AllocError>
        requires { IsTrue (is_call (project self.now) call.now) }
        ensures { IfOk result (λ h. head (project self.now) call.now ≡ Some h) }
    {
        let called = call_at(&self.files, self.trees.as_slice(), call);
        head_of(alloc, called)
    }

    /// The keyword arguments of a call that commands of that role change, in the call's order, with their values.
    ///
    /// # Errors
    /// One of them is there twice, the first such in the call's order, or out of memory.
    pub fn keywords(
        &self,
        alloc: Global,
        role: Role,
        call: &CallRef,
    ) -> Result<Vec<(Text, Shown)>, Refusal>
        requires { IsTrue (is_call (project self.now) call.now) }
        ensures told { IfOk result (λ pairs. keywords self.now role call.now ≡ Some (Ok pairs.items)) }
        ensures refused { IfRefused result (λ e. keywords self.now role call.now ≡ Some (Err e)) }
    {
        let called = call_at(&self.files, self.trees.as_slice(), call);
        keywords_of(alloc, role, called.source, called.arguments)
    }

    /// Keeps what commands on targets read.
    ///
    /// # Errors
    /// Out of memory.
    pub(crate) fn keep(&mut self, alloc: Global) -> Result<(), AllocError>
        ensures { self.new ≡ self.old }
    {
        keep(alloc, &self.files, self.trees.as_slice(), &mut self.kept)
    }

    /// Performs a command that changes something, or nothing.
    ///
    /// # Errors
    /// The first refusal that holds, or out of memory.
    pub(crate) fn edit(&mut self, alloc: Global, command: &Command) -> Result<Done, Refusal>
        requires { asks command.now ≡ false }
        ensures done { IfOk result (λ done. Performs self.old command.now done self.new) }
        ensures refused { IfRefused result (MayRefuse self.old command.now) }
        ensures kept { OnErr result (self.new ≡ self.old) }
        ensures project { IsProject self.new }
    {
        let files = mem::replace(&mut self.files, FileSet::new(alloc));
        let trees = mem::replace(&mut self.trees, Vec::new(alloc));
        let mut kept = mem::replace(&mut self.kept, Vec::new(alloc));
        let mut work = Work::start(alloc, files, trees);
        let ended = performed(alloc, &mut work, &mut kept, command);
        let Work {
            splices,
            mut files,
            mut trees,
            saved,
            saved_bytes,
            relexed,
        } = work;
        match ended {
            Ok(()) => {
                forget_changed(&mut kept, &files, splices.as_slice());
                self.files = files;
                self.trees = trees;
                self.kept = kept;
                Ok(Done {
                    change: Change::untitled(alloc, Many::of(splices)),
                    relexed,
                })
            }
            Err(refusal) => {
                put_bytes_back(&mut files, saved_bytes);
                put_back(&mut trees, saved);
                self.files = files;
                self.trees = trees;
                self.kept = kept;
                Err(refusal)
            }
        }
    }
}
