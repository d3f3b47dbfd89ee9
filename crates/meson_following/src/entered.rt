//! The files that calls of `subdir` enter.

ghost use Rattle.std.specs.Prelude.{◌≡◌, ◌++◌, [], IfOk, OnOk, map, string_bytes};
ghost use Rattle.std.specs.List.{cons_option};
ghost use Rattle.meson_syntax.specs.Grammar.{listing_words};
ghost use Rattle.meson_syntax.specs.View.{expr_view, list_view};
ghost use Rattle.meson_syntax.specs.declared.operator.Bracket.TheVariants as bracket;
ghost use Rattle.meson_calls.specs.Calls.{first_argument};
ghost use Rattle.meson_calls.specs.ChosenNotes.{Source, call_with};
ghost use Rattle.meson_calls.specs.Loading.{IsProject, loaded_from};
ghost use Rattle.meson_calls.specs.Project.{child, place, placed};
ghost use Rattle.meson_calls.specs.Strings.{AreGood};
ghost use Rattle.meson_following.specs.Effects.{entering_by, entering_each, entering_literal, is_name, number_of, numbers_of};
ghost use Rattle.meson_following.specs.Walks.{MayWalk, project_of, walked_file};

use crate::effects::Effect;
use crate::walk::{Question, Walk};
use meson_calls::Reading;
use meson_calls::arguments::count_named;
use meson_calls::entering::file_as;
use meson_calls::literals::first_literal;
use meson_calls::roles::first_argument;
use meson_entering::{SourceFile, SubdirCall, files_meant};
use meson_splice::Many;
use meson_syntax::{Expr, List};
use std::alloc::AllocError;

/// Whether an expression is a name.
fn is_name(expr: &Expr) -> bool
    ensures { (source : Source) → result ≡ is_name (expr_view source expr.now) }
{
    matches!(expr, Expr::Identifier(_))
}

impl Question<'_> {
    /// Adds the number of the file of this name, if there is such a file.
    fn add_number(&self, name: &str, numbers: &mut Vec<usize>) -> Result<(), AllocError>
        requires { IsProject (loaded_from self.now.files.now self.now.trees.now) }
        ensures { OnOk result (numbers.new.items ≡ numbers.old.items ++ cons_option (number_of (project_of self.now) name.now) []) }
    {
        let Some(file) = self.files.find(name) else {
            return Ok(());
        };
        numbers.push(file)?;
        Ok(())
    }

    /// The numbers of the files of these names, as far as there are such files.
    fn numbers_of(&self, names: &[String]) -> Result<Vec<usize>, AllocError>
        requires { IsProject (loaded_from self.now.files.now self.now.trees.now) }
        ensures { IfOk result (λ numbers. numbers.items ≡ numbers_of (project_of self.now) (map string_bytes names.now)) }
    {
        let mut numbers = Vec::new(self.alloc);
        for i in 0..names.len() {
            self.add_number(names[i].as_str(), &mut numbers)?;
        }
        Ok(numbers)
    }
}

impl Walk<'_> {
    /// What a `subdir` call does whose first argument is no name.
    fn entering_literal(&self, arguments: &List) -> Result<Effect, AllocError>
        requires walks { MayWalk self.now }
        requires good { AreGood (listing_words (list_view self.now.source.now arguments.now) bracket.Round) }
        ensures { (f : Source) → IfOk result (λ e. e
            ≡ entering_literal (project_of self.now.question) (walked_file self.now) (call_with f (list_view self.now.source.now arguments.now))) }
    {
        let alloc = self.question.alloc;
        let Some(folder) = first_literal(alloc, self.source, arguments)? else {
            return Ok(Effect::MaySet);
        };
        let Some(name) = file_as(alloc, Reading::Followed, self.name, folder.as_str())? else {
            return Ok(Effect::MaySet);
        };
        match self.question.files.find(name.as_str()) {
            Some(file) => Ok(Effect::Enters {
                file,
                condition: count_named(self.source, arguments.items.get(), b"if_found") > 0,
            }),
            None => Ok(Effect::MaySet),
        }
    }

    /// What a `subdir` call does whose first argument is a name, at the path of its statement: it may enter each file that a loop around it is known to mean.
    fn entering_each(&self, path: &[usize], arguments: &List) -> Result<Effect, AllocError>
        requires walks { MayWalk self.now }
        requires good { AreGood (listing_words (list_view self.now.source.now arguments.now) bracket.Round) }
        ensures { (f : Source) → IfOk result (λ e. e ≡ entering_each (project_of self.now.question) (walked_file self.now)
            (placed (child (place self.now.file path.now) 0) (call_with f (list_view self.now.source.now arguments.now)))) }
    {
        let alloc = self.question.alloc;
        let mut steps = Vec::from_slice(alloc, path)?;
        steps.push(0)?;
        let file = SourceFile {
            name: self.name,
            source: self.source,
            tree: self.tree,
        };
        let call = SubdirCall {
            source: self.source,
            path: steps.as_slice(),
            arguments,
        };
        let names = files_meant(alloc, Reading::Followed, file, call)?;
        let numbers = self.question.numbers_of(names.as_slice())?;
        Ok(Effect::MayEnter(Many::of(numbers)))
    }

    /// What a `subdir` call does, at the path of its statement.
    pub(crate) fn entering(&self, path: &[usize], arguments: &List) -> Result<Effect, AllocError>
        requires walks { MayWalk self.now }
        requires good { AreGood (listing_words (list_view self.now.source.now arguments.now) bracket.Round) }
        ensures { (f : Source) → let c = call_with f (list_view self.now.source.now arguments.now) in IfOk result (λ e. e
            ≡ entering_by (project_of self.now.question) (walked_file self.now) (placed (child (place self.now.file path.now) 0) c) (first_argument c)) }
    {
        let Some(argument) = first_argument(arguments) else {
            return self.entering_literal(arguments);
        };
        if is_name(argument) {
            self.entering_each(path, arguments)
        } else {
            self.entering_literal(arguments)
        }
    }
}
