//! The values of the arguments of a call, one after another.

ghost use Rattle.std.specs.Prelude.{◌≡◌, None, OnOk, drop};
ghost use Rattle.meson_syntax.specs.Grammar.{argument_words};
ghost use Rattle.meson_syntax.specs.View.{arg_view};
ghost use Rattle.meson_calls.specs.Project.{place};
ghost use Rattle.meson_calls.specs.Calls.{value_without_name, value_with_name};
ghost use Rattle.meson_variables.specs.Expansion.{in_list, fixed};
ghost use Rattle.meson_calls.specs.GoodLists.{GoodArgs};
ghost use Rattle.meson_variables.specs.CodeVariables.{AreVariables, project_of};
ghost use Rattle.meson_calls.specs.Strings.{AreGood};
ghost use Rattle.meson_calls.specs.NamedArguments.{kept_args, kept_arg};
ghost use Rattle.meson_variables.specs.ExpandedArguments.{expansion_step, arguments_by};
ghost use Rattle.meson_variables.specs.Tallies.{Meets};

use crate::marks::{Marks, Site};
use crate::variables::Variables;
use meson_calls::roles::text_of;
use meson_syntax::Arg;
use std::alloc::AllocError;

impl<'t> Variables<'t> {
    /// What an argument without a name holds, which is in the list at the path.
    fn expand_plain(
        &self,
        left: usize,
        site: Site<'t>,
        number: usize,
        arg: &'t Arg,
        path: &mut Vec<usize>,
        marks: &mut Marks<'t>,
    ) -> Result<(), AllocError>
        requires holds { AreVariables self.now }
        requires whole { site.variable ≡ None }
        requires good { AreGood (argument_words (arg_view site.source.now arg.now)) }
        ensures back { OnOk result (path.new.items ≡ path.old.items) }
        ensures all { OnOk result (Meets marks.old (expansion_step (project_of self.now) left (place site.entry.file path.old.items)
            (in_list (place site.entry.file path.old.items)) (kept_arg site.entry.source.now value_without_name number arg.now)) marks.new) }
    {
        match arg {
            Arg::Plain(value) => self.expand(left, site, Some(number), value, path, marks),
            _ => Ok(()),
        }
    }

    /// What an argument of this name holds, which is in no list.
    fn expand_named(
        &self,
        left: usize,
        site: Site<'t>,
        number: usize,
        arg: &'t Arg,
        key: &[u8],
        path: &mut Vec<usize>,
        marks: &mut Marks<'t>,
    ) -> Result<(), AllocError>
        requires holds { AreVariables self.now }
        requires whole { site.variable ≡ None }
        requires good { AreGood (argument_words (arg_view site.source.now arg.now)) }
        ensures back { OnOk result (path.new.items ≡ path.old.items) }
        ensures all { OnOk result (Meets marks.old (expansion_step (project_of self.now) left (place site.entry.file path.old.items)
            (λ n. fixed) (kept_arg site.entry.source.now (value_with_name key.now) number arg.now)) marks.new) }
    {
        match arg {
            Arg::Named { name, value, .. } => {
                if text_of(site.source, *name) == key {
                    path.push(number)?;
                    self.expand(left, site, None, value, path, marks)?;
                    path.pop();
                }
                Ok(())
            }
            _ => Ok(()),
        }
    }

    /// What the arguments without a name hold, from this number on.
    pub fn expand_plains(
        &self,
        left: usize,
        site: Site<'t>,
        from: usize,
        args: &'t [Arg],
        path: &mut Vec<usize>,
        marks: &mut Marks<'t>,
    ) -> Result<(), AllocError>
        requires holds { AreVariables self.now }
        requires whole { site.variable ≡ None }
        requires good { GoodArgs site.source.now args.now }
        ensures back { OnOk result (path.new.items ≡ path.old.items) }
        ensures all { OnOk result (Meets marks.old (arguments_by (project_of self.now) left (place site.entry.file path.old.items)
            (in_list (place site.entry.file path.old.items)) (kept_args site.entry.source.now value_without_name from (drop from args.now))) marks.new) }
    {
        for i in from..args.len() {
            self.expand_plain(left, site, i, &args[i], path, marks)?;
        }
        Ok(())
    }

    /// What the arguments of this name hold.
    pub fn expand_nameds(
        &self,
        left: usize,
        site: Site<'t>,
        args: &'t [Arg],
        key: &[u8],
        path: &mut Vec<usize>,
        marks: &mut Marks<'t>,
    ) -> Result<(), AllocError>
        requires holds { AreVariables self.now }
        requires whole { site.variable ≡ None }
        requires good { GoodArgs site.source.now args.now }
        ensures back { OnOk result (path.new.items ≡ path.old.items) }
        ensures all { OnOk result (Meets marks.old (arguments_by (project_of self.now) left (place site.entry.file path.old.items)
            (λ n. fixed) (kept_args site.entry.source.now (value_with_name key.now) 0 args.now)) marks.new) }
    {
        for i in 0..args.len() {
            self.expand_named(left, site, i, &args[i], key, path, marks)?;
        }
        Ok(())
    }
}
