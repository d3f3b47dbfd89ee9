//! What the arguments of a call hold, where variables are followed.

ghost use Rattle.std.specs.Prelude.{◌≡◌, OnOk, drop, option_map};
ghost use Rattle.meson_syntax.specs.Grammar.{argument_words};
ghost use Rattle.meson_syntax.specs.View.{arg_view, expr_view};
ghost use Rattle.meson_calls.specs.GoodLists.{GoodArgs};
ghost use Rattle.meson_calls.specs.Loading.{IsProject, loaded_from};
ghost use Rattle.meson_calls.specs.NamedArguments.{kept_arg, kept_args};
ghost use Rattle.meson_calls.specs.Project.{place};
ghost use Rattle.meson_calls.specs.Strings.{AreGood};
ghost use Rattle.meson_following.specs.CodeArguments.{value_by, value_met, values_met};
ghost use Rattle.meson_following.specs.CodeFollowing.{Follows};

use crate::marks::Following;
use crate::site::Site;
use meson_calls::roles::text_of;
use meson_syntax::{Arg, Expr};
use std::alloc::AllocError;

/// The value of an argument without a name, or with this one.
pub fn value_of<'e>(source: &[u8], arg: &'e Arg, key: Option<&[u8]>) -> Option<&'e Expr>
    ensures { option_map (λ e. expr_view source.now e.now) result ≡ value_by (option_map (λ k. k.now) key.entry) (arg_view source.now arg.now) }
{
    match (arg, key) {
        (Arg::Plain(value), None) => Some(value),
        (Arg::Named { name, value, .. }, Some(key)) => {
            if text_of(source, *name) == key {
                Some(value)
            } else {
                None
            }
        }
        _ => None,
    }
}

impl Site<'_> {
    /// Meets what an argument of the call at the path holds, if it has no name, or this one.
    fn meet_argument(
        &self,
        key: Option<&[u8]>,
        number: usize,
        arg: &Arg,
        path: &mut Vec<usize>,
        found: &mut Following,
    ) -> Result<(), AllocError>
        requires project { IsProject (loaded_from self.now.follower.files.now self.now.follower.trees.now) }
        requires good { AreGood (argument_words (arg_view self.now.source.now arg.now)) }
        ensures back { OnOk result (path.new.items ≡ path.old.items) }
        ensures all { OnOk result (Follows found.old (let k = option_map (λ k. k.now) key.entry in
            value_met self.now (place self.now.file path.old.items) k (kept_arg self.now.source.now (value_by k) number arg.now)) found.new) }
    {
        let Some(value) = value_of(self.source, arg, key) else {
            return Ok(());
        };
        path.push(number)?;
        self.meet(key.is_none(), value, path, found)?;
        path.pop();
        Ok(())
    }

    /// Meets what the arguments of the call at the path hold that have no name, or this one, from this number on.
    pub(crate) fn meet_arguments(
        &self,
        key: Option<&[u8]>,
        from: usize,
        args: &[Arg],
        path: &mut Vec<usize>,
        found: &mut Following,
    ) -> Result<(), AllocError>
        requires project { IsProject (loaded_from self.now.follower.files.now self.now.follower.trees.now) }
        requires good { GoodArgs self.now.source.now args.now }
        ensures back { OnOk result (path.new.items ≡ path.old.items) }
        ensures all { OnOk result (Follows found.old (let k = option_map (λ k. k.now) key.entry in
            values_met self.now (place self.now.file path.old.items) k (kept_args self.now.source.now (value_by k) from (drop from args.now))) found.new) }
    {
        for i in from..args.len() {
            self.meet_argument(key, i, &args[i], path, found)?;
        }
        Ok(())
    }
}
