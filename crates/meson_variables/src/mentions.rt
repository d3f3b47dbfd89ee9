//! The variables that are followed from an expression on.

use crate::meeting::is_files;
use crate::values::Values;
use meson_calls::roles::{is_among, text_of};
use meson_syntax::{Arg, Expr, List};
use std::alloc::{AllocError, Global};

/// Up to this number, variables are looked for one by one; if there are more, all are.
const MOST_NAMES: usize = 16;

/// Variables that are named, each once, but for those that were known before.
#[derive(Drop)]
pub(crate) struct Mentions<'t> {
    found: Vec<&'t [u8]>,
}

impl<'t> Mentions<'t> {
    /// None so far. Does not allocate.
    pub(crate) fn new(alloc: Global) -> Self {
        Mentions {
            found: Vec::new(alloc),
        }
    }

    /// The names.
    pub(crate) fn names(&self) -> &[&'t [u8]] {
        self.found.as_slice()
    }

    /// Whether there are too many to search for them one by one.
    pub(crate) fn are_many(&self) -> bool {
        self.found.len() > MOST_NAMES
    }

    /// Meets a variable.
    fn meet(&mut self, known: &[&[u8]], name: &'t [u8]) -> Result<(), AllocError> {
        if self.are_many() || is_among(known, name) || is_among(self.found.as_slice(), name) {
            return Ok(());
        }
        self.found.push(name)?;
        Ok(())
    }

    /// Meets the variables that are followed from an expression on.
    #[cycle(mentions)]
    fn meet_expr(
        &mut self,
        known: &[&[u8]],
        source: &'t [u8],
        expr: &'t Expr,
    ) -> Result<(), AllocError> {
        match expr {
            Expr::Identifier(name) => self.meet(known, text_of(source, *name)),
            Expr::Array(list) => self.meet_list(known, source, list),
            Expr::Call {
                name,
                arguments,
                ..
            } => {
                if is_files(source, *name, arguments) {
                    self.meet_list(known, source, arguments)
                } else {
                    Ok(())
                }
            }
            Expr::Row { first, rest, .. } => {
                self.meet_expr(known, source, first.get())?;
                let operands = rest.get();
                for i in 0..operands.len() {
                    self.meet_expr(known, source, &operands[i].value)?;
                }
                Ok(())
            }
            _ => Ok(()),
        }
    }

    /// Meets those of the elements of a list.
    #[cycle(mentions)]
    fn meet_list(
        &mut self,
        known: &[&[u8]],
        source: &'t [u8],
        list: &'t List,
    ) -> Result<(), AllocError> {
        let args = list.items.get();
        for i in 0..args.len() {
            match &args[i] {
                Arg::Plain(value) => self.meet_expr(known, source, value)?,
                _ => {}
            }
        }
        Ok(())
    }

    /// Meets those of the arguments of a target's call.
    pub(crate) fn meet_call(
        &mut self,
        source: &'t [u8],
        arguments: &'t List,
    ) -> Result<(), AllocError> {
        self.meet_list([].as_slice(), source, arguments)?;
        let args = arguments.items.get();
        for i in 0..args.len() {
            match &args[i] {
                Arg::Named { name, value, .. } => {
                    let key = text_of(source, *name);
                    if key == b"sources".as_slice() || key == b"extra_files".as_slice() {
                        self.meet_expr([].as_slice(), source, value)?;
                    }
                }
                _ => {}
            }
        }
        Ok(())
    }

    /// Meets those of the values of variables.
    pub(crate) fn meet_values(
        &mut self,
        names: &[&[u8]],
        values: &Values<'t>,
    ) -> Result<(), AllocError> {
        for i in 0..names.len() {
            match values.of(names[i]) {
                Some(value) => self.meet_expr(names, value.source, value.value)?,
                None => {}
            }
        }
        Ok(())
    }
}
