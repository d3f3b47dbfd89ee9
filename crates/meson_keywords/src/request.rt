//! Requests on the arguments of a call: which call it is, and the words.

use meson_calls::{BorrowedName, Role};
use meson_splice::Text;
use meson_steps::command::Setting;

/// What is requested.
#[derive(Clone, Copy)]
pub enum AskedWords<'c> {
    Set(&'c [(Text, Setting)]),
    Delete(&'c [Text]),
    Add(&'c [(Text, Setting)]),
    Remove(&'c [(Text, Setting)]),
    SetOptions(&'c [(Text, Text)]),
    DeleteOptions(&'c [Text]),
}

/// A request, and on which call.
#[derive(Clone, Copy)]
pub struct Request<'c> {
    pub role: Role,
    pub name: BorrowedName<'c>,
    pub words: AskedWords<'c>,
}
