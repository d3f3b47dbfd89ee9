//! What is kept of the parts of trees.

use crate::call::CallRef;
use crate::kept::KeptAssignment;
use crate::taken::Taken;

/// Notes of what sets some variables, while they are gathered.
#[derive(Drop)]
pub struct Setters<'n, 't> {
    pub names: &'n [&'n [u8]],
    pub found: Taken<'t>,
}

/// Assignments, while they are gathered, and whether there is a loop.
#[derive(Drop)]
pub struct Assignments {
    pub loops: bool,
    pub found: Vec<KeptAssignment>,
}

/// An array or a dictionary: the offset of its opening bracket, in bytes of its file, and its place.
#[derive(Drop)]
pub struct Opened {
    pub at: usize,
    pub place: CallRef,
}

/// What a walk keeps of the parts that it visits.
#[derive(Drop)]
pub enum Keeper<'n, 't> {
    /// The calls, assignments and loops.
    Notes(Taken<'t>),
    /// Of these, the assignments to some variables and the loops.
    Setters(Setters<'n, 't>),
    /// The places of the assignments, to any variable, and whether there is a loop.
    Assignments(Assignments),
    /// The places of the identifiers that are this variable.
    Reads { name: &'t [u8], found: Vec<CallRef> },
    /// The arrays and dictionaries.
    Lists(Vec<Opened>),
}
