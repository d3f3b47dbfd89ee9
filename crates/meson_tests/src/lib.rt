//! Tests of what no case in a file says: sets of files by themselves, their diffs and edits, commits of several files, buffered writers, and
//! the texts of the command line. Expected values are written by hand.
#![tactic(auto)]

#[cfg(test)]
mod command_line;
#[cfg(test)]
mod committing;
#[cfg(test)]
mod diffs;
#[cfg(test)]
mod file_sets;
#[cfg(test)]
mod outputs;
#[cfg(test)]
mod ranges;
