//! Tests of running out of memory: each allocation of a call fails in turn, alone and with all after it.
//!
//! The failing heap (`tests/refuse.c`, which `tests/memory` puts before the C library's) takes orders. Without it no allocation fails: each call is then made
//! with ample memory, and must not report that memory ran out.
#![tactic(auto)]

#[cfg(test)]
mod projects;
#[cfg(test)]
mod refusing;
#[cfg(test)]
mod rows;
#[cfg(test)]
mod sessions;
#[cfg(test)]
mod splices;
#[cfg(test)]
mod trial;
