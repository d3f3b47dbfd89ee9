//! The order of what is known of a variable: what says no more, and overlooks nothing. Definitions and laws alone.
#![tactic(auto)]

pub mod laws;
