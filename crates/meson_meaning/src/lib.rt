//! What build files mean, as far as the sources of targets are concerned.
#![tactic(auto)]

pub mod laws;
