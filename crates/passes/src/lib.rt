// The label rules of document 01, computed: for each label its use, leaving version, reaching set and kept set.
// One pass of the solver for each rule; the tables have an entry for each array and vertex.
#![tactic(auto)]

mod entered;
pub mod events;
mod kept;
pub mod pass;
pub mod reaching;
pub mod tables;
mod uses;
