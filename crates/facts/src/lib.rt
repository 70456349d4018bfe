// Passes of the solver over the edges of a directive file, which vertices a path from the entry reaches, and what a directive concerns.
#![tactic(auto)]

pub mod directive;
pub mod pass;
pub mod reached;
