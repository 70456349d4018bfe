// What paths from the entry bring, by passes of the solver (document 02, request 4): the alignments of each array, and the spreads of each
// template with which a directive realigns an array.
#![tactic(auto)]

pub mod alignments;
pub mod spreads;
