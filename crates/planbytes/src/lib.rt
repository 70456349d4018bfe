// The bytes of the plan (document 01, "Plan and report").
#![tactic(auto)]

pub mod contents;
mod label;
pub mod writer;
