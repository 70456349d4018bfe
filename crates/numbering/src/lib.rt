// The mappings of each array, numbered from its initial one on, then by vertex; the versions that each directive gives; refusal 41.
#![tactic(auto)]

pub mod given;
pub mod list;
pub mod mapping;
pub mod numbers;
