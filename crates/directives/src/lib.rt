// The directive file of docs/DIRECTIVES.md: what stands in it, and check 40 for every list of bytes.
#![tactic(auto)]

pub mod array;
pub mod edge;
pub mod field;
pub mod header;
pub mod laid;
pub mod read;
pub mod reader;
pub mod spread;
pub mod vertex;
