// The routine file of document 01: its layout, array records, action bytes and edges, and the reader, which answers for every list of
// bytes with the routine's header or with a refusal.
#![tactic(auto)]

pub mod action;
pub mod array;
pub mod edge;
pub mod header;
pub mod laid;
pub mod reader;
