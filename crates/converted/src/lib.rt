// The routine file that a directive file becomes: contents, array records, rows of actions, edges (document 02, request 4).
#![tactic(auto)]

pub mod writer;
