// Calls with interfaces (document 02, request 3): which vertices are calls, the file with calls as references, and the expanded routine with
// its rows and edges. `specs/` has the definitions, `proofs/` the theorems of the expanded routine beside the functions' proofs.
#![tactic(auto)]

pub mod edges;
pub mod expanded;
pub mod references;
pub mod rows;
pub mod scan;
