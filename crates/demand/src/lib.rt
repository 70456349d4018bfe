// Demand 3: definitions and their theorem (`specs/`, `proofs/`), and no function.
#![tactic(auto)]
