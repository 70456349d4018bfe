// A path through a routine with calls (document 02, request 3): definitions and their theorems (`specs/`, `proofs/`), and no function.
#![tactic(auto)]
