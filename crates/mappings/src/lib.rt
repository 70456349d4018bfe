// What the directives mean along a path, and the routine that a directive file becomes. Definitions and theorems alone.
#![tactic(auto)]
