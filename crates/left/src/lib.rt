// The versions in which a directive can leave an array that it remaps; refusal 42.
#![tactic(auto)]

pub mod check;
mod elsewhere;
mod held;
