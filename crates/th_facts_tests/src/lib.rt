//! Tests of what is computed over programs in register form from their facts on.
//!
//! They stand apart from those of other crates, which take long to prove. Nothing stands on this crate.
//! Expected values were worked out by hand from the definitions, never taken from the output.
#![tactic(auto)]

#[cfg(test)]
mod points_to;
