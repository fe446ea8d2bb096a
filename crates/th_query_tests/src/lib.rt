//! Tests of queries.
//!
//! Nothing stands on this crate. Expected values were worked out by hand from the definitions, never
//! taken from the output.
#![tactic(auto)]

#[cfg(test)]
mod values;
