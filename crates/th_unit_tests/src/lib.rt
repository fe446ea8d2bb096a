//! Tests of the crates of values: numbers, sets, classes, facts, words and the host.
//!
//! A crate with tests is proved twice by the gate, so tests stand apart from what they test: here,
//! in `th_plan_tests` those of programs in register form, and in `th_rows` those of class files and of
//! the whole program. Nothing stands on this crate. Expected values were worked out by hand from the
//! definitions, never taken from the output.
#![tactic(auto)]

#[cfg(test)]
mod arithmetic;
#[cfg(test)]
mod base_values;
#[cfg(test)]
mod command_lines;
#[cfg(test)]
mod edge_tables;
#[cfg(test)]
mod hierarchies;
#[cfg(test)]
mod host;
#[cfg(test)]
mod inclusions;
#[cfg(test)]
mod linear_facts;
#[cfg(test)]
mod refutations;
