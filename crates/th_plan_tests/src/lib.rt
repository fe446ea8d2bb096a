//! Tests of what is computed over programs in register form: flow, facts, summaries, graphs and paths.
//!
//! Nothing stands on this crate. Expected values were worked out by hand from the definitions, never
//! taken from the output.
#![tactic(auto)]

#[cfg(test)]
mod flows;
#[cfg(test)]
mod heap_graphs;
#[cfg(test)]
mod least_paths;
#[cfg(test)]
mod plans;
#[cfg(test)]
mod program_graphs;
#[cfg(test)]
mod register_form;
#[cfg(test)]
mod summaries;
