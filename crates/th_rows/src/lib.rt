//! Tests of class files and of runs of the whole program over files and sinks in memory.
//!
//! Nothing stands on this crate. Expected texts and statuses were worked out by hand from the
//! program's definitions, never taken from its output.
#![tactic(auto)]

#[cfg(test)]
mod accepted;
#[cfg(test)]
mod class_files;
#[cfg(test)]
mod coarse;
#[cfg(test)]
mod codes;
#[cfg(test)]
mod compiled_kinds;
#[cfg(test)]
mod compiled_programs;
#[cfg(test)]
mod files;
#[cfg(test)]
mod given_words;
#[cfg(test)]
mod host_streams;
#[cfg(test)]
mod inputs;
#[cfg(test)]
mod kinds_of_code;
#[cfg(test)]
mod linking;
#[cfg(test)]
mod pools;
#[cfg(test)]
mod reached_code;
#[cfg(test)]
mod resolved_code;
#[cfg(test)]
mod runs;
#[cfg(test)]
mod script_runs;
#[cfg(test)]
mod scripts;
#[cfg(test)]
mod tests;
#[cfg(test)]
mod values;
