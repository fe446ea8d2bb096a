//! What every run of the machine keeps, where `th_syntax` says how its states change. No code, only laws.
//!
//! `laws::verified_runs_keep` is what the layers above cite, for class files that were read and linked and
//! whose methods have kinds: what `th_syntax` says of all runs, that code frames stand at instructions, that
//! addresses lead to objects, which keep their types, that the classes whose code runs are no untouched ones,
//! and that frames, static fields and objects are of their kinds. `laws::running_states_have_a_step` says
//! that the machine is stuck nowhere, `laws::runs_end_once` that nothing follows the end of a run.
//!
//! The definitions stand in `specs/`: `Addresses`, `Entered`, `Fitting` (slots, values and objects by kind),
//! `FrameKinds`, `Sound` and `Verified` (what is asked of a program), `Always` (all in one record), and
//! `Worked` and `WorkedRows` (small states). docs/MACHINE.md and docs/KINDS.md tell the same in plain words.
#![tactic(auto)]

pub mod laws;
