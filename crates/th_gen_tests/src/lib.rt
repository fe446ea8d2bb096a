//! Tests of the writer of class files and of the generated program, with the reader, the linker and the
//! kinds of slots over what is written.
//!
//! Nothing stands on this crate. Expected bytes, sizes and checksums were computed by a program apart,
//! from the Java specification and from the description of the generated program.
#![tactic(auto)]

#[cfg(test)]
mod written_classes;
