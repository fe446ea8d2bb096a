// Reading class files that are made by repetition. Each workload counts the bytes of the file that was
// read, and 0 where it was refused.
use crate::stores::{entries_file, methods_file};
use std::alloc::{AllocError, Global};
use th_base::{Fail, Text};
use th_reader::read_class;

// How many stores each of many methods has, and how many one of few.
const FEW_STORES: u32 = 10;

const MANY_STORES: u32 = 15_000;

// The methods and the entries that a file has room for.
const MOST_METHODS: u32 = 65_000;

const MOST_ENTRIES: u32 = 65_000;

fn read(alloc: Global, bytes: &[u8]) -> Result<u64, AllocError> {
    if bytes.len() > u32::MAX as usize {
        return Ok(0);
    }
    let name = Text::from_slice(alloc, b"Act.class")?;
    match read_class(alloc, &name, bytes) {
        Ok(_) => Ok(bytes.len() as u64),
        Err(Fail::Refused(_)) => Ok(0),
        Err(Fail::NoMemory) => Err(AllocError),
    }
}

// A file of so many small methods.
pub(crate) fn methods(alloc: Global, size: u32) -> Result<u64, AllocError> {
    let count = size.min(MOST_METHODS) as u16;
    read(alloc, methods_file(alloc, count, FEW_STORES)?.as_slice())
}

// A file of so many methods of some 30,000 instructions each.
pub(crate) fn instructions(alloc: Global, size: u32) -> Result<u64, AllocError> {
    let count = size.min(MOST_METHODS) as u16;
    read(alloc, methods_file(alloc, count, MANY_STORES)?.as_slice())
}

// A file of so many entries in its constant pool.
pub(crate) fn entries(alloc: Global, size: u32) -> Result<u64, AllocError> {
    let count = size.min(MOST_ENTRIES) as u16;
    read(alloc, entries_file(alloc, count)?.as_slice())
}
