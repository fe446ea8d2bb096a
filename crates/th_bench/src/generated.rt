// Generated programs.
use std::alloc::{AllocError, Global};
use th_gen::{MOST_GENERATED, generate};

// Makes the class files of a generated program of so many Activity classes, and counts their bytes.
pub(crate) fn generated(alloc: Global, size: u32) -> Result<u64, AllocError> {
    let files = generate(alloc, size.min(MOST_GENERATED))?;
    let mut bytes = 0u64;
    for (_, file) in files.as_slice() {
        bytes = bytes.wrapping_add(file.len() as u64);
    }
    Ok(bytes)
}
