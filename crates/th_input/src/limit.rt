// The limits of what is read (this project's own).

/// How many class files are read at most.
pub const MOST_CLASS_FILES: usize = 4096;

/// How many bytes a file may have.
pub const MOST_FILE_BYTES: usize = 16_777_216;

/// How many bytes the class files may have together.
pub const MOST_BYTES: usize = 268_435_456;
