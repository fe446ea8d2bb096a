// What ends the reading of files.
use th_base::Name;

/// What ends the reading of files.
#[derive(Debug, Drop)]
pub enum Unread {
    /// The store has no file of this name.
    Missing(Name),
    /// A read of the file of this name failed.
    Failed(Name),
    /// A line of the list isn't UTF-8.
    BadLine {
        /// The list's name.
        list: Name,
        /// Where the line begins, in bytes from the start of the list.
        offset: u32,
    },
    /// More class files are named than are read at most.
    TooManyFiles,
    /// The file of this name has too many bytes, or the class files have with it.
    TooManyBytes(Name),
}
