// The limits of a class file, and of a program.

/// The least major version that is read.
pub const OLDEST_MAJOR: u16 = 45;

/// The greatest major version that is read: Java SE 8.
pub const NEWEST_MAJOR: u16 = 52;

/// How many bytes the code of a method may have (Java specification 4.7.3).
pub const MOST_CODE_BYTES: u32 = 65_535;

/// How many dimensions an array type may have (Java specification 4.3.2).
pub const MOST_DIMENSIONS: usize = 255;

/// How many slots the parameters of a method may take (Java specification 4.3.3).
pub const MOST_PARAMETER_SLOTS: usize = 255;

/// How many methods a program may have, those of the built-in classes included (this project's own).
pub const MOST_METHODS: usize = 65_535;
