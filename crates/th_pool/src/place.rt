// A place in a file.
ghost use Rattle.std.specs.Prelude.{◌+◌, ◌<◌, ◌^◌, length};

/// An offset in a file of fewer than 2^32 bytes, and the bytes from there on. What reads an item at
/// a place gives the place behind it too.
#[derive(Clone, Copy, Debug)]
pub struct Place<'a> {
    /// The offset in bytes.
    pub at: u32,
    /// The bytes from there on.
    pub rest: &'a [u8],
    ghost in_range: { at + length rest.now < 2 ^ 32 },
}
