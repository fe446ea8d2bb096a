// Entries of the pool, as they are kept.

// An entry (Java specification 4.4). Numbers are indices of entries. Of the entries without a
// value nothing is looked at.
#[derive(Clone, Copy, Debug)]
pub(crate) enum Entry<'a> {
    Utf8(&'a [u8]),
    Integer(i32),
    Float,
    Long(i64),
    Double,
    Class(u16),
    String(u16),
    Field(u16, u16),
    Method(u16, u16),
    InterfaceMethod(u16, u16),
    NameAndType(u16, u16),
    MethodHandle,
    MethodType,
    InvokeDynamic,
}

// An entry, and the offset of its tag in the file.
#[derive(Clone, Copy, Debug)]
pub(crate) struct PlacedEntry<'a> {
    pub at: u32,
    pub entry: Entry<'a>,
}
