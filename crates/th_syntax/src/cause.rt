// The numbers of what can be wrong with the bytes of a class file, and with class files together.

/// The bytes don't begin with the magic number.
pub const NOT_CLASS: u8 = 1;

/// An item goes past the end of the file.
pub const TRUNCATED: u8 = 2;

/// The major version isn't one of those that are read.
pub const VERSION: u8 = 3;

/// The constant pool is ill-formed, or an index leads to an entry of a wrong tag.
pub const POOL: u8 = 4;

/// Bytes follow the last item of the class.
pub const TRAILING: u8 = 5;

/// A name or a descriptor is ill-formed.
pub const NAME: u8 = 6;

/// A descriptor or a constant has `float` or `double`.
pub const FLOAT_TYPE: u8 = 7;

/// A method is native.
pub const NATIVE: u8 = 8;

/// A ConstantValue or Code attribute is ill-formed, or stands twice.
pub const ATTRIBUTE: u8 = 9;

/// An opcode isn't of the profile.
pub const OPCODE: u8 = 10;

/// An instruction's operands or the flow of the code are ill-formed.
pub const CODE_SHAPE: u8 = 11;

/// A method of an interface, other than `<clinit>`, has code.
pub const INTERFACE_CODE: u8 = 19;

// The numbers of what can be wrong where class files are linked with each other.

/// Two classes have one name.
pub const DUPLICATE: u8 = 13;

/// A class has the name of a built-in one.
pub const BUILT_IN: u8 = 14;

/// A class that is named isn't there.
pub const MISSING_CLASS: u8 = 15;

/// A field or a method that is named isn't found.
pub const MISSING_MEMBER: u8 = 16;

/// A class has no superclass, a supertype of the wrong kind, or itself above it.
pub const SUPER: u8 = 17;

/// A member stands twice, or is not what it must be.
pub const MEMBER: u8 = 18;

/// A quantity is past its limit.
pub const LIMIT: u8 = 20;
