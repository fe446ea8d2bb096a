// Access flags of classes, fields and methods (Java specification, tables 4.1-A, 4.5-A and 4.6-A).
ghost use Rattle.std.specs.Prelude.{◌≡◌};
ghost use Rattle.th_syntax.specs.Flags.{has_flag};

/// A member that its class alone uses.
pub const ACC_PRIVATE: u16 = 0x0002;

/// A member of the class itself, not of its objects.
pub const ACC_STATIC: u16 = 0x0008;

/// A method whose code is in another language.
pub const ACC_NATIVE: u16 = 0x0100;

/// An interface, not a class.
pub const ACC_INTERFACE: u16 = 0x0200;

/// A class without objects of its own, or a method without code.
pub const ACC_ABSTRACT: u16 = 0x0400;

/// Whether the access flags have this one.
pub fn has_flag(access: u16, flag: u16) -> bool
    ensures { result ≡ has_flag access flag }
{
    access & flag != 0
}
