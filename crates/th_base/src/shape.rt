// The shapes of class names and descriptors, read in place.
ghost use Rattle.std.specs.Prelude.{◌≡◌, IsTrue};
ghost use Rattle.th_base.specs.Lookup.{Describes, Names};
ghost use Rattle.th_base.specs.Subtype.{is_array_supertype};

// What a name or a descriptor stands for.
#[derive(Clone, Copy)]
pub(crate) enum Shape<'a> {
    // An array, with the descriptor of its components.
    Array(&'a [u8]),
    // A class or interface, with its name.
    Class(&'a [u8]),
    // A primitive type, whose letter is the whole descriptor.
    Primitive,
}

// The shape of a field descriptor (Java specification 4.3.2).
pub(crate) fn described(descriptor: &[u8]) -> Shape<'_>
    ensures { Describes descriptor.now result }
{
    match descriptor {
        [b'[', rest @ ..] => Shape::Array(rest),
        [b'L', name @ .., _] => Shape::Class(name),
        [b'L'] => Shape::Class(&[]),
        _ => Shape::Primitive,
    }
}

// The shape of a class name or an array descriptor (Java specification 4.4.1).
pub(crate) fn named(name: &[u8]) -> Shape<'_>
    ensures { Names name.now result }
{
    match name {
        [b'[', rest @ ..] => Shape::Array(rest),
        _ => Shape::Class(name),
    }
}

// Whether every array is a subtype of this class (Java language specification 4.10.3).
pub(crate) fn is_above_arrays(name: &[u8]) -> bool
    ensures { result ≡ is_array_supertype name.now }
{
    name == b"java/lang/Object".as_slice()
        || name == b"java/lang/Cloneable".as_slice()
        || name == b"java/io/Serializable".as_slice()
}
