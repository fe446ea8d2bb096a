// Names of classes, fields and methods (Java specification 4.2).
ghost use Rattle.std.specs.Prelude.{◌≡◌};
ghost use Rattle.std.specs.List.{list_all};
ghost use Rattle.th_syntax.specs.WellFormed as names;

// A byte that may stand in a name.
fn is_name_byte(byte: u8) -> bool
    ensures { result ≡ names.is_name_byte byte }
{
    !(byte == b'.' || byte == b';' || byte == b'[' || byte == b'/')
}

// A byte that may stand in the name of a method that initialises nothing.
fn is_method_byte(byte: u8) -> bool
    ensures { result ≡ names.is_method_byte byte }
{
    !(byte == b'<' || byte == b'>')
}

fn are_name_bytes(bytes: &[u8]) -> bool
    ensures { result ≡ list_all names.is_name_byte bytes.now }
{
    bytes.iter().all(|byte| is_name_byte(*byte))
}

fn are_method_bytes(bytes: &[u8]) -> bool
    ensures { result ≡ list_all names.is_method_byte bytes.now }
{
    bytes.iter().all(|byte| is_method_byte(*byte))
}

/// Whether the bytes are the name of a field: at least one byte, and none of `.`, `;`, `[` and `/`
/// (Java specification 4.2.2).
pub fn is_field_name(name: &[u8]) -> bool
    ensures { result ≡ names.is_field_name name.now }
{
    !name.is_empty() && are_name_bytes(name)
}

/// Whether the bytes are the name of a class in internal form: parts named like fields, joined by `/`
/// (Java specification 4.2.1).
pub fn is_class_name(name: &[u8]) -> bool
    ensures { result ≡ names.is_class_name name.now }
{
    name.split(|byte| *byte == b'/')
        .all(|part| is_field_name(part))
}

/// Whether the bytes are the name of an instance initialisation method (Java specification 2.9).
pub fn is_initialiser(name: &[u8]) -> bool
    ensures { result ≡ names.is_initialiser name.now }
{
    name == b"<init>".as_slice()
}

/// Whether the bytes are the name of a class initialisation method (Java specification 2.9).
pub fn is_class_initialiser(name: &[u8]) -> bool
    ensures { result ≡ names.is_class_initialiser name.now }
{
    name == b"<clinit>".as_slice()
}

/// Whether the bytes are the name of a method: one of the two names of initialisation methods, or
/// that of a field without `<` and `>` (Java specification 4.2.2).
pub fn is_method_name(name: &[u8]) -> bool
    ensures { result ≡ names.is_method_name name.now }
{
    is_initialiser(name)
        || is_class_initialiser(name)
        || (is_field_name(name) && are_method_bytes(name))
}
