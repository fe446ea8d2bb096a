// The class that a type names.
ghost use Rattle.std.specs.Prelude.{◌≡◌};
ghost use Rattle.std.specs.Option.{option_map};
ghost use Rattle.th_base.specs.Subtype.{named_type, described_type};
ghost use Rattle.th_syntax.specs.LinkChecks as checks;

// Of an array's descriptor the class of its elements, none where they are primitive; else the class of
// this name (Java specification 4.4.1).
pub(crate) fn class_in_type(name: &[u8]) -> Option<&[u8]>
    ensures { option_map (λ class. class.now) result ≡ checks.class_in_type (named_type name.now) }
{
    match name {
        [b'[', component @ ..] => class_in_descriptor(component),
        _ => Some(name),
    }
}

// The class in a field descriptor (Java specification 4.3.2).
fn class_in_descriptor(descriptor: &[u8]) -> Option<&[u8]>
    ensures { option_map (λ class. class.now) result ≡ checks.class_in_type (described_type descriptor.now) }
{
    let mut rest = descriptor;
    loop {
        match rest {
            [b'[', component @ ..] => rest = component,
            [b'L', name @ .., _] => return Some(name),
            [b'L'] => return Some(&[]),
            _ => return None,
        }
    }
}
