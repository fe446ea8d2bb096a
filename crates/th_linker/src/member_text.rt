// Fields and methods as they are printed.
ghost use Rattle.std.specs.Prelude.{◌≡◌, ◌++◌, codes, IfOk};
ghost use Rattle.th_syntax.specs.LinkChecks as checks;

use std::alloc::{AllocError, Global};
use th_base::Text;
use th_syntax::{Member, MemberRef};

// A field of the class that is looked at.
pub(crate) fn own_field_text(alloc: Global, field: &Member) -> Result<Text, AllocError>
    ensures { IfOk result (λ text. text ≡ field.now.name ++ codes ":" ++ field.now.descriptor) }
{
    let mut text = Vec::from_slice(alloc, field.name.as_bytes())?;
    text.extend_from_slice(b":")?;
    text.extend_from_slice(field.descriptor.as_bytes())?;
    Text::from_vec(text)
}

// A method of the class that is looked at.
pub(crate) fn own_method_text(alloc: Global, method: &Member) -> Result<Text, AllocError>
    ensures { IfOk result (λ text. text ≡ method.now.name ++ method.now.descriptor) }
{
    let mut text = Vec::from_slice(alloc, method.name.as_bytes())?;
    text.extend_from_slice(method.descriptor.as_bytes())?;
    Text::from_vec(text)
}

// A field that an instruction names.
pub(crate) fn field_text(alloc: Global, field: &MemberRef) -> Result<Text, AllocError>
    ensures { IfOk result (λ text. text ≡ checks.field_text field.now) }
{
    let mut text = Vec::from_slice(alloc, field.owner.as_bytes())?;
    text.extend_from_slice(b".")?;
    text.extend_from_slice(field.name.as_bytes())?;
    text.extend_from_slice(b":")?;
    text.extend_from_slice(field.descriptor.as_bytes())?;
    Text::from_vec(text)
}

// A method that an instruction names.
pub(crate) fn method_text(alloc: Global, method: &MemberRef) -> Result<Text, AllocError>
    ensures { IfOk result (λ text. text ≡ checks.method_text method.now) }
{
    let mut text = Vec::from_slice(alloc, method.owner.as_bytes())?;
    text.extend_from_slice(b".")?;
    text.extend_from_slice(method.name.as_bytes())?;
    text.extend_from_slice(method.descriptor.as_bytes())?;
    Text::from_vec(text)
}
