// Attributes of a member by their names.
ghost use Rattle.std.specs.Prelude.{◌≡◌, [], ◌∷◌, MatchOption};
ghost use Rattle.th_syntax.specs.Checks as checks;
ghost use Rattle.th_reader.specs.RawView.{attribute_view, attributes_view};
ghost use Rattle.th_reader.specs.Passes.{front_flaw, refused_flaw};

use crate::layout::RawAttribute;
use th_pool::Pool;
use th_syntax::{Flaw, cause};

// The name of an attribute that holds a method's code (Java specification 4.7.3).
pub(crate) const CODE: &[u8] = b"Code";

// The name of an attribute that holds a field's constant (Java specification 4.7.2).
pub(crate) const CONSTANT_VALUE: &[u8] = b"ConstantValue";

// Whether an index leads to this text.
fn is_text(pool: &Pool, index: u16, text: &[u8]) -> bool
    ensures { result ≡ checks.is_text pool.now index text.now }
{
    match pool.text(index) {
        Some(found) => found.text().as_bytes() == text,
        None => false,
    }
}

// The first attribute of this name, and the attributes behind it.
pub(crate) fn next_named<'a, 'b>(
    pool: &Pool,
    name: &[u8],
    attributes: &'b [RawAttribute<'a>],
) -> Option<(RawAttribute<'a>, &'b [RawAttribute<'a>])>
    ensures { MatchOption result (checks.attributes_named pool.now name.now (attributes_view attributes.now) ≡ []) (λ x. checks.attributes_named pool.now name.now (attributes_view attributes.now) ≡ attribute_view x.0 ∷ checks.attributes_named pool.now name.now (attributes_view x.1.now)) }
{
    for i in 0..attributes.len() {
        let attribute = attributes[i];
        if is_text(pool, attribute.name.value, name) {
            let (_, others) = attributes.split_at(i + 1);
            return Some((attribute, others));
        }
    }
    None
}

// No attribute of this name follows.
pub(crate) fn check_last(pool: &Pool, name: &[u8], others: &[RawAttribute]) -> Result<(), Flaw>
    ensures { refused_flaw result ≡ front_flaw (checks.again_flaws (checks.attributes_named pool.now name.now (attributes_view others.now))) }
{
    match next_named(pool, name, others) {
        Some((again, _)) => Err(Flaw {
            number: cause::ATTRIBUTE,
            offset: again.name.at,
        }),
        None => Ok(()),
    }
}
