// The third pass: names and descriptors, each at the index that leads to it.
ghost use Rattle.std.specs.Prelude.{◌≡◌, map};
ghost use Rattle.std.specs.List.{flat_map};
ghost use Rattle.th_syntax.specs.Flaws.{flaw_at, unless};
ghost use Rattle.th_syntax.specs.Checks as checks;
ghost use Rattle.th_syntax.specs.declared.cause.TheConstants as causes;
ghost use Rattle.th_syntax.specs.CodeBytes.{type_numbers, method_type_numbers};
ghost use Rattle.th_syntax.specs.Descriptors.{field_type_of, method_type_of};
ghost use Rattle.th_syntax.specs.PoolChecks.{utf8_of};
ghost use Rattle.th_syntax.specs.WellFormed.{is_field_name, is_method_name};
ghost use Rattle.th_pool.specs.Texts.{fault_numbers};
ghost use Rattle.th_reader.specs.RawView.{index_view, member_view, class_view};
ghost use Rattle.th_reader.specs.Passes.{front_flaw, refused_flaw};

use crate::layout::{Index, RawClass, RawMember};
use th_pool::{DescriptorFault, Pool};
use th_syntax::{Flaw, cause};

// A name that is well formed or not, at an index.
fn check_name(good: bool, at: u32) -> Result<(), Flaw>
    ensures { refused_flaw result ≡ front_flaw (unless good (flaw_at causes.NAME at)) }
{
    if good {
        return Ok(());
    }
    Err(Flaw {
        number: cause::NAME,
        offset: at,
    })
}

// A descriptor with this fault, at an index.
fn check_descriptor(fault: Option<DescriptorFault>, at: u32) -> Result<(), Flaw>
    ensures { refused_flaw result ≡ front_flaw (map (λ number. flaw_at number at) (fault_numbers fault)) }
{
    let number = match fault {
        None => return Ok(()),
        Some(DescriptorFault::Form) => cause::NAME,
        Some(DescriptorFault::FloatType) => cause::FLOAT_TYPE,
    };
    Err(Flaw { number, offset: at })
}

fn check_class_name(pool: &Pool, index: Index) -> Result<(), Flaw>
    ensures { refused_flaw result ≡ front_flaw (checks.class_name_flaws pool.now (index_view index)) }
{
    match pool.class_text(index.value) {
        Some(name) => check_name(name.is_class_name(), index.at),
        None => Ok(()),
    }
}

fn check_class_names(pool: &Pool, classes: &[Index]) -> Result<(), Flaw>
    ensures { refused_flaw result ≡ front_flaw (flat_map (checks.class_name_flaws pool.now) (map index_view classes.now)) }
{
    for index in classes {
        check_class_name(pool, *index)?;
    }
    Ok(())
}

fn check_field_name(pool: &Pool, index: Index) -> Result<(), Flaw>
    ensures { refused_flaw result ≡ front_flaw (checks.name_flaws (utf8_of pool.now index.value) is_field_name index.at) }
{
    match pool.text(index.value) {
        Some(name) => check_name(name.is_field_name(), index.at),
        None => Ok(()),
    }
}

fn check_method_name(pool: &Pool, index: Index) -> Result<(), Flaw>
    ensures { refused_flaw result ≡ front_flaw (checks.name_flaws (utf8_of pool.now index.value) is_method_name index.at) }
{
    match pool.text(index.value) {
        Some(name) => check_name(name.is_method_name(), index.at),
        None => Ok(()),
    }
}

fn check_field_descriptor(pool: &Pool, index: Index) -> Result<(), Flaw>
    ensures { refused_flaw result ≡ front_flaw (checks.descriptor_flaws (utf8_of pool.now index.value) (λ d. type_numbers (field_type_of d)) index.at) }
{
    match pool.text(index.value) {
        Some(descriptor) => check_descriptor(descriptor.field_fault(), index.at),
        None => Ok(()),
    }
}

fn check_method_descriptor(pool: &Pool, index: Index) -> Result<(), Flaw>
    ensures { refused_flaw result ≡ front_flaw (checks.descriptor_flaws (utf8_of pool.now index.value) (λ d. method_type_numbers (method_type_of d)) index.at) }
{
    match pool.text(index.value) {
        Some(descriptor) => check_descriptor(descriptor.method_fault(), index.at),
        None => Ok(()),
    }
}

// The name and the descriptor of a field.
fn check_field(pool: &Pool, field: &RawMember) -> Result<(), Flaw>
    ensures { refused_flaw result ≡ front_flaw (checks.field_name_flaws pool.now (member_view field.now)) }
{
    check_field_name(pool, field.name)?;
    check_field_descriptor(pool, field.descriptor)
}

fn check_fields(pool: &Pool, fields: &[RawMember]) -> Result<(), Flaw>
    ensures { refused_flaw result ≡ front_flaw (flat_map (checks.field_name_flaws pool.now) (map member_view fields.now)) }
{
    for field in fields {
        check_field(pool, field)?;
    }
    Ok(())
}

// The name and the descriptor of a method.
fn check_method(pool: &Pool, method: &RawMember) -> Result<(), Flaw>
    ensures { refused_flaw result ≡ front_flaw (checks.method_name_flaws pool.now (member_view method.now)) }
{
    check_method_name(pool, method.name)?;
    check_method_descriptor(pool, method.descriptor)
}

fn check_methods(pool: &Pool, methods: &[RawMember]) -> Result<(), Flaw>
    ensures { refused_flaw result ≡ front_flaw (flat_map (checks.method_name_flaws pool.now) (map member_view methods.now)) }
{
    for method in methods {
        check_method(pool, method)?;
    }
    Ok(())
}

// The first flaw of the third pass.
pub(crate) fn check_names(class: &RawClass) -> Result<(), Flaw>
    ensures { refused_flaw result ≡ front_flaw (checks.third_pass (class_view class.now)) }
{
    let pool = &class.pool;
    check_class_name(pool, class.this_class)?;
    check_class_name(pool, class.super_class)?;
    check_class_names(pool, class.interfaces.as_slice())?;
    check_fields(pool, class.fields.as_slice())?;
    check_methods(pool, class.methods.as_slice())
}
