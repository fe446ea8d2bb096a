// The bytes of a whole class.
ghost use Rattle.std.specs.Prelude.{◌≡◌, ◌++◌, ◌≤◌, length, true, false, [], OnOk, IfOk, IfErr};
ghost use Rattle.std.specs.List.{flat_map, list_all};
ghost use Rattle.th_gen.specs.ClassText as spec;
ghost use Rattle.th_gen.specs.Items.{index_of};
ghost use Rattle.th_gen.specs.Placing.{starts_of, code_length};
ghost use Rattle.th_gen.specs.ClassValue.{class_of};
ghost use Rattle.th_gen.specs.Passing.{Passes};
ghost use Rattle.th_syntax.specs.ClassBytes.{magic};
ghost use Rattle.th_syntax.specs.ClassGrammar.{IsClassFile, are_bytes};
ghost use Rattle.th_gen.specs.Refusals.{IfRefused};

use crate::code::put_code;
use crate::draft::{ClassWriter, DraftField, DraftMethod};
use crate::item::PoolItem;
use crate::placing;
use crate::placing::{Starts, all_reach};
use crate::pool::{Pool, TooLarge};
use crate::write::{put_class_index, put_pool, put_text_index, put_u2, put_u4};
use std::alloc::{AllocError, Global};
use th_base::{Fail, Text};
use th_syntax::Instr;

// The flags, the name and the descriptor of a member.
fn put_header(
    alloc: Global,
    out: &mut Vec<u8>,
    pool: &Pool,
    access: u16,
    name: &Text,
    descriptor: &Text,
) -> Result<(), AllocError>
    ensures { OnOk result (out.new.items ≡ out.old.items ++ (spec.u2 access ++ (spec.u2 (index_of pool.now.items.keys (PoolItem.Utf8 name.now)) ++ spec.u2 (index_of pool.now.items.keys (PoolItem.Utf8 descriptor.now))))) }
{
    put_u2(out, access)?;
    put_text_index(alloc, out, pool, name)?;
    put_text_index(alloc, out, pool, descriptor)?;
    Ok(())
}

fn put_field(
    alloc: Global,
    out: &mut Vec<u8>,
    pool: &Pool,
    field: &DraftField,
) -> Result<(), AllocError>
    ensures { OnOk result (out.new.items ≡ out.old.items ++ spec.field_bytes pool.now.items.keys field.now) }
{
    put_header(
        alloc,
        out,
        pool,
        field.access,
        &field.name,
        &field.descriptor,
    )?;
    put_u2(out, 0)?;
    Ok(())
}

fn put_fields(
    alloc: Global,
    out: &mut Vec<u8>,
    pool: &Pool,
    fields: &[DraftField],
) -> Result<(), AllocError>
    ensures { OnOk result (out.new.items ≡ out.old.items ++ flat_map (spec.field_bytes pool.now.items.keys) fields.now) }
{
    for field in fields {
        put_field(alloc, out, pool, field)?;
    }
    Ok(())
}

// The content of a Code attribute.
fn put_content(
    alloc: Global,
    out: &mut Vec<u8>,
    pool: &Pool,
    method: &DraftMethod,
    starts: &Starts,
) -> Result<(), AllocError>
    requires offsets { starts.now.offsets.items ≡ starts_of pool.now.items.keys method.now.instrs }
    requires length { starts.now.length ≡ code_length pool.now.items.keys method.now.instrs }
    requires most { starts.now.length ≤ 65535 }
    ensures { OnOk result (out.new.items ≡ out.old.items ++ spec.code_content pool.now.items.keys method.now) }
{
    put_u2(out, method.max_stack)?;
    put_u2(out, method.max_locals)?;
    put_u4(out, u32::from(starts.length))?;
    put_code(
        alloc,
        out,
        pool,
        starts.offsets.as_slice(),
        method.instrs.as_slice(),
    )?;
    put_u2(out, 0)?;
    put_u2(out, 0)?;
    Ok(())
}

// A Code attribute.
fn put_attribute(
    alloc: Global,
    out: &mut Vec<u8>,
    pool: &Pool,
    method: &DraftMethod,
    starts: &Starts,
) -> Result<(), AllocError>
    requires offsets { starts.now.offsets.items ≡ starts_of pool.now.items.keys method.now.instrs }
    requires length { starts.now.length ≡ code_length pool.now.items.keys method.now.instrs }
    requires most { starts.now.length ≤ 65535 }
    ensures { OnOk result (out.new.items ≡ out.old.items ++ spec.attribute_bytes pool.now.items.keys method.now method.now.instrs) }
{
    if method.instrs.is_empty() {
        put_u2(out, 0)?;
        return Ok(());
    }
    put_u2(out, 1)?;
    let name = Text::from_slice(alloc, b"Code")?;
    put_text_index(alloc, out, pool, &name)?;
    put_u4(out, u32::from(starts.length) + 12)?;
    put_content(alloc, out, pool, method, starts)?;
    Ok(())
}

fn put_method(
    alloc: Global,
    out: &mut Vec<u8>,
    pool: &Pool,
    method: &DraftMethod,
) -> Result<(), Fail<TooLarge>>
    ensures ok { OnOk result (out.new.items ≡ out.old.items ++ spec.method_bytes pool.now.items.keys method.now) }
    ensures fits { OnOk result (spec.fits_method pool.now.items.keys method.now ≡ true) }
    ensures too_large { IfErr result (λ fail. IfRefused fail (spec.fits_method pool.now.items.keys method.now ≡ false)) }
{
    let starts = match placing::starts_of(alloc, pool, method.instrs.as_slice())? {
        Some(starts) => starts,
        None => return Err(Fail::Refused(TooLarge)),
    };
    if !all_reach(starts.offsets.as_slice(), method.instrs.as_slice()) {
        return Err(Fail::Refused(TooLarge));
    }
    put_header(
        alloc,
        out,
        pool,
        method.access,
        &method.name,
        &method.descriptor,
    )?;
    put_attribute(alloc, out, pool, method, &starts)?;
    Ok(())
}

fn put_methods(
    alloc: Global,
    out: &mut Vec<u8>,
    pool: &Pool,
    methods: &[DraftMethod],
) -> Result<(), Fail<TooLarge>>
    ensures ok { OnOk result (out.new.items ≡ out.old.items ++ flat_map (spec.method_bytes pool.now.items.keys) methods.now) }
    ensures fits { OnOk result (list_all (spec.fits_method pool.now.items.keys) methods.now ≡ true) }
    ensures too_large { IfErr result (λ fail. IfRefused fail (list_all (spec.fits_method pool.now.items.keys) methods.now ≡ false)) }
{
    for method in methods {
        put_method(alloc, out, pool, method)?;
    }
    Ok(())
}

// The items in front of the pool.
fn put_version(out: &mut Vec<u8>) -> Result<(), AllocError>
    ensures { OnOk result (out.new.items ≡ out.old.items ++ (magic ++ (spec.u2 0 ++ spec.u2 52))) }
{
    out.extend_from_slice(&[0xca, 0xfe, 0xba, 0xbe])?;
    put_u2(out, 0)?;
    put_u2(out, 52)?;
    Ok(())
}

// The items behind the pool and in front of the fields.
fn put_class(
    alloc: Global,
    out: &mut Vec<u8>,
    pool: &Pool,
    class: &ClassWriter,
) -> Result<(), AllocError>
    ensures { OnOk result (out.new.items ≡ out.old.items ++ (spec.u2 spec.class_access ++ (spec.u2 (index_of pool.now.items.keys (PoolItem.ClassName class.now.name)) ++ (spec.u2 (index_of pool.now.items.keys (PoolItem.ClassName class.now.super_name)) ++ spec.u2 0)))) }
{
    put_u2(out, 0x0021)?;
    put_class_index(alloc, out, pool, &class.name)?;
    put_class_index(alloc, out, pool, &class.super_name)?;
    put_u2(out, 0)?;
    Ok(())
}

// The fields and the methods of a class.
fn put_members(
    alloc: Global,
    out: &mut Vec<u8>,
    pool: &Pool,
    class: &ClassWriter,
) -> Result<(), Fail<TooLarge>>
    ensures ok { OnOk result (out.new.items ≡ out.old.items ++ ((spec.u2 (length class.now.fields) ++ flat_map (spec.field_bytes pool.now.items.keys) class.now.fields) ++ (spec.u2 (length class.now.methods) ++ flat_map (spec.method_bytes pool.now.items.keys) class.now.methods))) }
    ensures fits { OnOk result (spec.fits_members pool.now.items.keys class.now ≡ true) }
    ensures too_large { IfErr result (λ fail. IfRefused fail (spec.fits_members pool.now.items.keys class.now ≡ false)) }
{
    let fields = class.fields.as_slice();
    let methods = class.methods.as_slice();
    if fields.len() > 65_535 {
        return Err(Fail::Refused(TooLarge));
    }
    if methods.len() > 65_535 {
        return Err(Fail::Refused(TooLarge));
    }
    put_u2(out, fields.len() as u16)?;
    put_fields(alloc, out, pool, fields)?;
    put_u2(out, methods.len() as u16)?;
    put_methods(alloc, out, pool, methods)?;
    Ok(())
}

// The bytes of a class.
fn class_bytes(alloc: Global, class: &ClassWriter) -> Result<Vec<u8>, Fail<TooLarge>>
    ensures written { IfOk result (λ bytes. bytes.items ≡ spec.class_bytes class.now) }
    ensures fits { IfOk result (λ bytes. spec.fits class.now ≡ true) }
    ensures too_large { IfErr result (λ fail. IfRefused fail (spec.fits class.now ≡ false)) }
{
    let pool = Pool::of(alloc, class)?;
    let mut out = Vec::new(alloc);
    put_version(&mut out)?;
    put_pool(alloc, &mut out, &pool)?;
    put_class(alloc, &mut out, &pool, class)?;
    put_members(alloc, &mut out, &pool, class)?;
    put_u2(&mut out, 0)?;
    Ok(out)
}

// What a slice of bytes holds is bytes: it serves the proof alone.
fn hold_bytes(bytes: &[u8])
    ensures { are_bytes bytes.now ≡ true }
{}

impl ClassWriter {
    /// The bytes of the class. Where its names and instructions pass the checks of class files they
    /// are a class file that stands for it.
    ///
    /// `TooLarge` exactly where a count, a name's length or a branch's offset has no room in its
    /// field, or a method's code is longer than 65,535 bytes.
    pub fn finish(self, alloc: Global) -> Result<Vec<u8>, Fail<TooLarge>>
        ensures written { IfOk result (λ bytes. bytes.items ≡ spec.class_bytes self) }
        ensures fits { IfOk result (λ bytes. spec.fits self ≡ true) }
        ensures too_large { IfErr result (λ fail. IfRefused fail (spec.fits self ≡ false)) }
        ensures stands { IfOk result (λ bytes. Passes self → IsClassFile bytes.items (class_of self)) }
    {
        let bytes = class_bytes(alloc, &self)?;
        // For the proof alone: the bytes are bytes.
        hold_bytes(bytes.as_slice());
        Ok(bytes)
    }
}
