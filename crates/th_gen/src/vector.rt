// The vector of the generated program.
ghost use Rattle.std.specs.Prelude.{◌≡◌, ◌∷◌, [], IfOk, pos, negsuc};
ghost use Rattle.th_gen.specs.Generated as spec;

use crate::draft::{ClassWriter, DraftField, DraftMethod};
use crate::parts::{constructor, field, member, method};
use std::alloc::{AllocError, Global};
use th_base::{Elem, Relation, Seq, Text};
use th_syntax::{Instr, MemberRef};

// A member of the vector.
pub(crate) fn vec_member(
    alloc: Global,
    name: &[u8],
    descriptor: &[u8],
) -> Result<MemberRef, AllocError>
    ensures { IfOk result (λ m. m ≡ spec.member spec.vec_name name.now descriptor.now) }
{
    member(
        alloc,
        &Text::from_slice(alloc, b"gen/Vec")?,
        name,
        descriptor,
    )
}

fn size_field(alloc: Global) -> Result<MemberRef, AllocError>
    ensures { IfOk result (λ m. m ≡ spec.size_field) }
{
    vec_member(alloc, b"sz", b"I")
}

fn capacity_field(alloc: Global) -> Result<MemberRef, AllocError>
    ensures { IfOk result (λ m. m ≡ spec.capacity_field) }
{
    vec_member(alloc, b"cap", b"I")
}

fn table_field(alloc: Global) -> Result<MemberRef, AllocError>
    ensures { IfOk result (λ m. m ≡ spec.table_field) }
{
    vec_member(alloc, b"tbl", b"[Ljava/lang/Object;")
}

fn empty_field(alloc: Global) -> Result<MemberRef, AllocError>
    ensures { IfOk result (λ m. m ≡ spec.empty_field) }
{
    vec_member(alloc, b"EMPTY", b"[Ljava/lang/Object;")
}

fn vec_constructor_code(
    alloc: Global,
    object: MemberRef,
    size: MemberRef,
    capacity: MemberRef,
    empty: MemberRef,
    table: MemberRef,
) -> Result<Vec<Instr>, AllocError>
    ensures { IfOk result (λ code. code.items ≡ Instr.ALoad 0 ∷ Instr.InvokeSpecial object ∷ Instr.ALoad 0 ∷ Instr.Int (pos 0) ∷ Instr.PutField size ∷ Instr.ALoad 0 ∷ Instr.Int (negsuc 0) ∷ Instr.PutField capacity ∷ Instr.ALoad 0 ∷ Instr.GetStatic empty ∷ Instr.PutField table ∷ Instr.Return ∷ []) }
{
    Ok(vec![in alloc;
        Instr::ALoad(0),
        Instr::InvokeSpecial(object),
        Instr::ALoad(0),
        Instr::Int(0),
        Instr::PutField(size),
        Instr::ALoad(0),
        Instr::Int(-1),
        Instr::PutField(capacity),
        Instr::ALoad(0),
        Instr::GetStatic(empty),
        Instr::PutField(table),
        Instr::Return,
    ]?)
}

fn vec_constructor(alloc: Global) -> Result<DraftMethod, AllocError>
    ensures { IfOk result (λ m. m ≡ spec.vec_constructor) }
{
    let object = constructor(alloc, &Text::from_slice(alloc, b"java/lang/Object")?)?;
    let size = size_field(alloc)?;
    let capacity = capacity_field(alloc)?;
    let empty = empty_field(alloc)?;
    let table = table_field(alloc)?;
    let code = vec_constructor_code(alloc, object, size, capacity, empty, table)?;
    method(alloc, 1, b"<init>", b"()V", 2, 1, code)
}

fn vec_push_code(
    alloc: Global,
    size: MemberRef,
    capacity: MemberRef,
    table: MemberRef,
    place: MemberRef,
) -> Result<Vec<Instr>, AllocError>
    ensures { IfOk result (λ code. code.items ≡ Instr.ALoad 0 ∷ Instr.GetField size ∷ Instr.ALoad 0 ∷ Instr.GetField capacity ∷ Instr.IfInts Relation.Ge 11 ∷ Instr.ALoad 0 ∷ Instr.GetField table ∷ Instr.ALoad 0 ∷ Instr.GetField place ∷ Instr.ALoad 1 ∷ Instr.ArrayStore Elem.Ref ∷ Instr.Return ∷ []) }
{
    Ok(vec![in alloc;
        Instr::ALoad(0),
        Instr::GetField(size),
        Instr::ALoad(0),
        Instr::GetField(capacity),
        Instr::IfInts(Relation::Ge, 11),
        Instr::ALoad(0),
        Instr::GetField(table),
        Instr::ALoad(0),
        Instr::GetField(place),
        Instr::ALoad(1),
        Instr::ArrayStore(Elem::Ref),
        Instr::Return,
    ]?)
}

fn vec_push(alloc: Global) -> Result<DraftMethod, AllocError>
    ensures { IfOk result (λ m. m ≡ spec.vec_push) }
{
    let size = size_field(alloc)?;
    let capacity = capacity_field(alloc)?;
    let table = table_field(alloc)?;
    let place = size_field(alloc)?;
    let code = vec_push_code(alloc, size, capacity, table, place)?;
    method(alloc, 1, b"push", b"(Ljava/lang/Object;)V", 3, 2, code)
}

fn vec_initialiser_code(
    alloc: Global,
    object: Text,
    empty: MemberRef,
) -> Result<Vec<Instr>, AllocError>
    ensures { IfOk result (λ code. code.items ≡ Instr.Int (pos 1) ∷ Instr.ANewArray object ∷ Instr.PutStatic empty ∷ Instr.Return ∷ []) }
{
    Ok(vec![in alloc;
        Instr::Int(1),
        Instr::ANewArray(object),
        Instr::PutStatic(empty),
        Instr::Return,
    ]?)
}

fn vec_initialiser(alloc: Global) -> Result<DraftMethod, AllocError>
    ensures { IfOk result (λ m. m ≡ spec.vec_initialiser) }
{
    let object = Text::from_slice(alloc, b"java/lang/Object")?;
    let empty = empty_field(alloc)?;
    let code = vec_initialiser_code(alloc, object, empty)?;
    method(alloc, 8, b"<clinit>", b"()V", 1, 0, code)
}

fn vec_fields(alloc: Global) -> Result<Seq<DraftField>, AllocError>
    ensures { IfOk result (λ fields. fields ≡ spec.vec_class.fields) }
{
    Ok(Seq::from_vec(vec![in alloc;
        field(alloc, 8, b"EMPTY", b"[Ljava/lang/Object;")?,
        field(alloc, 0, b"sz", b"I")?,
        field(alloc, 0, b"cap", b"I")?,
        field(alloc, 0, b"tbl", b"[Ljava/lang/Object;")?,
    ]?))
}

fn vec_methods(alloc: Global) -> Result<Seq<DraftMethod>, AllocError>
    ensures { IfOk result (λ methods. methods ≡ spec.vec_class.methods) }
{
    let constructor = vec_constructor(alloc)?;
    let push = vec_push(alloc)?;
    let initialiser = vec_initialiser(alloc)?;
    let methods = vec![in alloc; constructor, push, initialiser]?;
    Ok(Seq::from_vec(methods))
}

// The vector.
pub(crate) fn vec_class(alloc: Global) -> Result<ClassWriter, AllocError>
    ensures { IfOk result (λ class. class ≡ spec.vec_class) }
{
    let name = Text::from_slice(alloc, b"gen/Vec")?;
    let super_name = Text::from_slice(alloc, b"java/lang/Object")?;
    let fields = vec_fields(alloc)?;
    let methods = vec_methods(alloc)?;
    Ok(ClassWriter {
        name,
        super_name,
        fields,
        methods,
    })
}
