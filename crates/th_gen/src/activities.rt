// The Activity classes of the generated program.
ghost use Rattle.std.specs.Prelude.{◌≡◌, ◌∷◌, [], IfOk};
ghost use Rattle.th_gen.specs.Generated as spec;

use crate::draft::{ClassWriter, DraftField, DraftMethod};
use crate::parts::{field, member, method, on_create, plain_constructor};
use crate::vector::vec_member;
use std::alloc::{AllocError, Global};
use th_base::{Relation, Seq, Text};
use th_syntax::{Instr, MemberRef, StackOp};

fn kept_field(alloc: Global, owner: &Text) -> Result<MemberRef, AllocError>
    ensures { IfOk result (λ m. m ≡ spec.kept_field owner.now) }
{
    member(alloc, owner, b"s", b"Ljava/lang/Object;")
}

fn number_field(alloc: Global, owner: &Text) -> Result<MemberRef, AllocError>
    ensures { IfOk result (λ m. m ≡ spec.number_field owner.now) }
{
    member(alloc, owner, b"n", b"I")
}

fn activity_class(
    alloc: Global,
    name: Text,
    fields: Vec<DraftField>,
    methods: Vec<DraftMethod>,
) -> Result<ClassWriter, AllocError>
    ensures { IfOk result (λ class. class ≡ record { name = name; super_name = spec.activity_name; fields = fields.items; methods = methods.items }) }
{
    Ok(ClassWriter {
        name,
        super_name: Text::from_slice(alloc, b"android/app/Activity")?,
        fields: Seq::from_vec(fields),
        methods: Seq::from_vec(methods),
    })
}

fn activity_constructor(alloc: Global) -> Result<DraftMethod, AllocError>
    ensures { IfOk result (λ m. m ≡ spec.plain_constructor spec.activity_name) }
{
    plain_constructor(alloc, &Text::from_slice(alloc, b"android/app/Activity")?)
}

// The handler that keeps the object.
fn keeping_handler(alloc: Global, owner: &Text) -> Result<DraftMethod, AllocError>
    ensures { IfOk result (λ m. m ≡ spec.keeping_handler owner.now) }
{
    let instrs = vec![in alloc;
        Instr::ALoad(0),
        Instr::PutStatic(kept_field(alloc, owner)?),
        Instr::Return,
    ]?;
    on_create(alloc, 1, instrs)
}

fn kept_fields(alloc: Global) -> Result<Vec<DraftField>, AllocError>
    ensures { IfOk result (λ fields. fields.items ≡ spec.static_field spec.kept_name spec.object_type ∷ []) }
{
    let kept = field(alloc, 8, b"s", b"Ljava/lang/Object;")?;
    Ok(vec![in alloc; kept]?)
}

fn keeping_class(alloc: Global, name: Text) -> Result<ClassWriter, AllocError>
    ensures { IfOk result (λ class. class ≡ spec.keeping_class name) }
{
    let fields = kept_fields(alloc)?;
    let constructor = activity_constructor(alloc)?;
    let handler = keeping_handler(alloc, &name)?;
    let methods = vec![in alloc; constructor, handler]?;
    activity_class(alloc, name, fields, methods)
}

fn guarded_code(
    alloc: Global,
    below: MemberRef,
    above: MemberRef,
    kept: MemberRef,
) -> Result<Vec<Instr>, AllocError>
    ensures { IfOk result (λ code. code.items ≡ Instr.GetStatic below ∷ Instr.IfZero Relation.Ge 6 ∷ Instr.GetStatic above ∷ Instr.IfZero Relation.Le 6 ∷ Instr.ALoad 0 ∷ Instr.PutStatic kept ∷ Instr.Return ∷ []) }
{
    Ok(vec![in alloc;
        Instr::GetStatic(below),
        Instr::IfZero(Relation::Ge, 6),
        Instr::GetStatic(above),
        Instr::IfZero(Relation::Le, 6),
        Instr::ALoad(0),
        Instr::PutStatic(kept),
        Instr::Return,
    ]?)
}

// The handler that keeps the object where a number is below 0 and above 0.
fn guarded_handler(alloc: Global, owner: &Text) -> Result<DraftMethod, AllocError>
    ensures { IfOk result (λ m. m ≡ spec.guarded_handler owner.now) }
{
    let below = number_field(alloc, owner)?;
    let above = number_field(alloc, owner)?;
    let kept = kept_field(alloc, owner)?;
    let code = guarded_code(alloc, below, above, kept)?;
    on_create(alloc, 1, code)
}

fn guarded_fields(alloc: Global) -> Result<Vec<DraftField>, AllocError>
    ensures { IfOk result (λ fields. fields.items ≡ spec.static_field spec.kept_name spec.object_type ∷ spec.static_field spec.number_name spec.number_type ∷ []) }
{
    let kept = field(alloc, 8, b"s", b"Ljava/lang/Object;")?;
    let number = field(alloc, 8, b"n", b"I")?;
    Ok(vec![in alloc; kept, number]?)
}

fn guarded_class(alloc: Global, name: Text) -> Result<ClassWriter, AllocError>
    ensures { IfOk result (λ class. class ≡ spec.guarded_class name) }
{
    let fields = guarded_fields(alloc)?;
    let constructor = activity_constructor(alloc)?;
    let handler = guarded_handler(alloc, &name)?;
    let methods = vec![in alloc; constructor, handler]?;
    activity_class(alloc, name, fields, methods)
}

fn vec_keeper_code(
    alloc: Global,
    vec_name: Text,
    make: MemberRef,
    kept: MemberRef,
) -> Result<Vec<Instr>, AllocError>
    ensures { IfOk result (λ code. code.items ≡ Instr.New vec_name ∷ Instr.Stack StackOp.Dup ∷ Instr.InvokeSpecial make ∷ Instr.PutStatic kept ∷ Instr.Return ∷ []) }
{
    Ok(vec![in alloc;
        Instr::New(vec_name),
        Instr::Stack(StackOp::Dup),
        Instr::InvokeSpecial(make),
        Instr::PutStatic(kept),
        Instr::Return,
    ]?)
}

// The class initialiser that keeps a vector.
fn vec_keeper(alloc: Global, owner: &Text) -> Result<DraftMethod, AllocError>
    ensures { IfOk result (λ m. m ≡ spec.vec_keeper owner.now) }
{
    let make = vec_member(alloc, b"<init>", b"()V")?;
    let kept = kept_field(alloc, owner)?;
    let vec_name = Text::from_slice(alloc, b"gen/Vec")?;
    let code = vec_keeper_code(alloc, vec_name, make, kept)?;
    method(alloc, 8, b"<clinit>", b"()V", 2, 0, code)
}

fn pushing_code(
    alloc: Global,
    vec_name: Text,
    make: MemberRef,
    push: MemberRef,
) -> Result<Vec<Instr>, AllocError>
    ensures { IfOk result (λ code. code.items ≡ Instr.New vec_name ∷ Instr.Stack StackOp.Dup ∷ Instr.InvokeSpecial make ∷ Instr.ALoad 0 ∷ Instr.InvokeVirtual push ∷ Instr.Return ∷ []) }
{
    Ok(vec![in alloc;
        Instr::New(vec_name),
        Instr::Stack(StackOp::Dup),
        Instr::InvokeSpecial(make),
        Instr::ALoad(0),
        Instr::InvokeVirtual(push),
        Instr::Return,
    ]?)
}

// The handler that pushes the object to a vector.
fn pushing_handler(alloc: Global) -> Result<DraftMethod, AllocError>
    ensures { IfOk result (λ m. m ≡ spec.pushing_handler) }
{
    let make = vec_member(alloc, b"<init>", b"()V")?;
    let push = vec_member(alloc, b"push", b"(Ljava/lang/Object;)V")?;
    let vec_name = Text::from_slice(alloc, b"gen/Vec")?;
    let code = pushing_code(alloc, vec_name, make, push)?;
    on_create(alloc, 2, code)
}

fn pushing_class(alloc: Global, name: Text) -> Result<ClassWriter, AllocError>
    ensures { IfOk result (λ class. class ≡ spec.pushing_class name) }
{
    let fields = kept_fields(alloc)?;
    let constructor = activity_constructor(alloc)?;
    let keeper = vec_keeper(alloc, &name)?;
    let handler = pushing_handler(alloc)?;
    let methods = vec![in alloc; constructor, keeper, handler]?;
    activity_class(alloc, name, fields, methods)
}

// The name of the class of a number.
fn class_name(alloc: Global, number: u32) -> Result<Text, AllocError>
    ensures { IfOk result (λ name. name ≡ spec.class_name number) }
{
    let name = format!(in alloc; "gen/A{number}")?;
    Text::from_vec(name.into_bytes())
}

fn class_of_kind(alloc: Global, kind: u32, name: Text) -> Result<ClassWriter, AllocError>
    ensures { IfOk result (λ class. class ≡ spec.class_of_kind kind name) }
{
    match kind {
        0 => keeping_class(alloc, name),
        1 => guarded_class(alloc, name),
        _ => pushing_class(alloc, name),
    }
}

// The Activity class of a number.
pub(crate) fn class_numbered(alloc: Global, number: u32) -> Result<ClassWriter, AllocError>
    ensures { IfOk result (λ class. class ≡ spec.class_numbered number) }
{
    let name = class_name(alloc, number)?;
    class_of_kind(alloc, number % 3, name)
}
