// What a statement itself does that a summary tells of.
ghost use Rattle.std.specs.Prelude.{◌≡◌};
ghost use Rattle.th_mod.specs.Effects.{effect_of, number_of};

use th_base::{ClassId, FieldId, SiteId};
use th_ir::Stmt;

// A part of a summary.
#[derive(Clone, Copy)]
pub(crate) enum Part {
    Fields,
    Statics,
    Elements,
    Sites,
}

// What a statement does.
#[derive(Clone, Copy)]
pub(crate) enum Effect {
    Nothing,
    WritesField(FieldId),
    WritesStatic(FieldId),
    WritesElement,
    Makes(SiteId),
    Calls,
    Initialises(ClassId),
}

// The number in the part that tells of elements. It has no other.
pub(crate) const ELEMENT: u32 = 0;

pub(crate) fn effect_of(stmt: &Stmt) -> Effect
    ensures { result ≡ effect_of stmt.now }
{
    match stmt {
        Stmt::PutStatic(field, _) => Effect::WritesStatic(*field),
        Stmt::PutField(_, field, _) => Effect::WritesField(*field),
        Stmt::PutElem(_, _) => Effect::WritesElement,
        Stmt::New(_, site) => Effect::Makes(*site),
        Stmt::NewArray(_, site, _) => Effect::Makes(*site),
        Stmt::Call(_, _, _, _) => Effect::Calls,
        Stmt::Init(class) => Effect::Initialises(*class),
        Stmt::Nop => Effect::Nothing,
        Stmt::Const(_, _) => Effect::Nothing,
        Stmt::Null(_) => Effect::Nothing,
        Stmt::Str(_, _) => Effect::Nothing,
        Stmt::Copy(_) => Effect::Nothing,
        Stmt::Arith(_, _, _, _) => Effect::Nothing,
        Stmt::Neg(_, _) => Effect::Nothing,
        Stmt::AddConst(_, _, _) => Effect::Nothing,
        Stmt::Narrow(_, _, _) => Effect::Nothing,
        Stmt::AnyInt(_) => Effect::Nothing,
        Stmt::Assume(_) => Effect::Nothing,
        Stmt::GetStatic(_, _) => Effect::Nothing,
        Stmt::GetField(_, _, _) => Effect::Nothing,
        Stmt::GetElem(_, _, _) => Effect::Nothing,
        Stmt::Length(_, _) => Effect::Nothing,
        Stmt::Cast(_, _, _) => Effect::Nothing,
        Stmt::InstanceOf(_, _, _) => Effect::Nothing,
        Stmt::Return(_) => Effect::Nothing,
        Stmt::Pick(_, _) => Effect::Nothing,
        Stmt::NonNull(_) => Effect::Nothing,
        Stmt::Halt => Effect::Nothing,
    }
}

// The number that an effect puts into a part of a summary.
pub(crate) fn number_of(effect: Effect, part: Part) -> Option<u32>
    ensures { result ≡ number_of effect part }
{
    match (effect, part) {
        (Effect::WritesField(field), Part::Fields) => Some(field.0),
        (Effect::WritesStatic(field), Part::Statics) => Some(field.0),
        (Effect::WritesElement, Part::Elements) => Some(ELEMENT),
        (Effect::Makes(site), Part::Sites) => Some(site.0),
        _ => None,
    }
}
