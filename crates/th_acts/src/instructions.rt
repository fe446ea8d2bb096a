// What each instruction does.
ghost use Rattle.std.specs.Prelude.{◌≡◌, IfOk};
ghost use Rattle.th_syntax.specs.Effects.{Returns, Ends, GoesOn};
ghost use Rattle.th_acts.specs.Acts.{Does, effect_with};

use crate::act::Act;
use crate::arrays::{
    gets_length, loads_element, loads_long_element, makes_array, stores_elements,
    stores_long_element,
};
use crate::branches::{
    jumps, returns_int, returns_long, returns_reference, switches_lookup, switches_table,
    tests_int, tests_ints, tests_not_null, tests_null, tests_other, tests_same,
};
use crate::calls::{invokes_selected, invokes_special, invokes_static};
use crate::computing::{
    compares, computes_int, computes_long, halves, narrows, negates_int, negates_long, widens,
};
use crate::fields::{gets_field, gets_static, puts_field, puts_static};
use crate::look::Look;
use crate::moves::{
    gives, gives_int, gives_long, gives_string, increments, loads_int, loads_long, loads_reference,
    moves_stack, stores_int, stores_long, stores_reference,
};
use crate::objects::{enters_monitor, makes_object};
use crate::types::{casts, tests_type};
use std::alloc::AllocError;
use th_resolved::Operand;
use th_syntax::{Instr, Value};

/// What an instruction does, by what it names in the program. Takes no memory; but an array whose
/// length is no int counts as want of memory.
pub fn act_of<'b>(
    look: Look<'_>,
    instr: &Instr,
    operand: &'b Operand,
) -> Result<Act<'b>, AllocError>
    ensures { IfOk result (λ a. Does look.entry a (λ t. effect_with look.entry.resolved.now t operand.now instr.now)) }
{
    Ok(match instr {
        Instr::Nop => Act::Drops { taken: 0 },
        Instr::Null => gives(look, Value::Null),
        Instr::Int(n) => gives_int(look, *n),
        Instr::Long(n) => gives_long(look, *n),
        Instr::Str(_) => gives_string(look, operand),
        Instr::ILoad(local) => loads_int(look, *local),
        Instr::LLoad(local) => loads_long(look, *local),
        Instr::ALoad(local) => loads_reference(look, *local),
        Instr::IStore(local) => stores_int(look, *local),
        Instr::LStore(local) => stores_long(look, *local),
        Instr::AStore(local) => stores_reference(look, *local),
        Instr::ArrayLoad(elem) => loads_element(look, *elem),
        Instr::LArrayLoad => loads_long_element(look),
        Instr::ArrayStore(elem) => stores_elements(look, *elem),
        Instr::LArrayStore => stores_long_element(look),
        Instr::Stack(op) => moves_stack(look, *op),
        Instr::Arith(op) => computes_int(look, *op),
        Instr::LArith(op) => computes_long(look, *op),
        Instr::Neg => negates_int(look),
        Instr::LNeg => negates_long(look),
        Instr::Inc(local, by) => increments(look, *local, *by),
        Instr::Narrow(op) => narrows(look, *op),
        Instr::I2L => widens(look),
        Instr::L2I => halves(look),
        Instr::LCmp => compares(look),
        Instr::IfZero(relation, target) => tests_int(look, *relation, *target),
        Instr::IfInts(relation, target) => tests_ints(look, *relation, *target),
        Instr::IfSame(target) => tests_same(look, *target),
        Instr::IfOther(target) => tests_other(look, *target),
        Instr::IfNull(target) => tests_null(look, *target),
        Instr::IfNotNull(target) => tests_not_null(look, *target),
        Instr::Goto(target) => jumps(look, *target),
        Instr::TableSwitch {
            low,
            targets,
            other,
        } => switches_table(look, *low, targets, *other),
        Instr::LookupSwitch { pairs, other } => switches_lookup(look, pairs, *other),
        Instr::IReturn => returns_int(look),
        Instr::LReturn => returns_long(look),
        Instr::AReturn => returns_reference(look),
        Instr::Return => Act::Returns(None),
        Instr::GetStatic(_) => gets_static(look, operand),
        Instr::PutStatic(_) => puts_static(look, operand),
        Instr::GetField(_) => gets_field(look, operand),
        Instr::PutField(_) => puts_field(look, operand),
        Instr::InvokeVirtual(_) => invokes_selected(look, operand),
        Instr::InvokeSpecial(_) => invokes_special(look, operand),
        Instr::InvokeInterface(_) => invokes_selected(look, operand),
        Instr::InvokeStatic(_) => invokes_static(look, operand),
        Instr::New(_) => makes_object(look, operand),
        Instr::NewArray(_) => makes_array(look, operand),
        Instr::ANewArray(_) => makes_array(look, operand),
        Instr::ArrayLength => return gets_length(look),
        Instr::Throw => Act::Ends,
        Instr::CheckCast(name) => casts(look, name),
        Instr::InstanceOf(name) => tests_type(look, name),
        Instr::MonitorEnter => enters_monitor(look),
        Instr::MonitorExit => enters_monitor(look),
    })
}
