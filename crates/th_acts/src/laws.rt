// A law of the table.
ghost use Rattle.std.specs.Prelude.{◌≡◌, List};
ghost use Rattle.th_syntax.specs.declared.class_file.ClassFile.{ClassFile};
ghost use Rattle.th_syntax.specs.declared.instr.Instr.{Instr};
ghost use Rattle.th_syntax.specs.Effects.{Top};
ghost use Rattle.th_syntax.specs.Step.{effect};
ghost use Rattle.th_resolved.specs.Operands.{operand_of};
ghost use Rattle.th_acts.specs.Acts.{effect_with, IsPlain};

/// What an instruction does by what the table has of it is what it does by the machine's definitions,
/// where it calls no method with floats.
pub fn operands_are_found()
    ensures { (files : List ClassFile) (t : Top) (i : Instr) → IsPlain i → effect_with files t (operand_of files t.method i) i ≡ effect files t i }
{}
