// What holds of the code of all class files, as the calls of this crate ask it.
ghost use Rattle.std.specs.Prelude.{◌≡◌, ℕ, List, Some, Contains};
ghost use Rattle.th_syntax.specs.declared.class_file.ClassFile.{ClassFile};
ghost use Rattle.th_syntax.specs.declared.class_file.Code.{Code};
ghost use Rattle.th_syntax.specs.declared.class_file.Member.{Member};
ghost use Rattle.th_syntax.specs.ClassGrammar.{IsClassFile};
ghost use Rattle.th_syntax.specs.Program.{built_in_classes};
ghost use Rattle.th_kinds.specs.Flowing.{FlowsWell};

/// Control stays within the code of each method of a class file, and of each built-in class: offsets
/// ascend from 0, and each jump lands on an instruction.
pub fn class_files_flow_well()
    ensures read { (bytes : List ℕ) (class : ClassFile) (m : Member) (code : Code) → IsClassFile bytes class → Contains class.methods m → m.code ≡ Some code → FlowsWell code.instrs }
    ensures built_in { (class : ClassFile) (m : Member) (code : Code) → Contains built_in_classes class → Contains class.methods m → m.code ≡ Some code → FlowsWell code.instrs }
{}
