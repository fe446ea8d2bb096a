// What the definitions of class files keep: functions that take nothing and do nothing, whose contracts hold.
ghost use Rattle.std.specs.Prelude.{◌≡◌, ◌↔◌, ◌⊎◌, ◌<◌, ℕ, List, [], ◌∷◌, Some, Result, Ok, Err, IsTrue};
ghost use Rattle.std.specs.List.{All};
ghost use Rattle.th_syntax.specs.declared.class_file.ClassFile.{ClassFile};
ghost use Rattle.th_syntax.specs.declared.instr.Instr.{Instr};
ghost use Rattle.th_syntax.specs.declared.refusal.Flaw.{Flaw};
ghost use Rattle.th_syntax.specs.Flaws.{Ascend, IsFirst};
ghost use Rattle.th_syntax.specs.Forms.{Form, Stands, IsFlawed, read};
ghost use Rattle.th_syntax.specs.ClassBytes.{Pool, RawClass, RawCode};
ghost use Rattle.th_syntax.specs.CodeBytes.{Spelled};
ghost use Rattle.th_syntax.specs.Descriptors.{FieldType, MethodType, IsFieldDescriptor, IsMethodDescriptor, field_type_of, method_type_of};
ghost use Rattle.th_syntax.specs.Decoding.{AreSpelled, instrs_in, flaws_in};
ghost use Rattle.th_syntax.specs.Checks.{second_pass, third_pass, fourth_pass};
ghost use Rattle.th_syntax.specs.ClassGrammar.{IsClassFile, IsWhole, are_bytes};
ghost use Rattle.th_syntax.specs.FirstFlaw.{FirstFlaw};
ghost use Rattle.th_syntax.specs.Reader.{reading};

/// Reading bytes gives a value exactly where they are a class file that stands for it, and a flaw
/// exactly where it is their first.
pub fn one_reading()
    ensures value { (bytes : List ℕ) (v : ClassFile) → IsTrue (are_bytes bytes) → (reading bytes ≡ Ok v) ↔ IsClassFile bytes v }
    ensures flaw { (bytes : List ℕ) (flaw : Flaw) → (reading bytes ≡ Err flaw) ↔ FirstFlaw bytes flaw }
{}

/// Bytes stand for at most one class file.
pub fn one_value()
    ensures { (bytes : List ℕ) (v w : ClassFile) → IsClassFile bytes v → IsClassFile bytes w → v ≡ w }
{}

/// Each entry of a class file is a byte.
pub fn entries_are_bytes()
    ensures { (bytes : List ℕ) (v : ClassFile) → IsClassFile bytes v → All (λ b. b < 256) bytes }
{}

/// Bytes have at most one first flaw.
pub fn one_flaw()
    ensures { (bytes : List ℕ) (flaw other : Flaw) → FirstFlaw bytes flaw → FirstFlaw bytes other → flaw ≡ other }
{}

/// Bytes that have a first flaw stand for no class file.
pub fn flawed_stands_for_none()
    ensures { (bytes : List ℕ) (flaw : Flaw) (v : ClassFile) → FirstFlaw bytes flaw → IsClassFile bytes v → ⊥ }
{}

/// Bytes stand for a class file, or they have a first flaw: nothing lies between.
pub fn flawed_or_whole()
    ensures { (bytes : List ℕ) → IsTrue (are_bytes bytes) → ((v : ClassFile) × IsClassFile bytes v) ⊎ ((flaw : Flaw) × FirstFlaw bytes flaw) }
{}

/// Reading the form of the constant pool gives what stands at the front of the bytes by it, or what
/// is wrong there.
pub fn pool_reading()
    ensures value { (form : Form Pool) (at : ℕ) (bytes : List ℕ) (value : Pool) (behind : ℕ) (others : List ℕ) → (read form at bytes ≡ Ok (value, behind, others)) ↔ Stands form at bytes value behind others }
    ensures flaw { (form : Form Pool) (at : ℕ) (bytes : List ℕ) (flaw : Flaw) → (read form at bytes ≡ Err flaw) ↔ IsFlawed form at bytes flaw }
{}

/// The same of the form of a class file behind its magic number.
pub fn class_reading()
    ensures value { (form : Form RawClass) (at : ℕ) (bytes : List ℕ) (value : RawClass) (behind : ℕ) (others : List ℕ) → (read form at bytes ≡ Ok (value, behind, others)) ↔ Stands form at bytes value behind others }
    ensures flaw { (form : Form RawClass) (at : ℕ) (bytes : List ℕ) (flaw : Flaw) → (read form at bytes ≡ Err flaw) ↔ IsFlawed form at bytes flaw }
{}

/// The same of the forms of a Code attribute's content and of an instruction.
pub fn code_reading()
    ensures content { (form : Form RawCode) (at : ℕ) (bytes : List ℕ) (value : RawCode) (behind : ℕ) (others : List ℕ) → (read form at bytes ≡ Ok (value, behind, others)) ↔ Stands form at bytes value behind others }
    ensures content_flaw { (form : Form RawCode) (at : ℕ) (bytes : List ℕ) (flaw : Flaw) → (read form at bytes ≡ Err flaw) ↔ IsFlawed form at bytes flaw }
    ensures instruction { (form : Form Spelled) (at : ℕ) (bytes : List ℕ) (value : Spelled) (behind : ℕ) (others : List ℕ) → (read form at bytes ≡ Ok (value, behind, others)) ↔ Stands form at bytes value behind others }
    ensures instruction_flaw { (form : Form Spelled) (at : ℕ) (bytes : List ℕ) (flaw : Flaw) → (read form at bytes ≡ Err flaw) ↔ IsFlawed form at bytes flaw }
{}

/// The descriptors that spell a field's type, and no others, are read, and as that type.
pub fn field_descriptors()
    ensures { (bytes : List ℕ) (type : FieldType) → (field_type_of bytes ≡ Some type) ↔ IsFieldDescriptor bytes type }
{}

/// The descriptors that spell a method's parameters and result, and no others, are read, and as these.
pub fn method_descriptors()
    ensures { (bytes : List ℕ) (method : MethodType) → (method_type_of bytes ≡ Some method) ↔ IsMethodDescriptor bytes method }
{}

/// Code without flaws is the spellings of its instructions, one behind the other.
pub fn code_is_spelled()
    ensures spelled { (pool : Pool) (max_locals at : ℕ) (bytes : List ℕ) → flaws_in pool max_locals at bytes ≡ [] → AreSpelled pool 0 bytes (instrs_in pool bytes) }
    ensures one { (pool : Pool) (bytes : List ℕ) (instrs : List (ℕ × Instr)) → AreSpelled pool 0 bytes instrs → instrs_in pool bytes ≡ instrs }
{}

/// The flaws that each pass finds in a class whose items are whole stand in ascending order, and so do
/// those of a code array. Of flaws that ascend the one at the head is the first.
pub fn flaws_ascend()
    ensures indices { (bytes : List ℕ) (class : RawClass) → IsWhole bytes class → Ascend (second_pass class) }
    ensures names { (bytes : List ℕ) (class : RawClass) → IsWhole bytes class → Ascend (third_pass class) }
    ensures content { (bytes : List ℕ) (class : RawClass) → IsWhole bytes class → Ascend (fourth_pass class) }
    ensures code { (pool : Pool) (max_locals at : ℕ) (bytes : List ℕ) → Ascend (flaws_in pool max_locals at bytes) }
    ensures first { (flaw : Flaw) (flaws : List Flaw) → Ascend (flaw ∷ flaws) → IsFirst (flaw ∷ flaws) flaw }
{}
