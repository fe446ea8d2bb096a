//! What holds of class files and their first flaws.
ghost use Rattle.std.specs.Prelude.{◌≡◌, ◌↔◌, ℕ, List, IsTrue, Ok, Err};
ghost use Rattle.th_syntax.specs.declared.class_file.ClassFile.{ClassFile};
ghost use Rattle.th_syntax.specs.declared.refusal.Flaw.{Flaw};
ghost use Rattle.th_syntax.specs.ClassGrammar.{IsClassFile, are_bytes};
ghost use Rattle.th_syntax.specs.FirstFlaw.{FirstFlaw};
ghost use Rattle.th_syntax.specs.Reader.{reading};

use th_syntax::laws::class_files;

/// Bytes stand for at most one class file, and have at most one first flaw, and not both: the one
/// function that `read_class` equals gives a value exactly where they are a class file that stands for
/// it, and a flaw exactly where it is their first.
pub fn one_reading()
    ensures value { (bytes : List ℕ) (v : ClassFile) → IsTrue (are_bytes bytes) → (reading bytes ≡ Ok v) ↔ IsClassFile bytes v }
    ensures flaw { (bytes : List ℕ) (flaw : Flaw) → (reading bytes ≡ Err flaw) ↔ FirstFlaw bytes flaw }
    ensures one_value { (bytes : List ℕ) (v w : ClassFile) → IsClassFile bytes v → IsClassFile bytes w → v ≡ w }
    ensures one_flaw { (bytes : List ℕ) (flaw other : Flaw) → FirstFlaw bytes flaw → FirstFlaw bytes other → flaw ≡ other }
    ensures not_both { (bytes : List ℕ) (flaw : Flaw) (v : ClassFile) → FirstFlaw bytes flaw → IsClassFile bytes v → ⊥ }
{
    class_files::one_reading();
    class_files::one_value();
    class_files::one_flaw();
    class_files::flawed_stands_for_none();
}
