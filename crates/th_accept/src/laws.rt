// What holds of accepted files.
ghost use Rattle.std.specs.Prelude.{◌≡◌, ◌<◌, ◌^◌, List, ℕ, length};
ghost use Rattle.th_syntax.specs.declared.class_file.ClassFile.{ClassFile};
ghost use Rattle.th_syntax.specs.declared.refusal.Refusal.{Refusal};
ghost use Rattle.th_syntax.specs.ClassGrammar.{IsClassFile};
ghost use Rattle.th_accept.specs.Accepted.{File, IsAccepted, IsRefused};

use th_reader::laws::one_reading;
use th_syntax::laws::{kinds, linking};

/// A class file has fewer than 2^16 fields, and fewer than 2^16 methods (Java specification 4.1).
pub fn members_are_few()
    ensures fields { (bytes : List ℕ) (class : ClassFile) → IsClassFile bytes class → length class.fields < 2 ^ 16 }
    ensures methods { (bytes : List ℕ) (class : ClassFile) → IsClassFile bytes class → length class.methods < 2 ^ 16 }
{}

/// Files are accepted as one program at most, and have one first refusal at most, and not both.
pub fn one_outcome()
    ensures program { (files : List File) (classes others : List ClassFile) → IsAccepted files classes → IsAccepted files others → classes ≡ others }
    ensures refusal { (files : List File) (refusal other : Refusal) → IsRefused files refusal → IsRefused files other → refusal ≡ other }
    ensures not_both { (files : List File) (classes : List ClassFile) (refusal : Refusal) → IsAccepted files classes → IsRefused files refusal → ⊥ }
{
    one_reading();
    linking::one_first_refusal();
    linking::linked_are_not_refused();
    kinds::one_outcome();
}
