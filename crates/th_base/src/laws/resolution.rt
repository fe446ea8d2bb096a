// What resolution finds, what a superclass is among supertypes, and what a first cycle is.
ghost use Rattle.std.specs.Prelude.{◌≡◌, ◌<◌, ◌==◌, ℕ, List, Some, true, length};
ghost use Rattle.std.specs.List.{list_any};
ghost use Rattle.th_base.specs.declared.class.ClassInfo.{ClassInfo};
ghost use Rattle.th_base.specs.declared.class.FieldInfo.{FieldInfo};
ghost use Rattle.th_base.specs.declared.class.MethodInfo.{MethodInfo};
ghost use Rattle.th_base.specs.Cycles.{IsFirstCycle};
ghost use Rattle.th_base.specs.Hierarchy.{IsAcyclic, supertypes_of, is_subclass, resolved_field, resolved_method, IsFieldAbove, IsMethodAbove};

/// A field that is resolved has the name and the descriptor that were asked for, and stands in the class
/// or in one above it.
pub fn resolved_field_stands_above()
    ensures { (classes : List ClassInfo) (c : ℕ) (name descriptor : List ℕ) (found : ℕ × FieldInfo)
        → resolved_field classes c name descriptor ≡ Some found → IsFieldAbove classes c name descriptor found }
{}

/// A method that is resolved has the name and the descriptor that were asked for, and stands in the class
/// or in one above it.
pub fn resolved_method_stands_above()
    ensures { (classes : List ClassInfo) (c : ℕ) (name descriptor : List ℕ) (found : ℕ × MethodInfo) → IsAcyclic classes → c < length classes
        → resolved_method classes c name descriptor ≡ Some found → IsMethodAbove classes c name descriptor found }
{}

/// A subclass is a subtype.
pub fn subclass_is_a_subtype()
    ensures { (classes : List ClassInfo) (a b : ℕ) → IsAcyclic classes → a < length classes
        → is_subclass classes a b ≡ true → list_any (λ k. k == b) (supertypes_of classes a) ≡ true }
{}

/// There is at most one first class on a cycle, with one supertype.
pub fn first_cycle_is_one()
    ensures class { (classes : List ClassInfo) (c d s t : ℕ) → IsFirstCycle classes c s → IsFirstCycle classes d t → c ≡ d }
    ensures supertype { (classes : List ClassInfo) (c s t : ℕ) → IsFirstCycle classes c s → IsFirstCycle classes c t → s ≡ t }
{}
