// What readers expect of the rules of sets and of the hierarchy, over all lists.
ghost use Rattle.std.specs.Prelude.{◌≡◌, ◌<◌, ◌≤◌, ◌==◌, ◌&&◌, not, ◌||◌, ℕ, List, [], ◌∷◌, ◌++◌, Some, true, length};
ghost use Rattle.std.specs.List.{flat_map};
ghost use Rattle.std.specs.Option.{option_or, option_map, option_and_then, option_map_or};
ghost use Rattle.th_base.specs.declared.class.ClassInfo.{ClassInfo};
ghost use Rattle.th_base.specs.declared.class.FieldInfo.{FieldInfo};
ghost use Rattle.th_base.specs.declared.class.MethodInfo.{MethodInfo};
ghost use Rattle.th_base.specs.declared.number.MethodId.{MethodId};
ghost use Rattle.th_base.specs.Hierarchy.{IsAcyclic, superclass_of, interfaces_of, direct_supertypes, lineage_of, supertypes_of, superinterfaces_of, is_subclass, first_some, declared_field, resolved_field, overriding_method, first_overriding, selected_method, IsSelected};
ghost use Rattle.th_base.specs.IdSet.{has, IsAscending, inserted, union_of, intersection_of, difference_of};
ghost use Rattle.th_base.specs.Subtype.{is_subtype, AreAboveAll};

pub mod programs;
pub mod resolution;

/// Two sets with the same members are one list.
pub fn members_make_the_set()
    ensures { (xs ys : List ℕ) → IsAscending xs → IsAscending ys → ((x : ℕ) → has xs x ≡ has ys x) → xs ≡ ys }
{}

/// A set with one number more has that number and its old members.
pub fn members_of_inserted()
    ensures members { (x : ℕ) (xs : List ℕ) (y : ℕ) → has (inserted x xs) y ≡ (x == y || has xs y) }
    ensures ascending { (x : ℕ) (xs : List ℕ) → IsAscending xs → IsAscending (inserted x xs) }
{}

/// A union has the members of both sets.
pub fn members_of_union()
    ensures members { (xs ys : List ℕ) (x : ℕ) → has (union_of xs ys) x ≡ (has xs x || has ys x) }
    ensures ascending { (xs ys : List ℕ) → IsAscending xs → IsAscending (union_of xs ys) }
{}

/// An intersection has the common members.
pub fn members_of_intersection()
    ensures members { (xs ys : List ℕ) (x : ℕ) → has (intersection_of xs ys) x ≡ (has ys x && has xs x) }
    ensures ascending { (xs ys : List ℕ) → IsAscending xs → IsAscending (intersection_of xs ys) }
{}

/// A difference has the members of the first set that the second hasn't.
pub fn members_of_difference()
    ensures members { (xs ys : List ℕ) (x : ℕ) → has (difference_of xs ys) x ≡ (not (has ys x) && has xs x) }
    ensures ascending { (xs ys : List ℕ) → IsAscending xs → IsAscending (difference_of xs ys) }
{}

/// A set of numbers below n has at most n members.
pub fn members_below_a_bound()
    ensures { (n : ℕ) (xs : List ℕ) → IsAscending xs → ((x : ℕ) → has xs x ≡ true → x < n) → length xs ≤ n }
{}

/// The superclasses of a class are its superclass and that one's superclasses: the bound on the
/// steps is never reached.
pub fn lineage_goes_up()
    ensures { (classes : List ClassInfo) (c : ℕ) → IsAcyclic classes → c < length classes
        → lineage_of classes c ≡ c ∷ option_map_or (lineage_of classes) (superclass_of classes c) [] }
{}

/// What stands above a class is what its direct supertypes are, and what stands above them.
pub fn supertypes_go_up()
    ensures { (classes : List ClassInfo) (c : ℕ) → IsAcyclic classes → c < length classes
        → supertypes_of classes c ≡ c ∷ flat_map (supertypes_of classes) (direct_supertypes classes c) }
{}

/// The superinterfaces of a class are its own, each before those that it extends, and those of its
/// superclass.
pub fn superinterfaces_go_up()
    ensures { (classes : List ClassInfo) (c : ℕ) → IsAcyclic classes → c < length classes
        → superinterfaces_of classes c
        ≡ flat_map (λ i. i ∷ superinterfaces_of classes i) (interfaces_of classes c)
        ++ option_map_or (superinterfaces_of classes) (superclass_of classes c) [] }
{}

/// A class is a subclass of itself, and a subclass of a subclass is a subclass.
pub fn subclass_is_an_order()
    ensures reflexive { (classes : List ClassInfo) (c : ℕ) → c < length classes → is_subclass classes c c ≡ true }
    ensures transitive { (classes : List ClassInfo) (a b c : ℕ) → IsAcyclic classes
        → is_subclass classes a b ≡ true → is_subclass classes b c ≡ true → is_subclass classes a c ≡ true }
{}

/// A type is a subtype of itself, and a subtype of a subtype is a subtype, where nothing else stands
/// above the classes of which every array is a subtype.
pub fn subtype_is_an_order()
    ensures reflexive { (classes : List ClassInfo) (a : List ℕ) → is_subtype classes a a ≡ true }
    ensures transitive { (classes : List ClassInfo) (a b c : List ℕ) → IsAcyclic classes → AreAboveAll classes
        → is_subtype classes a b ≡ true → is_subtype classes b c ≡ true → is_subtype classes a c ≡ true }
{}

/// Field resolution finds the class's own field, else what it finds for a direct superinterface, else
/// what it finds for the superclass (Java specification 5.4.3.2).
pub fn field_resolution_goes_up()
    ensures { (classes : List ClassInfo) (c : ℕ) (name descriptor : List ℕ) → IsAcyclic classes → c < length classes
        → resolved_field classes c name descriptor
        ≡ option_or {T = ℕ × FieldInfo} (option_map (λ f. (c, f)) (declared_field classes name descriptor c))
        (first_some (λ s. resolved_field classes s name descriptor) (direct_supertypes classes c)) }
{}

/// Selection finds the class's own method, else what it finds for the superclass (Java specification
/// 6.5, invokevirtual).
pub fn selection_goes_up()
    ensures { (classes : List ClassInfo) (c : ℕ) (name descriptor : List ℕ) → IsAcyclic classes → c < length classes
        → first_overriding classes c name descriptor
        ≡ option_or {T = ℕ × MethodInfo} (option_map (λ m. (c, m)) (overriding_method classes name descriptor c))
        (option_and_then (λ s. first_overriding classes s name descriptor) (superclass_of classes c)) }
{}

/// A method that is selected is an instance method of the receiver's class or of a superclass, neither
/// private nor abstract, with the name and the descriptor that were asked for.
pub fn selected_method_stands_above()
    ensures { (classes : List ClassInfo) (c : ℕ) (name descriptor : List ℕ) (id : MethodId)
        → selected_method classes c name descriptor ≡ Some id → IsSelected classes c name descriptor id }
{}
