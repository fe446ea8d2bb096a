// What linking means: class files are linked or have one first refusal, and what linked code names stands;
// and lists of class files that are worked out in full.
ghost use Rattle.std.specs.Prelude.{◌≡◌, ◌++◌, ◌∷◌, ℕ, List, [], map, length, take, slice_get, codes, Some, true, false};
ghost use Rattle.std.specs.List.{flat_map, range_with_len};
ghost use Rattle.th_base.specs.Hierarchy.{IsAcyclic};
ghost use Rattle.th_base.specs.Subtype.{AreAboveAll};
ghost use Rattle.th_syntax.specs.declared.cause.TheConstants as cause;
ghost use Rattle.th_syntax.specs.declared.class_file.ClassFile.{ClassFile};
ghost use Rattle.th_syntax.specs.declared.instr.Instr.{Instr};
ghost use Rattle.th_syntax.specs.declared.refusal.Refusal.{Refusal};
ghost use Rattle.th_syntax.specs.Facts.{IsReachedInstr};
ghost use Rattle.th_syntax.specs.LinkChecks.{name_refusals, supertype_refusals, member_refusals, use_refusals, use_of, use_faults, are_few, refusal_of};
ghost use Rattle.th_syntax.specs.Linking.{IsLinked, IsFirstRefusal, Stands};
ghost use Rattle.th_syntax.specs.Program.{all_classes, fields_of, methods_of, hierarchy_of, number_named};
ghost use Rattle.th_syntax.specs.WorkedLinking.{linked_files, refused_names, refused_supertypes, refused_members, refused_uses, using_files, using_refusals, faulty_files, crowded_files};

/// Class files have one first refusal at most.
pub fn one_first_refusal()
    ensures { (files : List ClassFile) (refusal other : Refusal) → IsFirstRefusal files refusal → IsFirstRefusal files other → refusal ≡ other }
{
    th_base::laws::resolution::first_cycle_is_one();
}

/// Linked class files have none.
pub fn linked_are_not_refused()
    ensures { (files : List ClassFile) (refusal : Refusal) → IsLinked files → IsFirstRefusal files refusal → ⊥ }
{}

/// Among linked class files every class, field and method that a reachable instruction names is found,
/// and is static or not, a class or an interface, as the instruction wants.
pub fn what_is_named_stands()
    ensures { (files : List ClassFile) (i : Instr) → IsLinked files → IsReachedInstr files i → Stands files (use_of i) }
{}

/// No class of linked class files stands above itself.
pub fn linked_are_acyclic()
    ensures { (files : List ClassFile) → IsLinked files → IsAcyclic (hierarchy_of files) }
{}

/// Nothing stands above the supertypes of arrays but these, whatever the class files.
pub fn array_supertypes_are_above_all()
    ensures { (files : List ClassFile) → AreAboveAll (hierarchy_of files) }
{
    th_base::laws::programs::built_in_classes_stand_above_arrays();
}

/// A class of linked class files is the one of its name.
pub fn names_are_apart()
    ensures { (files : List ClassFile) (n : ℕ) (class : ClassFile) → IsLinked files → slice_get (all_classes files) n ≡ Some class
        → number_named files class.name ≡ Some n }
{}

/// Fields and methods are numbered in the order of classes, and then as their class declares them.
pub fn members_are_numbered_in_order()
    ensures fields { (files : List ClassFile) → map (λ f. f.id.0) (flat_map (λ k. k.fields) (hierarchy_of files)) ≡ range_with_len 0 (length (fields_of files)) }
    ensures methods { (files : List ClassFile) → map (λ m. m.id.0) (flat_map (λ k. k.methods) (hierarchy_of files)) ≡ range_with_len 0 (length (methods_of files)) }
{}

/// Four classes that name each other are linked.
pub fn classes_are_linked()
    ensures { IsLinked linked_files }
{}

/// What each pass refuses, check by check.
pub fn checks_refuse()
    ensures names { map (λ one. name_refusals one.0) refused_names ≡ map (λ one. one.1) refused_names }
    ensures supertypes { map (λ one. supertype_refusals one.0) refused_supertypes ≡ map (λ one. one.1) refused_supertypes }
    ensures members { map (λ one. member_refusals one.0) refused_members ≡ map (λ one. one.1) refused_members }
    ensures uses { map (λ one. use_faults linked_files (use_of one.0)) refused_uses ≡ map (λ one. one.1) refused_uses }
    ensures places { use_refusals using_files ≡ using_refusals }
{}

/// 65,535 methods are not too many, and one more is.
pub fn methods_are_counted()
    ensures most { are_few (crowded_files 65518) ≡ true }
    ensures too_many { are_few (crowded_files 65519) ≡ false }
{}

/// Each pass comes before those behind it: of class files with a fault for each pass the first refusal is
/// this one, and as its class files are taken away, the next one.
pub fn passes_come_in_order()
    ensures name { IsFirstRefusal (take 8 faulty_files) (refusal_of cause.DUPLICATE (codes "Twice") [] 0) }
    ensures supertype { IsFirstRefusal (take 6 faulty_files) (refusal_of cause.MISSING_CLASS (codes "Low") (codes "Gone") 0) }
    ensures cycle { IsFirstRefusal (take 5 faulty_files) (refusal_of cause.SUPER (codes "B") (codes "C") 0) }
    ensures member { IsFirstRefusal (take 2 faulty_files) (refusal_of cause.MEMBER (codes "Empty") (codes "m()V") 0) }
    ensures uses { IsFirstRefusal (take 1 faulty_files) (refusal_of cause.MISSING_CLASS (codes "User") (codes "Gone") 0) }
{}
