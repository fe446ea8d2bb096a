// What the built-in classes, the harness's handlers and the lifecycle's chart are, in plain lists.
ghost use Rattle.std.specs.Prelude.{◌≡◌, ℕ, List, [], ◌∷◌, ◌++◌, codes, map, true, false, Some, None};
ghost use Rattle.std.specs.List.{range_with_len};
ghost use Rattle.th_base.specs.declared.class.ClassInfo.{ClassInfo};
ghost use Rattle.th_base.specs.declared.lifecycle.Lifecycle.TheVariants.{Any};
ghost use Rattle.th_base.specs.BuiltIn.{built_in_classes, built_in_names};
ghost use Rattle.th_base.specs.Handlers.{Handler, handlers, takes_bundle, stage_after};
ghost use Rattle.th_base.specs.Launchable.{is_activity, launchable};
ghost use Rattle.th_base.specs.Subtype.{AreAboveAll};
ghost use Rattle.th_base.specs.ValueKinds.{is_reference, is_long, is_int};
ghost use Rattle.th_base.specs.Worked.{supertype_names, method_rows, stage_table, sample_classes};

/// The built-in classes, in order, with their supertypes and methods.
pub fn built_in_classes_in_order()
    ensures names { built_in_names ≡ codes "java/lang/Object" ∷ codes "java/lang/String" ∷ codes "java/lang/Throwable" ∷ codes "java/lang/Exception"
        ∷ codes "java/lang/RuntimeException" ∷ codes "java/lang/Error" ∷ codes "java/lang/Cloneable" ∷ codes "java/io/Serializable"
        ∷ codes "android/os/Bundle" ∷ codes "android/content/Context" ∷ codes "android/app/Activity" ∷ [] }
    ensures supertypes { let object = codes "java/lang/Object" in let throwable = codes "java/lang/Throwable" in let serializable = codes "java/io/Serializable" in
        supertype_names ≡ [] ∷ (serializable ∷ object ∷ []) ∷ (serializable ∷ object ∷ []) ∷ (throwable ∷ []) ∷ (codes "java/lang/Exception" ∷ [])
        ∷ (throwable ∷ []) ∷ (object ∷ []) ∷ (object ∷ []) ∷ (object ∷ []) ∷ (object ∷ []) ∷ (codes "android/content/Context" ∷ []) ∷ [] }
    ensures interfaces { map (λ k. k.is_interface) built_in_classes
        ≡ false ∷ false ∷ false ∷ false ∷ false ∷ false ∷ true ∷ true ∷ false ∷ false ∷ false ∷ [] }
    ensures marked_abstract { map (λ k. k.is_abstract) built_in_classes
        ≡ false ∷ false ∷ false ∷ false ∷ false ∷ false ∷ true ∷ true ∷ false ∷ true ∷ false ∷ [] }
    ensures fields { map (λ k. k.fields) built_in_classes ≡ [] ∷ [] ∷ [] ∷ [] ∷ [] ∷ [] ∷ [] ∷ [] ∷ [] ∷ [] ∷ [] ∷ [] }
{}

/// The methods of the built-in classes, by class: the number, the name and the descriptor of each.
pub fn built_in_methods_in_order()
    ensures rows { let name = codes "<init>" in let nothing = codes "()V" in let bundle = codes "(Landroid/os/Bundle;)V" in
        method_rows ≡ ((0, name, nothing) ∷ []) ∷ ((1, name, nothing) ∷ []) ∷ ((2, name, nothing) ∷ []) ∷ ((3, name, nothing) ∷ [])
        ∷ ((4, name, nothing) ∷ []) ∷ ((5, name, nothing) ∷ []) ∷ [] ∷ [] ∷ ((6, name, nothing) ∷ []) ∷ ((7, name, nothing) ∷ [])
        ∷ ((8, name, nothing) ∷ (9, codes "onCreate", bundle) ∷ (10, codes "onStart", nothing) ∷ (11, codes "onRestart", nothing)
        ∷ (12, codes "onResume", nothing) ∷ (13, codes "onPause", nothing) ∷ (14, codes "onStop", nothing) ∷ (15, codes "onDestroy", nothing)
        ∷ (16, codes "onSaveInstanceState", bundle) ∷ []) ∷ [] }
{}

/// The handlers in order, and which take a Bundle.
pub fn handlers_in_order()
    ensures names { map (λ h. h.name) handlers ≡ codes "onCreate" ∷ codes "onStart" ∷ codes "onRestart" ∷ codes "onResume" ∷ codes "onPause"
        ∷ codes "onStop" ∷ codes "onDestroy" ∷ codes "onSaveInstanceState" ∷ [] }
    ensures bundles { map takes_bundle handlers ≡ true ∷ false ∷ false ∷ false ∷ false ∷ false ∷ false ∷ true ∷ [] }
{}

/// Under the chart: for each stage, from 0 to 7, the stage after each handler. Without it every call is
/// allowed and the stage stays.
pub fn chart_by_stage()
    ensures any { (h : Handler) (stage : ℕ) → stage_after Any h stage ≡ Some stage }
    ensures chart { stage_table
        ≡ (Some 1 ∷ None ∷ None ∷ None ∷ None ∷ None ∷ None ∷ None ∷ [])
        ∷ (None ∷ Some 2 ∷ None ∷ None ∷ None ∷ None ∷ None ∷ None ∷ [])
        ∷ (None ∷ None ∷ None ∷ Some 3 ∷ None ∷ None ∷ None ∷ None ∷ [])
        ∷ (None ∷ None ∷ None ∷ None ∷ Some 4 ∷ None ∷ None ∷ None ∷ [])
        ∷ (None ∷ None ∷ None ∷ Some 3 ∷ None ∷ Some 5 ∷ None ∷ Some 4 ∷ [])
        ∷ (None ∷ None ∷ Some 6 ∷ None ∷ None ∷ None ∷ Some 7 ∷ Some 5 ∷ [])
        ∷ (None ∷ Some 2 ∷ None ∷ None ∷ None ∷ None ∷ None ∷ None ∷ [])
        ∷ (None ∷ None ∷ None ∷ None ∷ None ∷ None ∷ None ∷ None ∷ []) ∷ [] }
{}

/// Of a small program the two Activities that can be made are launchable. All of its classes but the
/// last are Activities.
pub fn activities_are_launchable()
    ensures launchable { launchable sample_classes ≡ 11 ∷ 12 ∷ [] }
    ensures activities { map (is_activity sample_classes) (range_with_len 9 11)
        ≡ false ∷ true ∷ true ∷ true ∷ true ∷ true ∷ true ∷ true ∷ true ∷ true ∷ false ∷ [] }
{}

/// The kinds of values by the first byte of a descriptor.
pub fn kinds_of_descriptors()
    ensures references { map is_reference (codes "Ljava/lang/Object;" ∷ codes "[I" ∷ codes "J" ∷ codes "I" ∷ []) ≡ true ∷ true ∷ false ∷ false ∷ [] }
    ensures longs { map is_long (codes "J" ∷ codes "[J" ∷ codes "I" ∷ []) ≡ true ∷ false ∷ false ∷ [] }
    ensures ints { map is_int (codes "B" ∷ codes "C" ∷ codes "I" ∷ codes "S" ∷ codes "Z" ∷ codes "J" ∷ codes "LB;" ∷ codes "[I" ∷ [])
        ≡ true ∷ true ∷ true ∷ true ∷ true ∷ false ∷ false ∷ false ∷ [] }
{}

/// Before whatever classes the built-in ones stand, nothing but `java/lang/Object`, `java/lang/Cloneable`
/// and `java/io/Serializable` stands above these three. So subtype is transitive where all the classes are acyclic.
pub fn built_in_classes_stand_above_arrays()
    ensures { (more : List ClassInfo) → AreAboveAll (built_in_classes ++ more) }
{}
