// What the definitions of class files say of bytes that are worked out in full.
ghost use Rattle.std.specs.Prelude.{◌≡◌, ◌++◌, ◌∷◌, [], map, take, slice_set, is_some, false, Some, Ok, Err};
ghost use Rattle.std.specs.Option.{option_map_or};
ghost use Rattle.th_syntax.specs.declared.cause.TheConstants as cause;
ghost use Rattle.th_syntax.specs.Flaws.{flaw_at, first_of};
ghost use Rattle.th_syntax.specs.Forms.{read};
ghost use Rattle.th_syntax.specs.ClassBytes.{pool};
ghost use Rattle.th_syntax.specs.WellFormed.{is_class_name, is_field_name, is_method_name};
ghost use Rattle.th_syntax.specs.Descriptors.{is_floating, is_floating_method, field_type_of, method_type_of};
ghost use Rattle.th_syntax.specs.PoolChecks.{tag_at, refers_well, entry_flaws};
ghost use Rattle.th_syntax.specs.Decoding.{instrs_in, flaws_in, code_flaws};
ghost use Rattle.th_syntax.specs.ClassGrammar.{IsClassFile};
ghost use Rattle.th_syntax.specs.FirstFlaw.{FirstFlaw};
ghost use Rattle.th_syntax.specs.Reader.{reading};
ghost use Rattle.th_syntax.specs.WorkedFiles.{activity_bytes, activity_value, edits, taken_edits, fronts, interfaces_bytes, interfaces_value, interface_edits, constants_bytes, constant_fields, constants_value, refused_fields};
ghost use Rattle.th_syntax.specs.WorkedCode.{worked_pool_bytes, worked_pool, worked_tags, worked_references, worked_instrs, placed_from, worked_code, refused_codes, branch_opcodes, into_operand, taken_codes, code_of_length, code_lengths};
ghost use Rattle.th_syntax.specs.WorkedNames.{worked_names, worked_fields, worked_methods};

/// A pool with an entry of each tag is read as these entries, which have these tags.
pub fn pool_is_read()
    ensures entries { read pool 8 worked_pool_bytes ≡ Ok (worked_pool, 231, []) }
    ensures flawless { entry_flaws worked_pool ≡ [] }
    ensures tags { map (λ one. tag_at worked_pool one.0) worked_tags ≡ map (λ one. one.1) worked_tags }
{}

/// Entries lead to entries of the right tags, or don't.
pub fn references_are_told_apart()
    ensures { map (λ one. refers_well worked_pool one.0) worked_references ≡ map (λ one. one.1) worked_references }
{}

/// Names of classes, fields and methods are told apart, and from others.
pub fn names_are_told_apart()
    ensures classes { map (λ one. is_class_name one.0) worked_names ≡ map (λ one. one.1) worked_names }
    ensures fields { map (λ one. is_field_name one.0) worked_names ≡ map (λ one. one.2) worked_names }
    ensures methods { map (λ one. is_method_name one.0) worked_names ≡ map (λ one. one.3) worked_names }
{}

/// Descriptors are told from others, and those with `float` or `double` from those without.
pub fn descriptors_are_told_apart()
    ensures fields { map (λ one. is_some (field_type_of one.0)) worked_fields ≡ map (λ one. one.1) worked_fields }
    ensures floating { map (λ one. option_map_or is_floating (field_type_of one.0) false) worked_fields ≡ map (λ one. one.2) worked_fields }
    ensures methods { map (λ one. is_some (method_type_of one.0)) worked_methods ≡ map (λ one. one.1) worked_methods }
    ensures floating_methods { map (λ one. option_map_or is_floating_method (method_type_of one.0) false) worked_methods ≡ map (λ one. one.2) worked_methods }
{}

/// Code with each opcode of the profile is decoded to these instructions. It needs 260 local
/// variables, since a `long` takes the one at 258 and the next one.
pub fn code_is_decoded()
    ensures instrs { instrs_in worked_pool worked_code ≡ placed_from 0 worked_instrs }
    ensures flawless { flaws_in worked_pool 260 0 worked_code ≡ [] }
    ensures locals { first_of (flaws_in worked_pool 259 0 worked_code) ≡ Some (flaw_at cause.CODE_SHAPE 300) }
{}

/// Code is refused for each of the reasons that there are.
pub fn codes_are_refused()
    ensures { map (λ one. first_of (flaws_in worked_pool 2 100 one.0)) refused_codes ≡ map (λ one. Some one.1) refused_codes }
{}

/// A branch of each opcode into its own operand is refused.
pub fn branches_are_checked()
    ensures { map (λ code. first_of (flaws_in worked_pool 2 100 (into_operand code))) branch_opcodes ≡ map (λ code. Some (flaw_at cause.CODE_SHAPE 100)) branch_opcodes }
{}

/// Code may name the last local variable, and end with each of the instructions behind which the next
/// one doesn't follow.
pub fn codes_are_taken()
    ensures { map (flaws_in worked_pool 2 100) taken_codes ≡ map (λ code. []) taken_codes }
{}

/// Code has from 1 to 65,535 bytes.
pub fn lengths_are_checked()
    ensures { map (λ one. code_flaws worked_pool (code_of_length one.0)) code_lengths ≡ map (λ one. one.1) code_lengths }
{}

/// The file of an Activity with a constructor stands for this class, and with a byte more it has a first
/// flaw.
pub fn activity_is_read()
    ensures value { IsClassFile activity_bytes activity_value }
    ensures trailing { FirstFlaw (activity_bytes ++ 0 ∷ []) (flaw_at cause.TRAILING 122) }
{}

/// With one byte changed it has these first flaws, or stands for these classes.
pub fn edits_are_read()
    ensures refused { map (λ e. reading (slice_set activity_bytes e.at e.byte)) edits ≡ map (λ e. Err e.flaw) edits }
    ensures taken { map (λ e. reading (slice_set activity_bytes e.0 e.1)) taken_edits ≡ map (λ e. Ok e.2) taken_edits }
{}

/// Its fronts end in these items.
pub fn fronts_are_refused()
    ensures { map (λ one. reading (take one.0 activity_bytes)) fronts ≡ map (λ one. Err (flaw_at cause.TRUNCATED one.1)) fronts }
{}

/// A file with interfaces, a field, an exception table and attributes that are skipped stands for this
/// class.
pub fn interfaces_are_read()
    ensures value { IsClassFile interfaces_bytes interfaces_value }
    ensures refused { map (λ e. reading (slice_set interfaces_bytes e.at e.byte)) interface_edits ≡ map (λ e. Err e.flaw) interface_edits }
{}

/// A file with a constant of each type stands for this class, and other fields are refused.
pub fn constants_are_read()
    ensures value { IsClassFile (constants_bytes constant_fields) constants_value }
    ensures refused { map (λ one. reading (constants_bytes (one.0 ∷ []))) refused_fields ≡ map (λ one. Err one.1) refused_fields }
{}
