// What the definitions keep: functions that take nothing and do nothing, whose contracts hold.
ghost use Rattle.std.specs.Prelude.{◌≡◌, ℕ, ◌<◌, List, map, true, false};
ghost use Rattle.th_syntax.specs.ClassGrammar.{IsClassFile, are_bytes};
ghost use Rattle.th_gen.specs.declared.draft.ClassWriter.{ClassWriter};
ghost use Rattle.th_gen.specs.ClassText.{class_bytes, fits};
ghost use Rattle.th_gen.specs.ClassValue.{class_of};
ghost use Rattle.th_gen.specs.Generated.{vec_class, class_numbered};
ghost use Rattle.th_gen.specs.Items.{pool_of};
ghost use Rattle.th_gen.specs.Passing.{Passes};
ghost use Rattle.th_gen.specs.Placing.{is_near};
ghost use Rattle.th_gen.specs.Spellings.{spelling_of, constant_spelling};
ghost use Rattle.th_gen.specs.Worked.{edge_pool, edge_instrs, edge_spellings, keeping, keeping_entries, varied};
ghost use Rattle.th_gen.specs.declared.spelling.Spelling.TheVariants.{Byte, Short};

/// The bytes of a class that has room, and whose names and instructions pass the checks of class
/// files, are a class file that stands for it.
pub fn written_classes_stand()
    ensures { (w : ClassWriter) → are_bytes (class_bytes w) ≡ true → fits w ≡ true → Passes w → IsClassFile (class_bytes w) (class_of w) }
{}

/// The classes of the generated program pass the checks of class files, and have room.
pub fn generated_classes_pass()
    ensures vector { Passes vec_class }
    ensures vector_fits { fits vec_class ≡ true }
    ensures activities { (number : ℕ) → number < 400 → Passes (class_numbered number) }
    ensures activities_fit { (number : ℕ) → number < 400 → fits (class_numbered number) ≡ true }
{}

/// Each operand has the shortest spelling that has room for it, and the offsets of branches have two
/// bytes: worked out at the edges.
pub fn shortest_spellings()
    ensures spellings { map (spelling_of edge_pool) edge_instrs ≡ edge_spellings }
    ensures last_short_index { constant_spelling 255 ≡ Byte 18 255 }
    ensures first_long_index { constant_spelling 256 ≡ Short 19 256 }
    ensures farthest_on { is_near 1 32768 ≡ true }
    ensures too_far_on { is_near 1 32769 ≡ false }
    ensures farthest_back { is_near 32769 1 ≡ true }
    ensures too_far_back { is_near 32770 1 ≡ false }
{}

/// A class has its entries once each, in the order in which they are first needed: worked out for a
/// class with a field and two methods.
pub fn entries_once()
    ensures { pool_of keeping ≡ keeping_entries }
{}

/// A class passes the checks whose instructions have an operand of each kind, which has a method without
/// code, and whose last instruction leads back.
pub fn varied_class_passes()
    ensures { Passes varied }
{}
