//! What single statements and conditions do, computed: operations, relations, and on a small state the
//! change that a statement makes and no other.
ghost use Rattle.std.specs.Prelude.{◌≡◌, ℤ, pos, negsuc, true, false, [], ◌∷◌, codes, Some, None};
ghost use Rattle.th_base.specs.declared.operation.ArithOp.TheVariants.{Add, Sub, Mul, Div, Rem, Shl, Shr, Ushr, And, Or, Xor};
ghost use Rattle.th_base.specs.declared.operation.Elem.TheVariants.{Int as IntElem, Ref as RefElem};
ghost use Rattle.th_base.specs.declared.operation.NarrowOp.TheVariants.{Byte as ToByte, Char as ToChar, Short as ToShort};
ghost use Rattle.th_base.specs.declared.operation.Relation.TheVariants.{Eq, Ne, Lt, Ge, Gt, Le};
ghost use Rattle.th_ir.specs.declared.stmt.Condition.TheVariants.{Ints, SameRef, OtherRef, IsNull, NotNull, Key, NoKey};
ghost use Rattle.th_ir.specs.declared.stmt.Stmt.TheVariants.{Arith, Neg, AddConst, Narrow, AnyInt, Assume, GetElem, PutElem, Length, NewArray, Cast, InstanceOf, NonNull};
ghost use Rattle.th_ir.specs.Effects.{IsInt, arithmetic_of, narrowed, goes_on, sets};
ghost use Rattle.th_ir.specs.Machine.{IntValue, NullValue, Address};
ghost use Rattle.th_ir.specs.Worked.{reg};
ghost use Rattle.th_ir.specs.WorkedEffects.{MakesNone, MakesOnly, MayMake, judged};

/// Each operation on two ints, the left one first; there is none at a divisor of 0.
pub fn operations_are_computed()
    ensures sum { arithmetic_of Add (pos 2147483647) (pos 1) ≡ Some (negsuc 2147483647) }
    ensures difference { arithmetic_of Sub (pos 7) (pos 10) ≡ Some (negsuc 2) }
    ensures product { arithmetic_of Mul (pos 7) (negsuc 2) ≡ Some (negsuc 20) }
    ensures quotient { arithmetic_of Div (negsuc 6) (pos 2) ≡ Some (negsuc 2) }
    ensures no_quotient { arithmetic_of Div (pos 7) (pos 0) ≡ None }
    ensures remainder { arithmetic_of Rem (negsuc 6) (pos 2) ≡ Some (negsuc 0) }
    ensures no_remainder { arithmetic_of Rem (pos 7) (pos 0) ≡ None }
    ensures left_shift { arithmetic_of Shl (pos 3) (pos 33) ≡ Some (pos 6) }
    ensures right_shift { arithmetic_of Shr (negsuc 6) (pos 1) ≡ Some (negsuc 3) }
    ensures unsigned_shift { arithmetic_of Ushr (negsuc 0) (pos 31) ≡ Some (pos 1) }
    ensures bits_of_both { arithmetic_of And (pos 12) (pos 10) ≡ Some (pos 8) }
    ensures bits_of_either { arithmetic_of Or (pos 12) (pos 10) ≡ Some (pos 14) }
    ensures bits_of_one { arithmetic_of Xor (pos 12) (pos 10) ≡ Some (pos 6) }
{}

/// Each narrowing of an int.
pub fn ints_are_narrowed()
    ensures byte { narrowed ToByte (pos 200) ≡ negsuc 55 }
    ensures char { narrowed ToChar (negsuc 0) ≡ pos 65535 }
    ensures short { narrowed ToShort (pos 40000) ≡ negsuc 25535 }
{}

/// Each relation, of a less, an equal and a greater int.
pub fn relations_are_told_apart()
    ensures equal { judged Eq ≡ false ∷ true ∷ false ∷ [] }
    ensures other { judged Ne ≡ true ∷ false ∷ true ∷ [] }
    ensures less { judged Lt ≡ true ∷ false ∷ false ∷ [] }
    ensures at_least { judged Ge ≡ false ∷ true ∷ true ∷ [] }
    ensures greater { judged Gt ≡ false ∷ false ∷ true ∷ [] }
    ensures at_most { judged Le ≡ true ∷ true ∷ false ∷ [] }
{}

/// Statements on ints set their register to what is computed from their operands, and do nothing else.
pub fn ints_are_set()
    ensures operation { MakesOnly (Arith (reg 9) Sub (reg 1) (reg 2)) (sets (reg 9) (IntValue (pos 10))) }
    ensures negation { MakesOnly (Neg (reg 9) (reg 2)) (sets (reg 9) (IntValue (pos 3))) }
    ensures constant { MakesOnly (AddConst (reg 9) (reg 1) (negsuc 0)) (sets (reg 9) (IntValue (pos 6))) }
    ensures narrowing { MakesOnly (Narrow (reg 9) ToChar (reg 2)) (sets (reg 9) (IntValue (pos 65533))) }
    ensures no_reference { MakesNone (Neg (reg 9) (reg 3)) }
    ensures any { (n : ℤ) → IsInt n → MayMake (AnyInt (reg 9)) (sets (reg 9) (IntValue n)) }
{}

/// Any element of an array of references may be read, and its length is the count of its elements.
pub fn elements_are_read()
    ensures first { MayMake (GetElem (reg 9) (reg 4) RefElem) (sets (reg 9) NullValue) }
    ensures second { MayMake (GetElem (reg 9) (reg 4) RefElem) (sets (reg 9) (Address 0)) }
    ensures other_kind { MakesNone (GetElem (reg 9) (reg 4) IntElem) }
    ensures length { MakesOnly (Length (reg 9) (reg 4)) (sets (reg 9) (IntValue (pos 2))) }
{}

/// A cast lets null and a subtype pass, and a test of a type gives 1 for a subtype and else 0. Nothing
/// is stored into an array whose elements it doesn't fit, and no array has a negative length.
pub fn types_are_tested()
    ensures cast { MakesOnly (Cast (reg 9) (reg 4) (codes "[LA;")) (sets (reg 9) (Address 0)) }
    ensures cast_of_null { MakesOnly (Cast (reg 9) (reg 3) (codes "[LB;")) (sets (reg 9) NullValue) }
    ensures no_cast { MakesNone (Cast (reg 9) (reg 4) (codes "[LB;")) }
    ensures instance { MakesOnly (InstanceOf (reg 9) (reg 4) (codes "java/lang/Object")) (sets (reg 9) (IntValue (pos 1))) }
    ensures no_instance { MakesOnly (InstanceOf (reg 9) (reg 4) (codes "[LB;")) (sets (reg 9) (IntValue (pos 0))) }
    ensures null { MakesOnly (InstanceOf (reg 9) (reg 3) (codes "java/lang/Object")) (sets (reg 9) (IntValue (pos 0))) }
    ensures no_store { MakesNone (PutElem (reg 4) (reg 4)) }
    ensures no_length { MakesNone (NewArray (reg 9) record { 0 = 2 } (reg 2)) }
{}

/// What conditions let pass, and what they don't.
pub fn conditions_are_asked()
    ensures related { MayMake (Assume (Ints Gt (reg 1) (Some (reg 2)))) goes_on }
    ensures unrelated { MakesNone (Assume (Ints Lt (reg 1) (Some (reg 2)))) }
    ensures related_to_zero { MayMake (Assume (Ints Lt (reg 2) None)) goes_on }
    ensures unrelated_to_zero { MakesNone (Assume (Ints Gt (reg 2) None)) }
    ensures same { MayMake (Assume (SameRef (reg 4) (reg 5))) goes_on }
    ensures not_same { MakesNone (Assume (SameRef (reg 3) (reg 4))) }
    ensures other { MayMake (Assume (OtherRef (reg 3) (reg 4))) goes_on }
    ensures not_other { MakesNone (Assume (OtherRef (reg 4) (reg 5))) }
    ensures null { MayMake (Assume (IsNull (reg 3))) goes_on }
    ensures not_null { MakesNone (Assume (IsNull (reg 4))) }
    ensures object { MayMake (Assume (NotNull (reg 4))) goes_on }
    ensures no_object { MakesNone (Assume (NotNull (reg 3))) }
    ensures key { MayMake (Assume (Key (reg 1) (pos 7))) goes_on }
    ensures other_key { MakesNone (Assume (Key (reg 1) (pos 8))) }
    ensures no_key { MayMake (Assume (NoKey (reg 1) (pos 6 ∷ pos 8 ∷ []))) goes_on }
    ensures some_key { MakesNone (Assume (NoKey (reg 1) (pos 6 ∷ pos 7 ∷ []))) }
    ensures passes { MakesOnly (NonNull (reg 4)) goes_on }
    ensures stops { MakesNone (NonNull (reg 3)) }
{}
