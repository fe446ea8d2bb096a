//! What the definitions of the steps mean.
ghost use Rattle.th_linear.specs.Laws.{OneNormalForm, NormalFormsAgree, OneSum, NoLargeSum};
ghost use Rattle.th_linear.specs.Laws.{DivisionKeeps, ScalingMultiplies, SumFollows};
ghost use Rattle.th_linear.specs.Laws.{SubstitutionKeeps, AbsentStays};
ghost use Rattle.th_linear.specs.Laws.{OneGathering, NoLargeGathering, OrderIsFree};
ghost use Rattle.th_linear.specs.Laws.{RenamingComposes, SameNamesStay};

/// Division by the greatest common divisor has exactly one result, the one that `normal_of` computes.
pub fn one_normal_form()
    ensures exact { OneNormalForm }
    ensures determined { NormalFormsAgree }
{}

/// Two facts have exactly one sum of their multiples, the one that `mixed_form` computes, and none
/// where a magnitude reaches 2^62.
pub fn one_sum()
    ensures sum { OneSum }
    ensures too_large { NoLargeSum }
{}

/// The steps keep what the facts say.
pub fn steps_keep()
    ensures division { DivisionKeeps }
    ensures scaling { ScalingMultiplies }
    ensures sum { SumFollows }
    ensures substitution { SubstitutionKeeps }
    ensures absent { AbsentStays }
{}

/// Terms in any order make exactly one fact, the one that `gathered_form` computes, and none where a
/// magnitude reaches 2^62.
pub fn one_gathering()
    ensures fact { OneGathering }
    ensures too_large { NoLargeGathering }
    ensures order { OrderIsFree }
{}

/// A renamed fact says of an assignment what the fact says of the assignment after the names.
pub fn renaming_composes()
    ensures composed { RenamingComposes }
    ensures same { SameNamesStay }
{}
