// The coarse alarms of a program.
ghost use Rattle.std.specs.Prelude.{◌≡◌, ◌*◌, ◌++◌, length, map, nat_le, IfOk, OnOk};
ghost use Rattle.th_coarse.specs.Coarse.{coarse_alarms, pairs_of, are_few};
ghost use Rattle.th_coarse.specs.Report.{all_surviving};

use crate::fields::alarming_fields;
use crate::made::alarming_classes;
use crate::reached::reached_instrs;
use crate::{Judged, Mark};
use std::alloc::{AllocError, Global};
use std::marker::Model;
use th_base::{ClassId, FieldId};
use th_syntax::Program;

/// How many alarms a program may have (this project's own).
pub const MOST_ALARMS: usize = 65_535;

/// The coarse alarms of a program: each of some static fields with each of some Activity classes.
/// Contracts see the list of these pairs of numbers, ascending by field and then by class. It holds the
/// fields and the classes alone, and takes no memory for a pair.
#[derive(Debug, Drop)]
pub struct CoarseAlarms {
    fields: Vec<FieldId>,
    classes: Vec<ClassId>,
}

impl Model for CoarseAlarms {
    ghost use Rattle.std.specs.Prelude.{List, ℕ, map};
    ghost use Rattle.th_coarse.specs.Coarse.{pairs_of};

    ghost Value = { List (ℕ × ℕ) };

    ghost view = { λ a. pairs_of (map (λ f. f.0) a.fields.items) (map (λ c. c.0) a.classes.items) };
}

/// The coarse alarms of a program: each static field of reference type to which a reachable `putstatic`
/// resolves, with each Activity class that the harness launches or that a reachable `new` names. An
/// instruction is reachable where a path without exception handlers leads to it. Takes time in the
/// number of instructions, fields and classes, and for each `putstatic` what it takes to resolve it.
pub fn coarse_alarms(alloc: Global, program: &Program) -> Result<CoarseAlarms, AllocError>
    ensures { IfOk result (λ alarms. alarms ≡ coarse_alarms program.now) }
{
    let instrs = reached_instrs(alloc, program.files())?;
    let fields = alarming_fields(alloc, program, instrs.as_slice())?;
    let classes = alarming_classes(alloc, program, instrs.as_slice())?;
    Ok(CoarseAlarms { fields, classes })
}

impl CoarseAlarms {
    /// Whether there are at most `MOST_ALARMS` of them.
    pub fn are_few(&self) -> bool
        ensures { result ≡ are_few self.now }
    {
        is_few(self.fields.as_slice(), self.classes.as_slice())
    }

    /// The alarms in order, each of which survives.
    pub fn surviving(&self, alloc: Global) -> Result<Vec<Judged>, AllocError>
        ensures { IfOk result (λ judged. judged.items ≡ all_surviving self.now) }
    {
        surviving_pairs(alloc, self.fields.as_slice(), self.classes.as_slice())
    }
}

// Whether these fields, each with each of these classes, are at most `MOST_ALARMS` alarms.
fn is_few(fields: &[FieldId], classes: &[ClassId]) -> bool
    ensures { result ≡ nat_le (length fields.now * length classes.now) MOST_ALARMS }
{
    match fields.len().checked_mul(classes.len()) {
        Some(count) => count <= MOST_ALARMS,
        None => false,
    }
}

// The alarms of these fields and classes in order, each of which survives.
fn surviving_pairs(
    alloc: Global,
    fields: &[FieldId],
    classes: &[ClassId],
) -> Result<Vec<Judged>, AllocError>
    ensures { IfOk result (λ judged. judged.items ≡ all_surviving (pairs_of (map (λ f. f.0) fields.now) (map (λ c. c.0) classes.now))) }
{
    let mut judged = Vec::new(alloc);
    for field in fields {
        add_surviving(&mut judged, field, classes)?;
    }
    Ok(judged)
}

// Adds the alarms of a field, each of which survives.
fn add_surviving(
    judged: &mut Vec<Judged>,
    field: &FieldId,
    classes: &[ClassId],
) -> Result<(), AllocError>
    ensures { OnOk result (judged.new.items ≡ judged.old.items ++ all_surviving (map (λ n. (field.now.0, n)) (map (λ c. c.0) classes.now))) }
{
    for class in classes {
        judged.push(Judged {
            field: *field,
            class: *class,
            mark: Mark::Survives,
        })?;
    }
    Ok(())
}
