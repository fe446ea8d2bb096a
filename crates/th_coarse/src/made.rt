// The Activity classes that are launched, or of which reachable code makes objects.
ghost use Rattle.std.specs.Prelude.{◌≡◌, ◌<◌, ◌&&◌, ◌||◌, filter, filter_map, length, map, IfOk};
ghost use Rattle.std.specs.BTreeSet.{contains};
ghost use Rattle.std.specs.List.{range_with_len};
ghost use Rattle.std.specs.Ordering.{nat_cmp};
ghost use Rattle.th_base.specs.IdSet.{has};
ghost use Rattle.th_base.specs.Launchable as of_classes;
ghost use Rattle.th_syntax.specs.Program.{hierarchy_of, is_activity, is_launchable};
ghost use Rattle.th_coarse.specs.Coarse.{created_class};

use crate::numbers::set_of;
use std::alloc::{AllocError, Global};
use std::collections::BTreeSet;
use th_base::{ACTIVITY_NUMBER, ClassId, Hierarchy};
use th_harness::{class_named, is_launchable};
use th_syntax::{Instr, Program};

// The Activity classes that are launched or that one of these instructions makes objects of, in order.
pub(crate) fn alarming_classes(
    alloc: Global,
    program: &Program,
    instrs: &[&Instr],
) -> Result<Vec<ClassId>, AllocError>
    ensures { IfOk result (λ classes. map (λ c. c.0) classes.items
        ≡ filter (λ c. is_activity program.now c && (is_launchable program.now c || has (filter_map (created_class program.now) (map (λ i. i.now) instrs.now)) c)) (range_with_len 0 (length (hierarchy_of program.now)))) }
{
    let created = created_classes(alloc, program, instrs)?;
    let created = set_of(alloc, created)?;
    classes_in(alloc, program.hierarchy(), &created)
}

// The classes of which these instructions make objects, by their numbers.
fn created_classes(
    alloc: Global,
    program: &Program,
    instrs: &[&Instr],
) -> Result<Vec<u32>, AllocError>
    ensures { IfOk result (λ numbers. numbers.items ≡ filter_map (created_class program.now) (map (λ i. i.now) instrs.now)) }
{
    let mut numbers = Vec::new(alloc);
    for instr in instrs {
        if let Some(number) = created_class(program, instr) {
            numbers.push(number)?;
        }
    }
    Ok(numbers)
}

// The class of which an instruction makes an object, by its number.
fn created_class(program: &Program, instr: &Instr) -> Option<u32>
    ensures { result ≡ created_class program.now instr.now }
{
    match instr {
        Instr::New(name) => class_named(program, name.as_bytes()).map(|class| class.0),
        _ => None,
    }
}

// The Activity classes that are launched or in a set.
fn classes_in(
    alloc: Global,
    hierarchy: &Hierarchy,
    created: &BTreeSet<u32>,
) -> Result<Vec<ClassId>, AllocError>
    requires { ACTIVITY_NUMBER < length hierarchy.now }
    ensures { IfOk result (λ classes. map (λ c. c.0) classes.items
        ≡ filter (λ c. of_classes.is_activity hierarchy.now c && (of_classes.is_launchable hierarchy.now c || contains nat_cmp created.now c)) (range_with_len 0 (length hierarchy.now))) }
{
    let mut found = Vec::new(alloc);
    let count = hierarchy.classes().len();
    for number in 0..count {
        let class = ClassId(number as u32);
        if is_made(hierarchy, created, class) {
            found.push(class)?;
        }
    }
    Ok(found)
}

// Whether a class is an Activity class that is launched or in a set.
fn is_made(hierarchy: &Hierarchy, created: &BTreeSet<u32>, class: ClassId) -> bool
    requires number { ACTIVITY_NUMBER < length hierarchy.now }
    requires class { class.0 < length hierarchy.now }
    ensures { result ≡ (of_classes.is_activity hierarchy.now class.0 && (of_classes.is_launchable hierarchy.now class.0 || contains nat_cmp created.now class.0)) }
{
    hierarchy.is_subclass(class, ClassId(ACTIVITY_NUMBER))
        && (is_launchable(hierarchy, class) || created.contains(&class.0))
}
