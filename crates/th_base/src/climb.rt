// A climb by direct supertypes, from one class to another.
ghost use Rattle.std.specs.Prelude.{◌≡◌, ◌↔◌, ◌<◌, ℕ, false, [], ◌∷◌, length, IfOk, OnOk, IsTrue};
ghost use Rattle.th_base.specs.Climb.{HasSeen, is_seen};
ghost use Rattle.th_base.specs.Cycles.{IsAtOrAbove};
ghost use Rattle.th_base.specs.Order.{supertypes_in};

use crate::ClassInfo;
use crate::order::{count_supertypes, supertype_at};
use std::alloc::{AllocError, Global};

// The classes that a climb has come to.
#[derive(Drop)]
struct Climb {
    // Whether each class has been seen.
    seen: Vec<bool>,
    // The seen classes from which the climb hasn't gone on.
    todo: Vec<usize>,
}

// Whether a class is another one, or stands above it.
pub(crate) fn is_at_or_above(
    alloc: Global,
    classes: &[ClassInfo],
    goal: usize,
    from: usize,
) -> Result<bool, AllocError>
    requires { goal < length classes.now }
    ensures { IfOk result (λ answer. IsTrue answer ↔ IsAtOrAbove classes.now goal from) }
{
    let mut climb = start(alloc, classes.len())?;
    see(&mut climb, from)?;
    while let Some(class) = climb.todo.pop() {
        if class == goal {
            return Ok(true);
        }
        see_supertypes(&mut climb, &classes[class])?;
    }
    Ok(false)
}

// A climb that has come to no class.
fn start(alloc: Global, count: usize) -> Result<Climb, AllocError>
    ensures room { IfOk result (λ climb. length climb.seen.items ≡ count) }
    ensures none { IfOk result (λ climb. (x : ℕ) → is_seen climb.seen.items x ≡ false) }
    ensures empty { IfOk result (λ climb. climb.todo.items ≡ []) }
{
    let mut seen = Vec::new(alloc);
    for _ in 0..count {
        seen.push(false)?;
    }
    let todo = Vec::new(alloc);
    Ok(Climb { seen, todo })
}

// Comes to a class, if there is one of this number.
fn see(climb: &mut Climb, class: usize) -> Result<(), AllocError>
    ensures { OnOk result (HasSeen climb.old climb.new (class ∷ [])) }
{
    if class >= climb.seen.len() {
        return Ok(());
    }
    if climb.seen[class] {
        return Ok(());
    }
    climb.todo.push(class)?;
    climb.seen[class] = true;
    Ok(())
}

// Comes to the direct supertypes of a class.
fn see_supertypes(climb: &mut Climb, class: &ClassInfo) -> Result<(), AllocError>
    ensures { OnOk result (HasSeen climb.old climb.new (supertypes_in class.now)) }
{
    for at in 0..count_supertypes(class) {
        see(climb, supertype_at(class, at))?;
    }
    Ok(())
}
