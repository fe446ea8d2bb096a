// The strong components of the direct supertypes, in one walk. Nothing is proved of their numbers:
// `rank` looks at what it needs of them.
use crate::ClassInfo;
use crate::order::{count_supertypes, supertype_at};
use std::alloc::{AllocError, Global};

// An open class, and how many of its direct supertypes haven't been looked at.
#[derive(Clone, Copy)]
struct Visit {
    class: usize,
    left: usize,
}

// A depth-first walk that joins the open classes of a cycle into one part.
#[derive(Drop)]
struct Search {
    // Where each class stands among the open ones, while it does.
    places: Vec<Option<usize>>,
    // The number of each class's component, once that is complete.
    numbers: Vec<Option<usize>>,
    // The classes whose components aren't complete.
    open: Vec<usize>,
    // Where the parts of the open classes begin.
    parts: Vec<usize>,
    // The visits that haven't ended, each of a direct supertype of the one before.
    visits: Vec<Visit>,
    // How many components are complete.
    complete: usize,
}

// The number of each class's strong component: supertypes' components come first.
pub(crate) fn components_of(
    alloc: Global,
    classes: &[ClassInfo],
) -> Result<Vec<usize>, AllocError> {
    let mut search = start(alloc, classes.len())?;
    for class in 0..classes.len() {
        if is_new(&search, class) {
            open(&mut search, classes, class)?;
            visit_all(&mut search, classes)?;
        }
    }
    let mut numbers = Vec::new(alloc);
    for number in &search.numbers {
        numbers.push(number.unwrap_or(0))?;
    }
    Ok(numbers)
}

fn start(alloc: Global, count: usize) -> Result<Search, AllocError> {
    let mut places = Vec::new(alloc);
    let mut numbers = Vec::new(alloc);
    for _ in 0..count {
        places.push(None)?;
        numbers.push(None)?;
    }
    Ok(Search {
        places,
        numbers,
        open: Vec::new(alloc),
        parts: Vec::new(alloc),
        visits: Vec::new(alloc),
        complete: 0,
    })
}

// Whether a class has not been opened.
fn is_new(search: &Search, class: usize) -> bool {
    class < search.places.len()
        && class < search.numbers.len()
        && search.places[class].is_none()
        && search.numbers[class].is_none()
}

// Opens a class, as a part of its own.
fn open(search: &mut Search, classes: &[ClassInfo], class: usize) -> Result<(), AllocError> {
    let place = search.open.len();
    search.open.push(class)?;
    search.parts.push(place)?;
    put(search.places.as_mut_slice(), class, Some(place));
    let left = match classes.get(class) {
        Some(info) => count_supertypes(info),
        None => 0,
    };
    search.visits.push(Visit { class, left })?;
    Ok(())
}

// Goes on with the visits until all have ended.
fn visit_all(search: &mut Search, classes: &[ClassInfo]) -> Result<(), AllocError> {
    for _ in 0..u64::MAX {
        match search.visits.pop() {
            Some(visit) => go_on(search, classes, visit)?,
            None => return Ok(()),
        }
    }
    Ok(())
}

// Looks at the next direct supertype of a class, or ends its visit.
fn go_on(search: &mut Search, classes: &[ClassInfo], visit: Visit) -> Result<(), AllocError> {
    let Visit { class, left } = visit;
    if classes.len() <= class {
        return Ok(());
    }
    if left == 0 || count_supertypes(&classes[class]) < left {
        end(search, class);
        return Ok(());
    }
    let above = supertype_at(&classes[class], left - 1);
    let left = left - 1;
    search.visits.push(Visit { class, left })?;
    if is_new(search, above) {
        return open(search, classes, above);
    }
    if let Some(Some(place)) = search.places.get(above).copied() {
        join(search, place);
    }
    Ok(())
}

// Joins all parts from the one of this place on.
fn join(search: &mut Search, place: usize) {
    for _ in 0..u64::MAX {
        match search.parts.last().copied() {
            Some(part) if place < part => search.parts.pop(),
            _ => return,
        };
    }
}

// Ends a visit. A part that begins with the class is a component.
fn end(search: &mut Search, class: usize) {
    let Some(Some(place)) = search.places.get(class).copied() else {
        return;
    };
    if search.parts.last().copied() != Some(place) {
        return;
    }
    search.parts.pop();
    for _ in place..search.open.len() {
        if let Some(member) = search.open.pop() {
            put(search.places.as_mut_slice(), member, None);
            put(search.numbers.as_mut_slice(), member, Some(search.complete));
        }
    }
    search.complete = search.complete.saturating_add(1);
}

fn put(values: &mut [Option<usize>], at: usize, value: Option<usize>) {
    if at < values.len() {
        values[at] = value;
    }
}
