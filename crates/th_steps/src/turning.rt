// Each item of a list is turned into another.
ghost use Rattle.std.specs.Prelude.{◌≡◌, map, IfOk};

use std::alloc::{AllocError, Global};
use th_base::Seq;

/// What an item is turned into, by what the value holds.
pub trait Turn<T> {
    ghost use Rattle.std.specs.Prelude.{◌≡◌};

    // What it becomes.
    ghost turned: { Self → T → T };

    /// Turns an item.
    fn turn(&self, item: T) -> T
        ensures { result ≡ turned self.now item };
}

/// Turns each item, where it stands. Takes no memory.
pub fn turn_each<T: Copy, M: Turn<T>>(items: &mut [T], with: &M)
    ensures { items.new ≡ map (M.turned with.now) items.old }
{
    for i in 0..items.len() {
        let item = items[i];
        items[i] = with.turn(item);
    }
}

/// Turns each item of a sequence, where it stands. Takes no memory.
pub fn turn_seq<T: Copy + Drop, M: Turn<T>>(items: Seq<T>, with: &M) -> Seq<T>
    ensures { result ≡ map (M.turned with.now) items }
{
    let mut items = items.into_vec();
    turn_each(&mut items, with);
    Seq::from_vec(items)
}

/// Turns each item into one of a new vector.
pub fn turn_all<T: Drop, M: Turn<T>>(
    alloc: Global,
    items: Vec<T>,
    with: &M,
) -> Result<Vec<T>, AllocError>
    ensures { IfOk result (λ all. all.items ≡ map (M.turned with.now) items.items) }
{
    let mut all = Vec::new(alloc);
    for item in items {
        all.push(with.turn(item))?;
    }
    Ok(all)
}
