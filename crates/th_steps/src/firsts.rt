// Of items that are alike the first stays.
ghost use Rattle.std.specs.Prelude.{◌≡◌, [], take};
ghost use Rattle.std.specs.List.{list_any};
ghost use Rattle.th_query.specs.Unified.{put_new};

/// What tells which items are alike.
pub trait Alike<T> {
    ghost use Rattle.std.specs.Prelude.{◌≡◌, Bool};

    // Whether they are alike.
    ghost alike: { T → T → Bool };

    /// Whether two items are alike.
    fn are_alike(item: T, other: T) -> bool
        ensures { result ≡ alike item other };
}

/// Keeps of items that are alike only the first, each compared with those kept before. Takes no memory.
pub fn keep_firsts<T: Copy + Drop, A: Alike<T>>(items: &mut Vec<T>)
    ensures { items.new.items ≡ put_new A.alike [] items.old.items }
{
    let count = move_firsts::<T, A>(items);
    items.truncate(count);
}

// Moves the first of those that are alike to the front, in order, and answers how many there are.
fn move_firsts<T: Copy, A: Alike<T>>(items: &mut [T]) -> usize
    ensures { take result items.new ≡ put_new A.alike [] items.old }
{
    let mut kept = 0;
    for i in 0..items.len() {
        let item = items[i];
        if !has_alike::<T, A>(&items[..kept], item) {
            items[kept] = item;
            kept += 1;
        }
    }
    kept
}

// Whether one of these is like the item.
fn has_alike<T: Copy, A: Alike<T>>(items: &[T], item: T) -> bool
    ensures { result ≡ list_any (λ y. A.alike y item) items.now }
{
    for other in items {
        if A::are_alike(*other, item) {
            return true;
        }
    }
    false
}
