// Numbers in the order in which they are first mentioned.
ghost use Rattle.std.specs.Prelude.{◌≡◌, ◌==◌, ◌<◌, ◌^◌, [], ◌∷◌, length, map, IfOk, OnOk};
ghost use Rattle.std.specs.List.{list_any};
ghost use Rattle.th_query.specs.Numbered.{mentioned, place_in, numbers_by};

use std::alloc::{AllocError, Global};

// Mentions a number: it is put last, unless it is there.
pub(crate) fn mention(order: &mut Vec<u32>, number: u32) -> Result<(), AllocError>
    ensures { OnOk result (order.new.items ≡ mentioned order.old.items (number ∷ [])) }
{
    if !is_mentioned(order.as_slice(), number) {
        order.push(number)?;
    }
    Ok(())
}

// Whether the number is there.
pub(crate) fn is_mentioned(order: &[u32], number: u32) -> bool
    ensures { result ≡ list_any (λ y. y == number) order.now }
{
    order.iter().any(|other| *other == number)
}

// The place of each number below a bound; the length where it isn't there.
pub(crate) fn places(alloc: Global, order: &[u32], count: usize) -> Result<Vec<u32>, AllocError>
    requires order { length order.now < 2 ^ 32 }
    requires count { count < 2 ^ 32 }
    ensures { IfOk result (λ places. places.items ≡ numbers_by order.now count) }
{
    let mut places = Vec::new(alloc);
    for number in 0..count {
        places.push(place_of(order, number as u32))?;
    }
    Ok(places)
}

// The place of a number; the length where it isn't there.
fn place_of(order: &[u32], number: u32) -> u32
    requires { length order.now < 2 ^ 32 }
    ensures { result ≡ place_in order.now number }
{
    let mut place = 0;
    for other in order {
        if *other == number {
            return place;
        }
        place += 1;
    }
    place
}
