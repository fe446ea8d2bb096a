// Where the member of each number stands.
ghost use Rattle.std.specs.Prelude.{◌≡◌, ◌<◌, ◌^◌, ◌==◌, ℕ, length, map, IfOk, OnOk, Some, None, if◌then◌else◌};
ghost use Rattle.std.specs.Option.{option_or};
ghost use Rattle.th_base.specs.Numbered.{FindsPlaces, place_in, own_place, field_numbers, method_numbers};

use crate::{ClassInfo, Seq};
use std::alloc::{AllocError, Global};
use std::collections::BTreeMap;

// A member's class, and its place among the members that the class declares.
#[derive(Clone, Copy, Debug)]
pub(crate) struct Place {
    pub(crate) class: u32,
    pub(crate) at: usize,
}

// The first place of each number, in lists of numbers by class.
pub(crate) fn places_of(
    alloc: Global,
    numbers: &[Seq<u32>],
) -> Result<BTreeMap<u32, Place>, AllocError>
    requires { length numbers.now < 2 ^ 32 }
    ensures { IfOk result (FindsPlaces numbers.now) }
{
    let mut places = BTreeMap::new(alloc);
    for (class, own) in numbers.iter().enumerate() {
        add_class(&mut places, class as u32, own.as_slice())?;
    }
    Ok(places)
}

// Adds the places of a class's members.
fn add_class(
    places: &mut BTreeMap<u32, Place>,
    class: u32,
    numbers: &[u32],
) -> Result<(), AllocError>
    ensures { OnOk result ((n : ℕ) → place_in places.new n ≡ option_or (place_in places.old n) (own_place class numbers.now n)) }
{
    for (at, number) in numbers.iter().enumerate() {
        add_place(places, *number, Place { class, at })?;
    }
    Ok(())
}

// Adds the place of a number, unless there is one.
fn add_place(places: &mut BTreeMap<u32, Place>, number: u32, place: Place) -> Result<(), AllocError>
    ensures { OnOk result ((n : ℕ) → place_in places.new n ≡ option_or (place_in places.old n) (if n == number then Some place else None)) }
{
    if !places.contains_key(&number) {
        places.insert(number, place)?;
    }
    Ok(())
}

// The numbers of the fields of each class.
pub(crate) fn field_numbers(
    alloc: Global,
    classes: &[ClassInfo],
) -> Result<Vec<Seq<u32>>, AllocError>
    ensures { IfOk result (λ numbers. numbers.items ≡ field_numbers classes.now) }
{
    let mut numbers = Vec::new(alloc);
    for class in classes {
        let mut own = Vec::new(alloc);
        for field in class.fields.as_slice() {
            own.push(field.id.0)?;
        }
        numbers.push(Seq::from_vec(own))?;
    }
    Ok(numbers)
}

// The numbers of the methods of each class.
pub(crate) fn method_numbers(
    alloc: Global,
    classes: &[ClassInfo],
) -> Result<Vec<Seq<u32>>, AllocError>
    ensures { IfOk result (λ numbers. numbers.items ≡ method_numbers classes.now) }
{
    let mut numbers = Vec::new(alloc);
    for class in classes {
        let mut own = Vec::new(alloc);
        for method in class.methods.as_slice() {
            own.push(method.id.0)?;
        }
        numbers.push(Seq::from_vec(own))?;
    }
    Ok(numbers)
}
