// The places from which control is still to be followed.
ghost use Rattle.std.specs.Prelude.{◌≡◌, ◌+◌, ◌≤◌, [], length, IfOk, OnOk, OnSome};

use std::alloc::{AllocError, Global};
use std::collections::VecDeque;

// Places in the order in which they came, each once.
#[derive(Debug, Drop)]
pub(crate) struct Queue {
    pub(crate) places: VecDeque<usize>,
    waits: Vec<bool>,
}

impl Queue {
    // No place of so many.
    pub(crate) fn new(alloc: Global, places: usize) -> Result<Queue, AllocError>
        ensures { IfOk result (λ queue. queue.places.items ≡ []) }
    {
        let mut waits = Vec::new(alloc);
        for _ in 0..places {
            waits.push(false)?;
        }
        Ok(Queue {
            places: VecDeque::new(alloc),
            waits,
        })
    }

    // Adds a place that doesn't wait yet.
    pub(crate) fn push(&mut self, place: usize) -> Result<(), AllocError>
        ensures { OnOk result (length self.new.places.items ≤ length self.old.places.items + 1) }
    {
        if place < self.waits.len() {
            if self.waits[place] {
                return Ok(());
            }
            self.waits[place] = true;
        }
        self.places.push_back(place)?;
        Ok(())
    }

    // Takes the first place away.
    pub(crate) fn pop(&mut self) -> Option<usize>
        ensures { OnSome result (length self.new.places.items + 1 ≡ length self.old.places.items) }
    {
        let place = self.places.pop_front()?;
        if place < self.waits.len() {
            self.waits[place] = false;
        }
        Some(place)
    }
}
