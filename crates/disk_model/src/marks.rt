//! Marks at the places of a file.

ghost use Rattle.std.specs.Prelude.{◌≡◌, ◌+◌, ◌≤◌, ◌++◌, ℕ, true, false, length, take, drop, get_or, replicate, max, vec_capacity, IfOk};
ghost use Rattle.disk_model.specs.MemoryFile.{padded};

use std::alloc::{AllocError, Global};
use std::marker::Model;

/// A mark or none at each of so many places. Memory is touched up to the last place that was marked. Contracts see a list with a `true` for each mark.
#[derive(Drop)]
pub struct Marks {
    front: Vec<bool>,
    room: usize,
}

impl Model for Marks {
    ghost use Rattle.std.specs.Prelude.{◌≤◌, length, Bool, List, vec_capacity};
    ghost use Rattle.disk_model.specs.MemoryFile.{padded};

    ghost Value = { List Bool };

    ghost view = { λ m. padded m.room m.front.items };

    ghost invariant = { λ m. record { within : length m.front.items ≤ m.room; capacity : m.room ≤ vec_capacity m.front } };
}

impl Marks {
    /// No mark at any of so many places.
    pub fn new(alloc: Global, room: usize) -> Result<Marks, AllocError>
        ensures answer { IfOk result (λ m. m ≡ replicate room false) }
    {
        Ok(Marks {
            front: Vec::with_capacity(alloc, room)?,
            room,
        })
    }

    /// How many places there are.
    pub fn len(&self) -> usize
        ensures answer { result ≡ length self.now }
    {
        self.room
    }

    /// Whether there is a mark at this place.
    pub fn is_marked(&self, place: usize) -> bool
        ensures answer { result ≡ get_or self.now place false }
    {
        place < self.front.len() && self.front[place]
    }

    /// Marks so many places from `at` on.
    pub fn mark(&mut self, at: usize, count: usize)
        requires within { at + count ≤ length self.old }
        ensures exact { self.new ≡ take at self.old ++ replicate count true ++ drop (at + count) self.old }
    {
        reach(&mut self.front, at + count);
        mark_in(&mut self.front, at, count);
    }

    /// Takes all marks away.
    pub fn clear(&mut self)
        ensures exact { self.new ≡ replicate (length self.old) false }
    {
        self.front.clear();
    }
}

// Makes the front reach so far, with no mark at what is added.
fn reach(front: &mut Vec<bool>, end: usize)
    requires capacity { end ≤ vec_capacity front.old }
    ensures same { (room : ℕ) → end ≤ room → length front.old.items ≤ room → padded room front.new.items ≡ padded room front.old.items }
    ensures len { length front.new.items ≡ max (length front.old.items) end }
    ensures capacity { vec_capacity front.old ≤ vec_capacity front.new }
{
    if front.len() < end {
        let _ = front.resize(end, false);
    }
}

// Marks this many places from `at` on.
fn mark_in(front: &mut Vec<bool>, at: usize, count: usize)
    requires within { at + count ≤ length front.old.items }
    ensures exact { front.new.items ≡ take at front.old.items ++ replicate count true ++ drop (at + count) front.old.items }
    ensures capacity { vec_capacity front.old ≤ vec_capacity front.new }
{
    let room = front.len();
    let end = at + count;
    front[at..end].fill(true);
}
