ghost use Rattle.std.specs.Prelude.{◌≡◌, ◌≤◌, ◌+◌, ◌++◌, [], ◌∷◌, length, IfOk};
ghost use Rattle.ckpt_base.specs.Buffer.{Buffer};

use crate::errors::NoMemory;
use std::alloc::Global;
use std::marker::Model;

/// A list of bytes with spare room, in which appending takes no memory. Contracts see the list and the spare room.
#[derive(Drop)]
pub struct Bytes {
    bytes: Vec<u8>,
    room: usize,
}

impl Model for Bytes {
    ghost use Rattle.std.specs.Prelude.{◌-◌, ◌≤◌, length, vec_capacity};
    ghost use Rattle.ckpt_base.specs.Buffer.{Buffer};

    ghost Value = { Buffer };

    ghost view = { λ b. record { list = b.bytes.items; spare = b.room - length b.bytes.items } };

    ghost invariant = { λ b. record { within : length b.bytes.items ≤ b.room; capacity : b.room ≤ vec_capacity b.bytes } };
}

impl Bytes {
    /// An empty list with at least `n` bytes of spare room.
    pub fn with_room(alloc: Global, n: usize) -> Result<Bytes, NoMemory>
        ensures answer { IfOk result (λ b. (b.list ≡ []) × (n ≤ b.spare)) }
    {
        Ok(Bytes {
            bytes: Vec::with_capacity(alloc, n)?,
            room: n,
        })
    }

    /// How many bytes may still be appended.
    pub fn spare(&self) -> usize
        ensures answer { result ≡ self.now.spare }
    {
        self.room - self.bytes.len()
    }

    /// Lends the bytes.
    pub fn as_slice(&self) -> &[u8]
        ensures answer { result.now ≡ self.now.list }
    {
        &self.bytes
    }

    /// Appends one byte.
    pub fn push(&mut self, b: u8)
        requires room { 1 ≤ self.old.spare }
        ensures list { self.new.list ≡ self.old.list ++ b ∷ [] }
        ensures spare { self.new.spare + 1 ≡ self.old.spare }
    {
        let _ = self.bytes.push(b);
    }

    /// Appends `s`.
    pub fn append(&mut self, s: &[u8])
        requires room { length s.now ≤ self.old.spare }
        ensures list { self.new.list ≡ self.old.list ++ s.now }
        ensures spare { self.new.spare + length s.now ≡ self.old.spare }
    {
        let _ = self.bytes.extend_from_slice(s);
    }

    /// Empties the list and gives its length back to the spare room.
    pub fn clear(&mut self)
        ensures list { self.new.list ≡ [] }
        ensures spare { self.new.spare ≡ self.old.spare + length self.old.list }
    {
        self.bytes.clear();
    }
}
