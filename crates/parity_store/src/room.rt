ghost use Rattle.std.specs.Prelude.{◌≡◌, ◌≤◌, length, vec_len, IfOk};

use ckpt_base::NoMemory;
use std::alloc::Global;
use std::marker::Model;

/// Three slots of one size.
#[derive(Drop)]
pub struct Slots {
    /// The one that is read.
    pub read: Vec<u8>,
    /// The one that is rebuilt.
    pub rebuilt: Vec<u8>,
    /// The exclusive-or of those of the jobs.
    pub parity: Vec<u8>,
    ghost same: { (vec_len rebuilt ≡ vec_len read) × (vec_len parity ≡ vec_len read) },
}

/// Room for three slots. Contracts see the bytes of one: what was got.
#[derive(Drop)]
pub struct PoolRoom {
    pub(crate) slots: Slots,
}

impl Model for PoolRoom {
    ghost use Rattle.std.specs.Prelude.{List, ℕ};

    ghost Value = { List ℕ };

    ghost view = { λ r. r.slots.read.items };
}

impl PoolRoom {
    /// Room for three slots of `size` bytes, which is 1 to 16,777,216.
    pub fn new(alloc: Global, size: u32) -> Result<PoolRoom, NoMemory>
        requires least { 1 ≤ size }
        requires most { size ≤ 16777216 }
        ensures size { IfOk result (λ r. length r ≡ size) }
    {
        Ok(PoolRoom {
            slots: Slots {
                read: vec![in alloc; 0; size as usize]?,
                rebuilt: vec![in alloc; 0; size as usize]?,
                parity: vec![in alloc; 0; size as usize]?,
            },
        })
    }

    /// Lends the bytes of one slot: after a `get` that answers n, the first n of them are what was got.
    pub fn bytes(&self) -> &[u8]
        ensures answer { result.now ≡ self.now }
    {
        &self.slots.read
    }
}
