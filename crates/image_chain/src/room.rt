ghost use Rattle.std.specs.Prelude.{◌≡◌, ◌≤◌, length, take, drop, IsTrue, IfOk, OnErr, OnOk};
ghost use Rattle.ckpt_base.specs.Faults.{Rose};
ghost use Rattle.disk_model.specs.Store.{file_of};
ghost use Rattle.image_chain.specs.Looking.{OnlyLooked};

use ckpt_base::{Failed, NoMemory};
use disk_model::{Disk, DiskFile};
use std::alloc::Global;
use std::marker::Model;

/// How many bytes a record has at most.
pub(crate) const RECORD_BYTES: usize = 3_145_837;

/// Room for one record. Contracts see its bytes.
#[derive(Drop)]
pub struct ChainRoom {
    bytes: Vec<u8>,
}

impl Model for ChainRoom {
    ghost use Rattle.std.specs.Prelude.{List, ℕ, ◌≡◌, vec_len};

    ghost Value = { List ℕ };

    ghost view = { λ r. r.bytes.items };

    ghost invariant = { λ r. vec_len r.bytes ≡ 3145837 };
}

impl ChainRoom {
    /// Room for one record.
    pub fn new(alloc: Global) -> Result<ChainRoom, NoMemory>
        ensures size { IfOk result (λ r. length r ≡ 3145837) }
    {
        Ok(ChainRoom {
            bytes: vec![in alloc; 0; RECORD_BYTES]?,
        })
    }

    /// Lends the room's bytes.
    pub fn bytes(&self) -> &[u8]
        ensures answer { result.now ≡ self.now }
        ensures size { length self.now ≡ 3145837 }
    {
        &self.bytes
    }

    /// Fills the front with at most `len` bytes of the file from `at` on, and answers how many.
    pub(crate) fn fill<D: Disk>(
        &mut self,
        disk: &mut D,
        file: DiskFile,
        at: u64,
        len: usize,
    ) -> Result<usize, Failed>
        requires len { len ≤ 3145837 }
        ensures bound { IfOk result (λ n. n ≤ len) }
        ensures answer { IfOk result (λ n. IsTrue (D.view disk.old).tells → take n self.new ≡ take len (drop at (file_of file (D.view disk.old).seen))) }
        ensures bytes { IfOk result (λ n. IsTrue (D.view disk.old).tells → take n self.new ≡ take n (drop at (file_of file (D.view disk.old).seen))) }
        ensures looked { OnlyLooked (D.view disk.old) (D.view disk.new) }
        ensures failed { OnErr result (Rose (D.view disk.old).faults (D.view disk.new).faults) }
        ensures counts { OnOk result ((D.view disk.new).faults ≡ (D.view disk.old).faults) }
    {
        let bytes = self.bytes.as_mut_slice();
        fill_front(disk, file, at, bytes, len)
    }
}

// Fills the first `len` of these bytes.
fn fill_front<D: Disk>(
    disk: &mut D,
    file: DiskFile,
    at: u64,
    bytes: &mut [u8],
    len: usize,
) -> Result<usize, Failed>
    requires len { len ≤ length bytes.old }
    ensures bound { IfOk result (λ n. n ≤ len) }
    ensures answer { IfOk result (λ n. IsTrue (D.view disk.old).tells → take n bytes.new ≡ take len (drop at (file_of file (D.view disk.old).seen))) }
    ensures bytes { IfOk result (λ n. IsTrue (D.view disk.old).tells → take n bytes.new ≡ take n (drop at (file_of file (D.view disk.old).seen))) }
    ensures looked { OnlyLooked (D.view disk.old) (D.view disk.new) }
    ensures failed { OnErr result (Rose (D.view disk.old).faults (D.view disk.new).faults) }
    ensures counts { OnOk result ((D.view disk.new).faults ≡ (D.view disk.old).faults) }
{
    let part = &mut bytes[..len];
    let n = disk.read_at(file, at, part)?;
    Ok(n)
}
