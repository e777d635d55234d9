//! A chain that begins, and one that is settled before it goes on.
ghost use Rattle.std.specs.Prelude.{◌≡◌, ◌+◌, ◌≤◌, IsTrue, IfOk, OnOk, OnErr, None, Ok, [], List};
ghost use Rattle.ckpt_base.specs.Faults.{Rose};
ghost use Rattle.disk_model.specs.Store.{Store};
ghost use Rattle.disk_model.specs.View.{SameFile, Steady};
ghost use Rattle.disk_model.specs.Moments.{Among, LeavesOnly};
ghost use Rattle.image_format.specs.Image.{Image};
ghost use Rattle.image_chain.specs.Records.{chain_in};
ghost use Rattle.image_chain.specs.Lists.{IsKept, HasNone, IsSettled, Rests};

use crate::chain::{Chain, Current, NO_SPANS, Step};
use ckpt_base::Failed;
use disk_model::{Disk, DiskFile};
use image_format::{Header, write_header};

impl Chain {
    /// Starts file One anew, with generation 1, a closed gate and no record.
    ///
    /// `every` is at least 1, `max` is 2 to 64. No file is current, and after no crash is there one. File Two stays as it was.
    pub fn start<D: Disk>(disk: &mut D, every: u32, max: u16) -> Result<Chain, Failed>
        requires every { 1 ≤ every }
        requires least { 2 ≤ max }
        requires most { max ≤ 64 }
        ensures file { IfOk result (λ chain. chain.current.file ≡ DiskFile.One) }
        ensures header { IfOk result (λ chain. (chain.current.generation ≡ 1) × (chain.current.every ≡ every) × (chain.current.max ≡ max)) }
        ensures none { IfOk result (λ chain. (chain.current.count ≡ 0) × (chain.current.newest ≡ None) × (chain.due ≡ Step.Piece 0)) }
        ensures answer { IfOk result (λ chain. IsTrue (D.view disk.old).tells → ((c : Store) → (D.view disk.old).may_leave c → chain_in c ≡ Ok None) → Rests chain (D.view disk.new) []) }
        ensures any_moment { IsTrue (D.view disk.old).tells → ((c : Store) → (D.view disk.old).may_leave c → chain_in c ≡ Ok None)
            → LeavesOnly (D.view disk.old) (D.view disk.new) (Among (D.view disk.old).may_leave HasNone) }
        ensures aside { IsTrue (D.view disk.old).tells → SameFile DiskFile.Two (D.view disk.old) (D.view disk.new) }
        ensures output { IsTrue (D.view disk.old).tells → SameFile DiskFile.Output (D.view disk.old) (D.view disk.new) }
        ensures failed { OnErr result (Rose (D.view disk.old).faults (D.view disk.new).faults) }
        ensures counts { OnOk result ((D.view disk.new).faults ≡ (D.view disk.old).faults) }
        ensures steady { Steady (D.view disk.old) (D.view disk.new) }
    {
        let header = write_header(&Header {
            generation: 1,
            every,
            max,
            gate_open: false,
        });
        disk.start_file(DiskFile::One, &header)?;
        Ok(Chain {
            current: Current {
                file: DiskFile::One,
                generation: 1,
                every,
                max,
                count: 0,
                gate: 15,
                newest: None,
                newest_at: 0,
                spans: NO_SPANS,
            },
            due: Step::Piece(0),
        })
    }

    /// Cuts what stands behind the last gate, and makes the file lasting. At each moment a crash leaves the same list, and the other
    /// image file as it was. After `Failed` the chain is spent.
    pub fn settle<D: Disk>(&mut self, disk: &mut D) -> Result<(), Failed>
        requires rest { self.old.due ≡ Step.Piece 0 }
        requires rests { IsTrue (D.view disk.old).tells → (rs : List Image) × Rests self.old (D.view disk.old) rs }
        ensures same { self.new ≡ self.old }
        ensures answer { OnOk result (IsTrue (D.view disk.old).tells → (rs : List Image) → Rests self.old (D.view disk.old) rs → Rests self.new (D.view disk.new) rs × IsSettled self.new (D.view disk.new)) }
        ensures any_moment { IsTrue (D.view disk.old).tells → (rs : List Image) → Rests self.old (D.view disk.old) rs
            → LeavesOnly (D.view disk.old) (D.view disk.new) (Among (D.view disk.old).may_leave (IsKept self.old.current rs)) }
        ensures output { IsTrue (D.view disk.old).tells → (rs : List Image) → Rests self.old (D.view disk.old) rs → SameFile DiskFile.Output (D.view disk.old) (D.view disk.new) }
        ensures failed { OnErr result (Rose (D.view disk.old).faults (D.view disk.new).faults) }
        ensures counts { OnOk result ((D.view disk.new).faults ≡ (D.view disk.old).faults) }
        ensures steady { Steady (D.view disk.old) (D.view disk.new) }
    {
        let current = &self.current;
        disk.cut(current.file, current.gate + 1)?;
        disk.sync(current.file)?;
        Ok(())
    }
}
