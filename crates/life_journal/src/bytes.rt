//! The output of a journal.
ghost use Rattle.std.specs.Prelude.{◌≡◌, ◌≢◌, ◌≤◌, ◌+◌, ◌++◌, ◌^◌, List, ℕ, length, IsTrue, OnOk, OnErr};
ghost use Rattle.std.specs.Fmt.{signed_decimal};
ghost use Rattle.ckpt_base.specs.Faults.{Rose};
ghost use Rattle.disk_model.specs.View.{SameFile, Steady};
ghost use Rattle.disk_model.specs.Moments.{Among, LeavesOnly};
ghost use Rattle.image_format.specs.Image.{Image};
ghost use Rattle.output_file.specs.Pushed.{length_of, flushed};
ghost use Rattle.output_file.specs.OnDisk.{IsOutputOn, IsOnDisk, IsBehind};
ghost use Rattle.life_journal.specs.Holding.{HoldsJournal};
ghost use Rattle.life_journal.specs.Writing.{KeepsJournal, FitsOutput};

use crate::journal::{Journal, JournalState};
use ckpt_base::Failed;
use disk_model::{Disk, DiskFile};
use itoa::Buffer;
use output_file::Output;

impl Journal {
    /// Adds bytes to the output. There is a call on the disk only where more bytes wait than may.
    pub fn write<D: Disk>(&mut self, disk: &mut D, bytes: &[u8]) -> Result<(), Failed>
        requires whole { self.old.state ≢ JournalState.Spent }
        requires fits { FitsOutput self.old (D.view disk.old) }
        ensures state { OnOk result (self.new.state ≡ self.old.state) }
        ensures same { (self.new.chain ≡ self.old.chain) × (self.new.kept ≡ self.old.kept) × (self.new.prepared ≡ self.old.prepared) }
        ensures lasting { OnOk result (self.new.output.lasting ≡ self.old.output.lasting) }
        ensures count { OnOk result (length_of self.new.output ≡ length_of self.old.output + length bytes.now) }
        ensures holds { OnOk result (IsTrue (D.view disk.old).tells → (rs : List Image) (written : List ℕ) → HoldsJournal self.old (D.view disk.old) rs written → HoldsJournal self.new (D.view disk.new) rs (written ++ bytes.now)) }
        ensures keeps { OnOk result (IsTrue (D.view disk.old).tells → (rs : List Image) (r : Image) (written : List ℕ)
            → KeepsJournal self.old (D.view disk.old) rs r written → KeepsJournal self.new (D.view disk.new) rs r (written ++ bytes.now)) }
        ensures any_moment { IsTrue (D.view disk.old).tells → LeavesOnly (D.view disk.old) (D.view disk.new) (Among (D.view disk.old).may_leave (IsBehind self.old.output.lasting)) }
        ensures failed { OnErr result (Rose (D.view disk.old).faults (D.view disk.new).faults) }
        ensures counts { OnOk result ((D.view disk.new).faults ≡ (D.view disk.old).faults) }
        ensures steady { Steady (D.view disk.old) (D.view disk.new) }
    {
        // spent, unless the calls answer
        let state = self.state;
        self.state = JournalState::Spent;
        push_all(&mut self.output, disk, bytes)?;
        self.state = state;
        Ok(())
    }

    /// Adds a number in decimal digits to the output, as `write` does.
    pub fn write_number<D: Disk>(&mut self, disk: &mut D, number: i64) -> Result<(), Failed>
        requires whole { self.old.state ≢ JournalState.Spent }
        requires fits { FitsOutput self.old (D.view disk.old) }
        ensures state { OnOk result (self.new.state ≡ self.old.state) }
        ensures same { (self.new.chain ≡ self.old.chain) × (self.new.kept ≡ self.old.kept) × (self.new.prepared ≡ self.old.prepared) }
        ensures lasting { OnOk result (self.new.output.lasting ≡ self.old.output.lasting) }
        ensures count { OnOk result (length_of self.new.output ≡ length_of self.old.output + length (signed_decimal number)) }
        ensures holds { OnOk result (IsTrue (D.view disk.old).tells → (rs : List Image) (written : List ℕ) → HoldsJournal self.old (D.view disk.old) rs written → HoldsJournal self.new (D.view disk.new) rs (written ++ signed_decimal number)) }
        ensures keeps { OnOk result (IsTrue (D.view disk.old).tells → (rs : List Image) (r : Image) (written : List ℕ)
            → KeepsJournal self.old (D.view disk.old) rs r written → KeepsJournal self.new (D.view disk.new) rs r (written ++ signed_decimal number)) }
        ensures any_moment { IsTrue (D.view disk.old).tells → LeavesOnly (D.view disk.old) (D.view disk.new) (Among (D.view disk.old).may_leave (IsBehind self.old.output.lasting)) }
        ensures failed { OnErr result (Rose (D.view disk.old).faults (D.view disk.new).faults) }
        ensures counts { OnOk result ((D.view disk.new).faults ≡ (D.view disk.old).faults) }
        ensures steady { Steady (D.view disk.old) (D.view disk.new) }
    {
        let mut digits = Buffer::new();
        let text = digits.format(number);
        self.write(disk, text.as_bytes())?;
        Ok(())
    }

    /// Makes the output lasting.
    pub fn flush<D: Disk>(&mut self, disk: &mut D) -> Result<(), Failed>
        requires whole { self.old.state ≢ JournalState.Spent }
        requires fits { FitsOutput self.old (D.view disk.old) }
        ensures state { OnOk result (self.new.state ≡ self.old.state) }
        ensures same { (self.new.chain ≡ self.old.chain) × (self.new.kept ≡ self.old.kept) × (self.new.prepared ≡ self.old.prepared) }
        ensures exact { OnOk result (self.new.output ≡ flushed self.old.output) }
        ensures holds { OnOk result (IsTrue (D.view disk.old).tells → (rs : List Image) (written : List ℕ) → HoldsJournal self.old (D.view disk.old) rs written → HoldsJournal self.new (D.view disk.new) rs written × IsOnDisk written (D.view disk.new)) }
        ensures keeps { OnOk result (IsTrue (D.view disk.old).tells → (rs : List Image) (r : Image) (written : List ℕ)
            → KeepsJournal self.old (D.view disk.old) rs r written → KeepsJournal self.new (D.view disk.new) rs r written × IsOnDisk written (D.view disk.new)) }
        ensures any_moment { IsTrue (D.view disk.old).tells → LeavesOnly (D.view disk.old) (D.view disk.new) (Among (D.view disk.old).may_leave (IsBehind self.old.output.lasting)) }
        ensures failed { OnErr result (Rose (D.view disk.old).faults (D.view disk.new).faults) }
        ensures counts { OnOk result ((D.view disk.new).faults ≡ (D.view disk.old).faults) }
        ensures steady { Steady (D.view disk.old) (D.view disk.new) }
    {
        let state = self.state;
        self.state = JournalState::Spent;
        self.output.flush(disk)?;
        self.state = state;
        Ok(())
    }
}

// Pushes bytes, one after another.
fn push_all<D: Disk>(output: &mut Output, disk: &mut D, bytes: &[u8]) -> Result<(), Failed>
    requires begun { IsTrue output.old.begun }
    requires fits { IsTrue (D.view disk.old).tells → (written : List ℕ) × IsOutputOn output.old (D.view disk.old) written }
    ensures begun { OnOk result (IsTrue output.new.begun) }
    ensures lasting { OnOk result (output.new.lasting ≡ output.old.lasting) }
    ensures count { OnOk result (length_of output.new ≡ length_of output.old + length bytes.now) }
    ensures answer { OnOk result (IsTrue (D.view disk.old).tells → (written : List ℕ) → IsOutputOn output.old (D.view disk.old) written → IsOutputOn output.new (D.view disk.new) (written ++ bytes.now)) }
    ensures any_moment { IsTrue (D.view disk.old).tells → LeavesOnly (D.view disk.old) (D.view disk.new) (Among (D.view disk.old).may_leave (IsBehind output.old.lasting)) }
    ensures same { IsTrue (D.view disk.old).tells → SameFile DiskFile.One (D.view disk.old) (D.view disk.new) × SameFile DiskFile.Two (D.view disk.old) (D.view disk.new) }
    ensures failed { OnErr result (Rose (D.view disk.old).faults (D.view disk.new).faults) }
    ensures counts { OnOk result ((D.view disk.new).faults ≡ (D.view disk.old).faults) }
    ensures steady { Steady (D.view disk.old) (D.view disk.new) }
{
    'bytes: for byte in bytes {
        output.push(disk, *byte)?;
    }
    Ok(())
}
