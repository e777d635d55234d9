//! Appending a record, one disk call at a time.
ghost use Rattle.std.specs.Prelude.{◌≡◌, ◌+◌, ◌*◌, ◌<◌, length, IsTrue, IfOk, OnOk, OnErr, Option, Some, None, [], ◌∷◌, ◌++◌, List};
ghost use Rattle.ckpt_base.specs.Faults.{Rose};
ghost use Rattle.disk_model.specs.View.{SameFile, Steady};
ghost use Rattle.disk_model.specs.Moments.{Among, LeavesOnly};
ghost use Rattle.image_format.specs.Image.{Image};
ghost use Rattle.image_chain.specs.Records.{broken_field};
ghost use Rattle.image_chain.specs.Append.{header_of, IsDue, IsInside, SameCurrent, Spells, TakesOver, TakesSpan, IfLast, IsSoundFile, next_of, due_after as due_of};
ghost use Rattle.image_chain.specs.Lists.{Makes, IsAppended, Rests};

use crate::chain::{Chain, Current, Span, Step};
use ckpt_base::Failed;
use disk_model::{Disk, DiskFile};
use image_format::{Fields, read_record};

/// How many bytes a piece has, but for the last one of a record.
pub(crate) const PIECE_BYTES: usize = 4096;

/// The gate byte that is open.
pub(crate) const OPEN_GATE: u8 = 0xA5;

impl Chain {
    /// The step of an append that is due: `Piece(0)` where no record is under way.
    pub fn due(&self) -> Step
        ensures answer { result ≡ self.now.due }
    {
        self.due
    }

    /// Makes the one disk call of the step that is due, and answers the next step. After `Failed` the chain is spent.
    pub fn append_call<D: Disk>(
        &mut self,
        disk: &mut D,
        image: &[u8],
        at: Step,
    ) -> Result<Step, Failed>
        requires image { (r : Image) × Spells r image.now }
        requires room { self.old.current.count < self.old.current.max }
        requires follows { (r : Image) → Spells r image.now → broken_field self.old.current.newest r.fields ≡ None }
        requires due { at ≡ self.old.due }
        requires inside { IsInside at (length image.now) }
        requires stands { IsTrue (D.view disk.old).tells → (rs : List Image) × IsDue self.old.current (D.view disk.old) rs image.now at }
        ensures order { IfOk result (λ next. next ≡ next_of at (length image.now)) }
        ensures due { IfOk result (λ next. self.new.due ≡ due_of next) }
        ensures same { SameCurrent at self.old.current self.new.current }
        ensures took { OnOk result (IfLast at (TakesOver self.old.current self.new.current image.now)) }
        ensures makes { Makes self.old.current self.new.current image.now at result (D.view disk.old) (D.view disk.new) }
        ensures failed { OnErr result (Rose (D.view disk.old).faults (D.view disk.new).faults) }
        ensures counts { OnOk result ((D.view disk.new).faults ≡ (D.view disk.old).faults) }
        ensures steady { Steady (D.view disk.old) (D.view disk.new) }
    {
        let made = make_step(&mut self.current, disk, image, at);
        if let Ok(next) = made {
            self.due = due_after(next);
        }
        made
    }

    /// Appends the record of an image: at each moment a crash leaves the old list, or the old list and the record, and the other image
    /// file as it was; after `Ok` the new list for good. After `Failed` the chain is spent.
    pub fn append<D: Disk>(&mut self, disk: &mut D, image: &[u8]) -> Result<(), Failed>
        requires image { (r : Image) × Spells r image.now }
        requires room { self.old.current.count < self.old.current.max }
        requires follows { (r : Image) → Spells r image.now → broken_field self.old.current.newest r.fields ≡ None }
        requires rest { self.old.due ≡ Step.Piece 0 }
        requires rests { IsTrue (D.view disk.old).tells → (rs : List Image) × Rests self.old (D.view disk.old) rs }
        ensures took { OnOk result ((self.new.due ≡ Step.Piece 0) × TakesOver self.old.current self.new.current image.now) }
        ensures answer { OnOk result (IsTrue (D.view disk.old).tells → (rs : List Image) (r : Image) → Spells r image.now → Rests self.old (D.view disk.old) rs
            → Rests self.new (D.view disk.new) (rs ++ r ∷ [])) }
        ensures any_moment { IsTrue (D.view disk.old).tells → (rs : List Image) (r : Image) → Spells r image.now → Rests self.old (D.view disk.old) rs
            → LeavesOnly (D.view disk.old) (D.view disk.new) (Among (D.view disk.old).may_leave (IsAppended self.old.current rs r)) }
        ensures output { IsTrue (D.view disk.old).tells → (rs : List Image) → Rests self.old (D.view disk.old) rs → SameFile DiskFile.Output (D.view disk.old) (D.view disk.new) }
        ensures failed { OnErr result (Rose (D.view disk.old).faults (D.view disk.new).faults) }
        ensures counts { OnOk result ((D.view disk.new).faults ≡ (D.view disk.old).faults) }
        ensures steady { Steady (D.view disk.old) (D.view disk.new) }
    {
        let mut at = Step::Piece(0);
        loop {
            if let Step::Done = at {
                return Ok(());
            }
            at = self.append_call(disk, image, at)?;
        }
    }
}

fn due_after(next: Step) -> Step
    ensures { result ≡ due_of next }
{
    match next {
        Step::Done => Step::Piece(0),
        step => step,
    }
}

fn make_step<D: Disk>(
    chain: &mut Current,
    disk: &mut D,
    image: &[u8],
    at: Step,
) -> Result<Step, Failed>
    requires image { (r : Image) × Spells r image.now }
    requires room { chain.old.count < chain.old.max }
    requires follows { (r : Image) → Spells r image.now → broken_field chain.old.newest r.fields ≡ None }
    requires inside { IsInside at (length image.now) }
    requires stands { IsTrue (D.view disk.old).tells → (rs : List Image) × IsDue chain.old (D.view disk.old) rs image.now at }
    ensures order { IfOk result (λ next. next ≡ next_of at (length image.now)) }
    ensures same { SameCurrent at chain.old chain.new }
    ensures took { OnOk result (IfLast at (TakesOver chain.old chain.new image.now)) }
    ensures sound { IsSoundFile chain.old → IsSoundFile chain.new }
    ensures makes { Makes chain.old chain.new image.now at result (D.view disk.old) (D.view disk.new) }
    ensures failed { OnErr result (Rose (D.view disk.old).faults (D.view disk.new).faults) }
    ensures counts { OnOk result ((D.view disk.new).faults ≡ (D.view disk.old).faults) }
    ensures steady { Steady (D.view disk.old) (D.view disk.new) }
{
    match at {
        Step::Piece(i) => write_piece(chain, disk, image, i),
        Step::SyncRecord => sync_record(chain, disk, image),
        Step::OpenGate => open_gate(chain, disk, image),
        Step::SyncGate => sync_gate(chain, disk, image),
        Step::Done => Ok(Step::Done),
    }
}

fn write_piece<D: Disk>(
    chain: &mut Current,
    disk: &mut D,
    image: &[u8],
    i: u32,
) -> Result<Step, Failed>
    requires image { (r : Image) × Spells r image.now }
    requires inside { 4096 * i < length image.now }
    requires stands { IsTrue (D.view disk.old).tells → (rs : List Image) × IsDue chain.old (D.view disk.old) rs image.now (Step.Piece i) }
    ensures order { IfOk result (λ next. next ≡ next_of (Step.Piece i) (length image.now)) }
    ensures same { chain.new ≡ chain.old }
    ensures makes { Makes chain.old chain.new image.now (Step.Piece i) result (D.view disk.old) (D.view disk.new) }
    ensures failed { OnErr result (Rose (D.view disk.old).faults (D.view disk.new).faults) }
    ensures counts { OnOk result ((D.view disk.new).faults ≡ (D.view disk.old).faults) }
    ensures steady { Steady (D.view disk.old) (D.view disk.new) }
{
    let from = PIECE_BYTES * i as usize;
    let to = (from + PIECE_BYTES).min(image.len());
    disk.write_at(chain.file, chain.gate + 1 + from as u64, &image[from..to])?;
    if to < image.len() {
        return Ok(Step::Piece(i + 1));
    }
    Ok(Step::SyncRecord)
}

fn sync_record<D: Disk>(chain: &mut Current, disk: &mut D, image: &[u8]) -> Result<Step, Failed>
    ensures order { IfOk result (λ next. next ≡ next_of Step.SyncRecord (length image.now)) }
    ensures same { chain.new ≡ chain.old }
    ensures makes { Makes chain.old chain.new image.now Step.SyncRecord result (D.view disk.old) (D.view disk.new) }
    ensures failed { OnErr result (Rose (D.view disk.old).faults (D.view disk.new).faults) }
    ensures counts { OnOk result ((D.view disk.new).faults ≡ (D.view disk.old).faults) }
    ensures steady { Steady (D.view disk.old) (D.view disk.new) }
{
    disk.sync(chain.file)?;
    Ok(Step::OpenGate)
}

fn open_gate<D: Disk>(chain: &mut Current, disk: &mut D, image: &[u8]) -> Result<Step, Failed>
    requires room { chain.old.count < chain.old.max }
    requires follows { (r : Image) → Spells r image.now → broken_field chain.old.newest r.fields ≡ None }
    requires stands { IsTrue (D.view disk.old).tells → (rs : List Image) × IsDue chain.old (D.view disk.old) rs image.now Step.OpenGate }
    ensures order { IfOk result (λ next. next ≡ next_of Step.OpenGate (length image.now)) }
    ensures same { chain.new ≡ chain.old }
    ensures makes { Makes chain.old chain.new image.now Step.OpenGate result (D.view disk.old) (D.view disk.new) }
    ensures failed { OnErr result (Rose (D.view disk.old).faults (D.view disk.new).faults) }
    ensures counts { OnOk result ((D.view disk.new).faults ≡ (D.view disk.old).faults) }
    ensures steady { Steady (D.view disk.old) (D.view disk.new) }
{
    disk.write_at(chain.file, chain.gate, &[OPEN_GATE])?;
    Ok(Step::SyncGate)
}

fn sync_gate<D: Disk>(chain: &mut Current, disk: &mut D, image: &[u8]) -> Result<Step, Failed>
    requires image { (r : Image) × Spells r image.now }
    requires room { chain.old.count < chain.old.max }
    requires follows { (r : Image) → Spells r image.now → broken_field chain.old.newest r.fields ≡ None }
    ensures order { IfOk result (λ next. next ≡ next_of Step.SyncGate (length image.now)) }
    ensures took { OnOk result (TakesOver chain.old chain.new image.now) }
    ensures sound { IsSoundFile chain.old → IsSoundFile chain.new }
    ensures makes { Makes chain.old chain.new image.now Step.SyncGate result (D.view disk.old) (D.view disk.new) }
    ensures failed { OnErr result (Rose (D.view disk.old).faults (D.view disk.new).faults) }
    ensures counts { OnOk result ((D.view disk.new).faults ≡ (D.view disk.old).faults) }
    ensures steady { Steady (D.view disk.old) (D.view disk.new) }
{
    disk.sync(chain.file)?;
    take_over(chain, image);
    Ok(Step::Done)
}

// Keeps the record that was appended.
fn take_over(chain: &mut Current, image: &[u8])
    requires image { (r : Image) × Spells r image.now }
    requires room { chain.old.count < chain.old.max }
    ensures file { chain.new.file ≡ chain.old.file }
    ensures header { header_of chain.new ≡ header_of chain.old }
    ensures count { chain.new.count ≡ chain.old.count + 1 }
    ensures gate { chain.new.gate ≡ chain.old.gate + length image.now }
    ensures newest { (r : Image) → Spells r image.now → chain.new.newest ≡ Some r.fields }
    ensures newest_at { chain.new.newest_at ≡ chain.old.gate + 1 }
    ensures spans { TakesSpan chain.old chain.new (length image.now) }
{
    chain.newest = fields_of(image);
    chain.newest_at = chain.gate + 1;
    chain.spans[chain.count as usize] = Span {
        at: chain.newest_at,
        length: image.len(),
    };
    chain.count += 1;
    chain.gate += image.len() as u64;
}

// What the record says of its checkpoint.
fn fields_of(image: &[u8]) -> Option<Fields>
    ensures { (r : Image) → Spells r image.now → result ≡ Some r.fields }
{
    match read_record(image) {
        Ok(view) => Some(view.fields()),
        Err(_) => None,
    }
}
