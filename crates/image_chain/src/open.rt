//! Opening the chain of a store.
ghost use Rattle.std.specs.Prelude.{◌≡◌, ◌≢◌, ◌+◌, ◌<◌, ◌≤◌, length, IsTrue, IfOk, IfErr, IfSome, OnOk, slice_index, Option, Some, None, Ok, Err, [], ◌∷◌, ◌++◌, List, ℕ, true, false, if◌then◌else◌, take};
ghost use Rattle.disk_model.specs.Store.{file_of};
ghost use Rattle.disk_model.specs.View.{SameFile, Steady};
ghost use Rattle.disk_model.specs.Moments.{LeavesOnly};
ghost use Rattle.image_format.specs.Image.{Image, IsHeldHeader};
ghost use Rattle.image_format.specs.Spelling.{is_open, image_length, SpellsHeader};
ghost use Rattle.image_chain.specs.Records.{broken_field, only_open, newer as newer_of, in_number, damaged, records_at, found_in, chain_in};
ghost use Rattle.image_chain.specs.Memory.{kept_word};
ghost use Rattle.image_chain.specs.Sound.{HasNewest};
ghost use Rattle.image_chain.specs.Append.{header_of as header_kept};
ghost use Rattle.image_chain.specs.Lists.{found_of};
ghost use Rattle.image_chain.specs.Looking.{IsDamage, Answers, RoseIfFailed, OnlyLooked};
ghost use Rattle.image_chain.specs.Walk.{Walked, Accepted, IsRefused, IsRead, IsFound, IsOpened, opened_as};

use crate::append::OPEN_GATE;
use crate::chain::{Chain, Current, NO_SPANS, Span, Step};
use crate::fault::ChainFault;
use crate::kept::Kept;
use crate::look::{fetch, header_of};
use crate::room::ChainRoom;
use disk_model::{Disk, DiskFile};
use image_format::{Fields, Header, ImageView, read_record};

// The current file and its header: that of greater generation among those with an open gate.
fn newer(one: Option<Header>, two: Option<Header>) -> Result<Option<(DiskFile, Header)>, ChainFault>
    ensures answer { Answers (λ c. c) result (newer_of (only_open one) (only_open two)) }
    ensures damage { IfErr result (λ e. e ≢ ChainFault.Failed) }
{
    match (opened(one), opened(two)) {
        (None, None) => Ok(None),
        (Some(one), None) => Ok(Some((DiskFile::One, one))),
        (None, Some(two)) => Ok(Some((DiskFile::Two, two))),
        (Some(one), Some(two)) => newer_of_two(one, two),
    }
}

fn newer_of_two(one: Header, two: Header) -> Result<Option<(DiskFile, Header)>, ChainFault>
    ensures answer { Answers (λ c. c) result (newer_of (Some one) (Some two)) }
    ensures damage { IfErr result (λ e. e ≢ ChainFault.Failed) }
{
    if one.generation == two.generation {
        return Err(ChainFault::Damaged {
            file: DiskFile::Two,
            place: 4,
        });
    }
    if two.generation < one.generation {
        return Ok(Some((DiskFile::One, one)));
    }
    Ok(Some((DiskFile::Two, two)))
}

fn opened(header: Option<Header>) -> Option<Header>
    ensures { result ≡ only_open header }
{
    match header {
        Some(header) if header.gate_open => Some(header),
        _ => None,
    }
}

// The first field by which a record does not follow the one before it, as its place in the record.
fn broken_place(newest: &Option<Fields>, fields: &Fields) -> Option<u64>
    ensures { result ≡ broken_field newest.now fields.now }
{
    let old = match newest {
        Some(old) => old,
        None => return None,
    };
    if fields.marks.source != old.marks.source {
        return Some(5);
    }
    if fields.marks.input != old.marks.input {
        return Some(37);
    }
    if fields.steps <= old.steps {
        return Some(73);
    }
    if fields.input_place < old.input_place {
        return Some(81);
    }
    if fields.output_length < old.output_length {
        return Some(89);
    }
    if old.number == u32::MAX || fields.number != old.number + 1 {
        return Some(100);
    }
    None
}

// Keeps the record behind the gate at hand, unless it is one too many or does not follow the one before it.
fn accept(current: &mut Current, kept: &mut Kept, view: &ImageView<'_>) -> Result<(), ChainFault>
    requires length { image_length view.now ≤ 3145837 }
    ensures answer { OnOk result (Accepted current.old current.new kept.old kept.new view.now) }
    ensures err { IfErr result (λ e. IsRefused e current.old view.now) }
{
    if current.count == current.max {
        return Err(ChainFault::Damaged {
            file: current.file,
            place: current.gate,
        });
    }
    let fields = view.fields();
    if let Some(field) = broken_place(&current.newest, &fields) {
        return Err(ChainFault::Damaged {
            file: current.file,
            place: current.gate + 1 + field,
        });
    }
    kept.add(view);
    current.newest = Some(fields);
    current.newest_at = current.gate + 1;
    current.spans[current.count as usize] = Span {
        at: current.newest_at,
        length: view.length(),
    };
    current.gate += view.length() as u64;
    current.count += 1;
    Ok(())
}

// Reads the record behind the gate at hand, which is open, and keeps it. Answers whether the gate behind it is open.
fn read_next<D: Disk>(
    disk: &mut D,
    current: &mut Current,
    room: &mut ChainRoom,
    kept: &mut Kept,
) -> Result<bool, ChainFault>
    ensures same { OnOk result ((header_kept current.new ≡ header_kept current.old) × (current.new.file ≡ current.old.file)) }
    ensures count { OnOk result ((current.new.count ≡ current.old.count + 1) × (current.old.count < current.old.max)) }
    ensures newest { OnOk result (HasNewest current.new.newest) }
    ensures answer { IfOk result (λ next. IsTrue (D.view disk.old).tells → (rs : List Image) → Walked current.old kept.old rs (file_of current.old.file (D.view disk.old).seen)
        → is_open (slice_index (file_of current.old.file (D.view disk.old).seen) current.old.gate) ≡ true
        → ((r : Image) × Walked current.new kept.new (rs ++ r ∷ []) (file_of current.old.file (D.view disk.old).seen)) × (is_open (slice_index (file_of current.old.file (D.view disk.old).seen) current.new.gate) ≡ next)) }
    ensures err { IfErr result (λ e. IsTrue (D.view disk.old).tells → (rs : List Image) → Walked current.old kept.old rs (file_of current.old.file (D.view disk.old).seen)
        → is_open (slice_index (file_of current.old.file (D.view disk.old).seen) current.old.gate) ≡ true
        → IsDamage e (records_at current.old.max current.old.file (file_of current.old.file (D.view disk.old).seen) None 15)) }
    ensures looked { OnlyLooked (D.view disk.old) (D.view disk.new) }
    ensures failed { IfErr result (λ e. RoseIfFailed e (D.view disk.old).faults (D.view disk.new).faults) }
    ensures counts { OnOk result ((D.view disk.new).faults ≡ (D.view disk.old).faults) }
{
    let at = current.gate + 1;
    let n = fetch(disk, current.file, at, room)?;
    let bytes = room.bytes();
    let view = match read_record(&bytes[..n]) {
        Ok(view) => view,
        Err(bad) => {
            return Err(ChainFault::Damaged {
                file: current.file,
                place: at + bad.place as u64,
            });
        }
    };
    accept(current, kept, &view)?;
    Ok(bytes[view.length() - 1] == OPEN_GATE)
}

// Reads the records of the current file from the front, up to a gate that is not open.
fn walk<D: Disk>(
    disk: &mut D,
    current: &mut Current,
    room: &mut ChainRoom,
    kept: &mut Kept,
) -> Result<(), ChainFault>
    requires begins { IsTrue (D.view disk.old).tells → Walked current.old kept.old [] (file_of current.old.file (D.view disk.old).seen) × (is_open (slice_index (file_of current.old.file (D.view disk.old).seen) current.old.gate) ≡ true) }
    ensures same { OnOk result ((header_kept current.new ≡ header_kept current.old) × (current.new.file ≡ current.old.file)) }
    ensures newest { OnOk result (HasNewest current.new.newest) }
    ensures some { OnOk result (1 ≤ current.new.count) }
    ensures answer { OnOk result (IsTrue (D.view disk.old).tells → (rs : List Image) × Walked current.new kept.new rs (file_of current.old.file (D.view disk.old).seen)
        × (is_open (slice_index (file_of current.old.file (D.view disk.old).seen) current.new.gate) ≡ false) × (1 ≤ length rs)) }
    ensures err { IfErr result (λ e. IsTrue (D.view disk.old).tells → IsDamage e (records_at current.old.max current.old.file (file_of current.old.file (D.view disk.old).seen) None 15)) }
    ensures looked { OnlyLooked (D.view disk.old) (D.view disk.new) }
    ensures failed { IfErr result (λ e. RoseIfFailed e (D.view disk.old).faults (D.view disk.new).faults) }
    ensures counts { OnOk result ((D.view disk.new).faults ≡ (D.view disk.old).faults) }
{
    let mut open = read_next(disk, current, room, kept)?;
    while open {
        open = read_next(disk, current, room, kept)?;
    }
    Ok(())
}

// Whether the generation and the count run ahead of the number of the newest image.
fn is_ahead(current: &Current) -> bool
    ensures { in_number current.now.file (current.now.generation + current.now.count) current.now.newest ≡ (if result then damaged current.now.file 4 else Ok tt) }
{
    match current.newest {
        Some(fields) => {
            (fields.number as u64) + 1 < current.generation as u64 + current.count as u64
        }
        None => false,
    }
}

// The chain of the current file, with all of its records read.
fn read_chain<D: Disk>(
    disk: &mut D,
    file: DiskFile,
    header: Header,
    room: &mut ChainRoom,
    kept: &mut Kept,
) -> Result<Chain, ChainFault>
    requires held { IsHeldHeader header }
    requires open { header.gate_open ≡ true }
    requires text { IsTrue (D.view disk.old).tells → SpellsHeader header (take 16 (file_of file (D.view disk.old).seen)) × (16 ≤ length (file_of file (D.view disk.old).seen)) }
    requires none { (c : ℕ) → kept_word kept.old c ≡ None }
    ensures same { IfOk result (λ chain. (chain.current.file ≡ file) × (header_kept chain.current ≡ header) × (chain.due ≡ Step.Piece 0)) }
    ensures some { IfOk result (λ chain. 1 ≤ chain.current.count) }
    ensures answer { IfOk result (λ chain. IsTrue (D.view disk.old).tells → (rs : List Image) × IsRead chain.current kept.new rs (file_of file (D.view disk.old).seen)
        × (found_in (D.view disk.old).seen (Some (file, header)) ≡ Ok (found_of file header rs))) }
    ensures err { IfErr result (λ e. IsTrue (D.view disk.old).tells → IsDamage e (found_in (D.view disk.old).seen (Some (file, header)))) }
    ensures looked { OnlyLooked (D.view disk.old) (D.view disk.new) }
    ensures failed { IfErr result (λ e. RoseIfFailed e (D.view disk.old).faults (D.view disk.new).faults) }
    ensures counts { OnOk result ((D.view disk.new).faults ≡ (D.view disk.old).faults) }
{
    let mut current = Current {
        file,
        generation: header.generation,
        every: header.every,
        max: header.max,
        count: 0,
        gate: 15,
        newest: None,
        newest_at: 0,
        spans: NO_SPANS,
    };
    walk(disk, &mut current, room, kept)?;
    if is_ahead(&current) {
        return Err(ChainFault::Damaged { file, place: 4 });
    }
    Ok(Chain {
        current,
        due: Step::Piece(0),
    })
}

// The chain of a store whose image files are on the disk as they read.
fn read_store<D: Disk>(
    disk: &mut D,
    room: &mut ChainRoom,
    kept: &mut Kept,
) -> Result<Option<Chain>, ChainFault>
    requires none { (c : ℕ) → kept_word kept.old c ≡ None }
    ensures empty { IfOk result (λ found. found ≡ None → (c : ℕ) → kept_word kept.new c ≡ None) }
    ensures rest { IfOk result (λ found. IfSome found (λ chain. chain.due ≡ Step.Piece 0)) }
    ensures some { IfOk result (λ found. IfSome found (λ chain. 1 ≤ chain.current.count)) }
    ensures answer { IfOk result (λ found. IsTrue (D.view disk.old).tells → (rs : List Image) × (chain_in (D.view disk.old).seen ≡ Ok (opened_as found rs)) × IsFound found kept.new rs (D.view disk.old).seen) }
    ensures err { IfErr result (λ e. IsTrue (D.view disk.old).tells → IsDamage e (chain_in (D.view disk.old).seen)) }
    ensures looked { OnlyLooked (D.view disk.old) (D.view disk.new) }
    ensures failed { IfErr result (λ e. RoseIfFailed e (D.view disk.old).faults (D.view disk.new).faults) }
    ensures counts { OnOk result ((D.view disk.new).faults ≡ (D.view disk.old).faults) }
{
    let one = header_of(disk, DiskFile::One)?;
    let two = header_of(disk, DiskFile::Two)?;
    let (file, header) = match newer(one, two)? {
        Some(found) => found,
        None => return Ok(None),
    };
    let chain = read_chain(disk, file, header, room, kept)?;
    Ok(Some(chain))
}

impl Chain {
    /// Opens the chain of a store: makes both image files lasting, reads the headers and the current file's records, and keeps their joined
    /// content. `None` comes where no file is current and nothing is damaged; `Damaged` exactly with the damage that the store has.
    ///
    /// `kept` lists nothing before, nor after `None`, and is of no use after a fault. The contents of the disk stay.
    pub fn open<D: Disk>(
        disk: &mut D,
        room: &mut ChainRoom,
        kept: &mut Kept,
    ) -> Result<Option<Chain>, ChainFault>
        requires none { (c : ℕ) → kept_word kept.old c ≡ None }
        ensures empty { IfOk result (λ found. found ≡ None → (c : ℕ) → kept_word kept.new c ≡ None) }
        ensures rest { IfOk result (λ found. IfSome found (λ chain. chain.due ≡ Step.Piece 0)) }
        ensures some { IfOk result (λ found. IfSome found (λ chain. 1 ≤ chain.current.count)) }
        ensures answer { IfOk result (λ found. IsTrue (D.view disk.old).tells → (rs : List Image) × (chain_in (D.view disk.old).seen ≡ Ok (opened_as found rs)) × IsOpened found kept.new rs (D.view disk.new)) }
        ensures err { IfErr result (λ e. IsTrue (D.view disk.old).tells → IsDamage e (chain_in (D.view disk.old).seen)) }
        ensures same { IsTrue (D.view disk.old).tells → (D.view disk.new).seen ≡ (D.view disk.old).seen }
        ensures any_moment { IsTrue (D.view disk.old).tells → LeavesOnly (D.view disk.old) (D.view disk.new) (D.view disk.old).may_leave }
        ensures output { IsTrue (D.view disk.old).tells → SameFile DiskFile.Output (D.view disk.old) (D.view disk.new) }
        ensures failed { IfErr result (λ e. RoseIfFailed e (D.view disk.old).faults (D.view disk.new).faults) }
        ensures counts { OnOk result ((D.view disk.new).faults ≡ (D.view disk.old).faults) }
        ensures steady { Steady (D.view disk.old) (D.view disk.new) }
    {
        disk.sync(DiskFile::One)?;
        disk.sync(DiskFile::Two)?;
        let found = read_store(disk, room, kept)?;
        Ok(found)
    }
}
