//! What a chain tells, and its records.
ghost use Rattle.std.specs.Prelude.{◌≡◌, ◌⊎◌, ◌<◌, ◌≤◌, ◌+◌, ℕ, List, ◌∷◌, [], ◌++◌, length, take, IsTrue, IfOk, IfErr, IsSome, Option, None, Ok, OnOk};
ghost use Rattle.disk_model.specs.Store.{Store, file_of};
ghost use Rattle.disk_model.specs.View.{Steady};
ghost use Rattle.disk_model.specs.Moments.{LeavesOnly};
ghost use Rattle.image_format.specs.Image.{Image};
ghost use Rattle.image_format.specs.Reading.{image_at};
ghost use Rattle.image_chain.specs.Records.{newest_of, broken_field};
ghost use Rattle.image_chain.specs.Sound.{HasNewest};
ghost use Rattle.image_chain.specs.Append.{chained_length, IsDue, Spells};
ghost use Rattle.image_chain.specs.Lists.{Lists, Rests};
ghost use Rattle.image_chain.specs.Looking.{OnlyLooked, RoseIfFailed};
ghost use Rattle.image_chain.specs.Shown.{IsJudged, IsRecordOf, IsNoRecord, IsShown, JudgesRecord, ShowsRecord, StandsAt, place_in, span_at};

use crate::chain::{Chain, Span, Step};
use crate::fault::ChainFault;
use crate::room::{ChainRoom, RECORD_BYTES};
use disk_model::{Disk, DiskFile};
use image_format::{Fields, read_record};

impl Chain {
    /// How many records there are.
    pub fn count(&self) -> u16
        ensures answer { result ≡ self.now.current.count }
        ensures most { result ≤ self.now.current.max }
    {
        self.current.count
    }

    /// The generation of the current file.
    pub fn generation(&self) -> u32
        ensures answer { result ≡ self.now.current.generation }
    {
        self.current.generation
    }

    /// The steps from one image to the next.
    pub fn every(&self) -> u32
        ensures answer { result ≡ self.now.current.every }
    {
        self.current.every
    }

    /// How many records the file holds at most.
    pub fn max(&self) -> u16
        ensures answer { result ≡ self.now.current.max }
        ensures least { 2 ≤ result }
        ensures most { result ≤ 64 }
    {
        self.current.max
    }

    /// What the newest record says of its checkpoint; none where there is no record.
    pub fn newest(&self) -> Option<Fields>
        ensures answer { result ≡ self.now.current.newest }
        ensures said { 1 ≤ self.now.current.count → HasNewest result }
        ensures some { 1 ≤ self.now.current.count → IsSome result }
        ensures none { self.now.current.count ≡ 0 → result ≡ None }
    {
        self.current.newest
    }

    /// The current file.
    pub fn file(&self) -> DiskFile
        ensures answer { result ≡ self.now.current.file }
    {
        self.current.file
    }

    /// The place in the current file at which the newest record begins. There is one.
    pub fn newest_place(&self) -> u64
        requires some { 1 ≤ self.now.current.count }
        ensures answer { result ≡ self.now.current.newest_at }
        ensures most { result ≤ 201333583 }
    {
        self.current.newest_at
    }

    /// Reads record `i`, counted from 0, into the room and answers its length. No record is under way.
    ///
    /// `Damaged` comes exactly where the bytes that are read are no record of the length that record `i` has, with the place of the first
    /// bad field, or of the length where only that differs.
    pub fn record_at<D: Disk>(
        &self,
        disk: &mut D,
        i: u16,
        room: &mut ChainRoom,
    ) -> Result<usize, ChainFault>
        requires i { i < self.now.current.count }
        requires rest { self.now.due ≡ Step.Piece 0 }
        ensures length { IfOk result (λ n. n ≡ (span_at self.now i).length) }
        ensures most { IfOk result (λ n. n ≤ 3145837) }
        ensures answer { IfOk result (λ n. IsRecordOf n (take n room.new)) }
        ensures damaged { IfErr result (λ e. (n : ℕ) × (n ≤ (span_at self.now i).length) × IsNoRecord e self.now.current.file (span_at self.now i) (image_at (take n room.new))) }
        ensures exact { JudgesRecord self.now (D.view disk.old) i result room.new }
        ensures told { ShowsRecord self.now (D.view disk.old) i result room.new }
        ensures looked { OnlyLooked (D.view disk.old) (D.view disk.new) }
        ensures any_moment { IsTrue (D.view disk.old).tells → LeavesOnly (D.view disk.old) (D.view disk.new) (D.view disk.old).may_leave }
        ensures failed { IfErr result (λ e. RoseIfFailed e (D.view disk.old).faults (D.view disk.new).faults) }
        ensures counts { OnOk result ((D.view disk.new).faults ≡ (D.view disk.old).faults) }
        ensures steady { Steady (D.view disk.old) (D.view disk.new) }
    {
        let span = self.span_of(i);
        read_span(disk, self.current.file, span, room)
    }

    // Where record `i` stands.
    fn span_of(&self, i: u16) -> Span
        requires i { i < self.now.current.count }
        ensures { result ≡ span_at self.now i }
    {
        self.current.spans[i as usize]
    }

    /// What a chain at rest tells of its records, and what reads and crashes give of it. The first piece of any record is due.
    pub fn tells<D: Disk>(&self, disk: &D)
        ensures count { IsTrue (D.view disk.now).tells → (rs : List Image) → Rests self.now (D.view disk.now) rs → self.now.current.count ≡ length rs }
        ensures newest { IsTrue (D.view disk.now).tells → (rs : List Image) → Rests self.now (D.view disk.now) rs → self.now.current.newest ≡ newest_of None rs }
        ensures newest_place { IsTrue (D.view disk.now).tells → (rs : List Image) → Rests self.now (D.view disk.now) rs → (before : List Image) (r : Image) → rs ≡ before ++ r ∷ [] → self.now.current.newest_at ≡ 16 + chained_length before }
        ensures reads { IsTrue (D.view disk.now).tells → (rs : List Image) → Rests self.now (D.view disk.now) rs → Lists self.now.current rs (D.view disk.now).seen }
        ensures lasting { IsTrue (D.view disk.now).tells → (rs : List Image) → Rests self.now (D.view disk.now) rs → (c : Store) → (D.view disk.now).may_leave c → Lists self.now.current rs c }
        ensures begins { (rs : List Image) (image : List ℕ) → Rests self.now (D.view disk.now) rs → IsDue self.now.current (D.view disk.now) rs image (Step.Piece 0) }
    {}

    /// What reads and crashes give of the records while a step of an append of this record is due.
    pub fn tells_due<D: Disk>(&self, disk: &D, image: &[u8])
        requires room { self.now.current.count < self.now.current.max }
        requires follows { (r : Image) → Spells r image.now → broken_field self.now.current.newest r.fields ≡ None }
        ensures reads { IsTrue (D.view disk.now).tells → (rs : List Image) (at : Step) → (at ≡ Step.SyncGate → ⊥) → IsDue self.now.current (D.view disk.now) rs image.now at → Lists self.now.current rs (D.view disk.now).seen }
        ensures lasting { IsTrue (D.view disk.now).tells → (rs : List Image) (at : Step) → (at ≡ Step.SyncGate → ⊥) → IsDue self.now.current (D.view disk.now) rs image.now at → (c : Store) → (D.view disk.now).may_leave c → Lists self.now.current rs c }
        ensures opened { IsTrue (D.view disk.now).tells → (rs : List Image) (r : Image) → Spells r image.now → IsDue self.now.current (D.view disk.now) rs image.now Step.SyncGate → Lists self.now.current (rs ++ r ∷ []) (D.view disk.now).seen }
        ensures either { IsTrue (D.view disk.now).tells → (rs : List Image) (r : Image) → Spells r image.now → IsDue self.now.current (D.view disk.now) rs image.now Step.SyncGate
            → (c : Store) → (D.view disk.now).may_leave c → Lists self.now.current rs c ⊎ Lists self.now.current (rs ++ r ∷ []) c }
    {}
}

// Reads the record at a span.
fn read_span<D: Disk>(
    disk: &mut D,
    file: DiskFile,
    span: Span,
    room: &mut ChainRoom,
) -> Result<usize, ChainFault>
    ensures length { IfOk result (λ n. n ≡ span.length) }
    ensures most { IfOk result (λ n. n ≤ 3145837) }
    ensures answer { IfOk result (λ n. IsRecordOf n (take n room.new)) }
    ensures damaged { IfErr result (λ e. (n : ℕ) × (n ≤ span.length) × IsNoRecord e file span (image_at (take n room.new))) }
    ensures exact { IsTrue (D.view disk.old).tells → IsJudged result file span (file_of file (D.view disk.old).seen) room.new }
    ensures told { IsTrue (D.view disk.old).tells → (r : Image) → StandsAt span r (file_of file (D.view disk.old).seen) → IsShown result r room.new }
    ensures looked { OnlyLooked (D.view disk.old) (D.view disk.new) }
    ensures failed { IfErr result (λ e. RoseIfFailed e (D.view disk.old).faults (D.view disk.new).faults) }
    ensures counts { OnOk result ((D.view disk.new).faults ≡ (D.view disk.old).faults) }
{
    let n = room.fill(disk, file, span.at, span.length.min(RECORD_BYTES))?;
    let view = match read_record(&room.bytes()[..n]) {
        Ok(view) => view,
        Err(bad) => return Err(no_record(file, &span, bad.place)),
    };
    if view.length() != span.length {
        return Err(no_record(file, &span, 1));
    }
    Ok(n)
}

// The damage of a record from its byte `place` on.
fn no_record(file: DiskFile, span: &Span, place: usize) -> ChainFault
    ensures { result ≡ ChainFault.Damaged file (place_in span.now place) }
{
    ChainFault::Damaged {
        file,
        place: span.at.saturating_add(place as u64),
    }
}
