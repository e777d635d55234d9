ghost use Rattle.std.specs.Prelude.{◌≡◌, ◌+◌, ◌≤◌, ◌++◌, ◌&&◌, not, nat_lt, true, false, if◌then◌else◌, length, take, drop, map, get_or, replicate, [], IfOk};
ghost use Rattle.disk_model.specs.Change.{Write, Cut, Sync, Start};
ghost use Rattle.std.specs.List.{range_with_len};
ghost use Rattle.disk_model.specs.View.{Takes};
ghost use Rattle.disk_model.specs.MemoryFile.{IsTaken, changed, settled, crashed};
ghost use Rattle.disk_model.specs.MemoryLog.{change_of};

use crate::marks::Marks;
use crate::memory_log::Kind;
use std::alloc::{AllocError, Global};
use std::marker::Model;

/// A file with fixed room, as it reads and as it is lasting, with a mark at each byte that was written since.
#[derive(Drop)]
pub struct MemFile {
    seen: Vec<u8>,
    seen_len: usize,
    lasting: Vec<u8>,
    lasting_len: usize,
    dirty: Marks,
    low: usize,
    high: usize,
}

impl Model for MemFile {
    ghost use Rattle.std.specs.Prelude.{◌≡◌, ◌≤◌, take, length};
    ghost use Rattle.disk_model.specs.MemoryFile.{FileState, IsFile};

    ghost Value = { FileState };

    ghost view = { λ f. record { seen = take f.seen_len f.seen.items; lasting = take f.lasting_len f.lasting.items; dirty = f.dirty; low = f.low; high = f.high } };

    ghost invariant = { λ f. record {
      seen : (f.seen_len ≤ length f.seen.items) × (length f.seen.items ≡ length f.dirty);
      lasting : (f.lasting_len ≤ length f.lasting.items) × (length f.lasting.items ≡ length f.dirty);
      is_file : IsFile (record { seen = take f.seen_len f.seen.items; lasting = take f.lasting_len f.lasting.items; dirty = f.dirty; low = f.low; high = f.high });
    } };
}

impl MemFile {
    /// An empty file with this room.
    pub fn new(alloc: Global, room: usize) -> Result<MemFile, AllocError>
        ensures answer { IfOk result (λ f. f ≡ settled room []) }
    {
        Ok(MemFile {
            seen: zeros(alloc, room)?,
            seen_len: 0,
            lasting: zeros(alloc, room)?,
            lasting_len: 0,
            dirty: Marks::new(alloc, room)?,
            low: 0,
            high: 0,
        })
    }

    /// Its length as it reads.
    pub fn len(&self) -> usize
        ensures answer { result ≡ length self.now.seen }
    {
        self.seen_len
    }

    /// Fills the front of the buffer from this place on, and answers how many bytes it took.
    pub fn read(&self, at: usize, buf: &mut [u8]) -> usize
        ensures answer { Takes at self.now.seen buf.old result buf.new }
    {
        read_from(&self.seen[..self.seen_len], at, buf)
    }

    /// The greatest length.
    pub fn room(&self) -> usize
        ensures answer { result ≡ length self.now.dirty }
    {
        self.dirty.len()
    }

    /// Makes a change that the file takes.
    pub fn change(&mut self, kind: Kind, at: usize, bytes: &[u8])
        requires taken { IsTaken (change_of kind at bytes.now) self.old }
        ensures exact { self.new ≡ changed (change_of kind at bytes.now) self.old }
    {
        match kind {
            Kind::Write => self.write(at, bytes),
            Kind::Cut => self.cut(at),
            Kind::Sync => self.sync(),
            Kind::Start => self.start(bytes),
        }
    }

    /// Ends what is pending: pick 0 leaves what was lasting, 1 what reads give, and any other sets each byte that a crash may change to itself.
    pub fn crash(&mut self, pick: u8)
        ensures { self.new ≡ settled (length self.old.dirty) (crashed pick self.old) }
    {
        let len = leave(
            &mut self.seen,
            self.seen_len,
            &self.lasting,
            self.lasting_len,
            &self.dirty,
            pick,
        );
        self.lasting.copy_from_slice(&self.seen);
        self.dirty.clear();
        self.seen_len = len;
        self.lasting_len = len;
        self.low = len;
        self.high = len;
    }

    fn write(&mut self, at: usize, bytes: &[u8])
        requires { IsTaken (Write at bytes.now) self.old }
        ensures { self.new ≡ changed (Write at bytes.now) self.old }
    {
        let room = self.dirty.len();
        let end = at + bytes.len();
        put(&mut self.seen, at, bytes);
        self.dirty.mark(at, bytes.len());
        self.seen_len = self.seen_len.max(end);
        self.high = self.high.max(end);
    }

    fn cut(&mut self, len: usize)
        ensures { self.new ≡ changed (Cut len) self.old }
    {
        self.seen_len = self.seen_len.min(len);
        self.low = self.low.min(len);
    }

    fn sync(&mut self)
        ensures { self.new ≡ changed Sync self.old }
    {
        self.lasting.copy_from_slice(&self.seen);
        self.lasting_len = self.seen_len;
        self.dirty.clear();
        self.low = self.seen_len;
        self.high = self.seen_len;
    }

    fn start(&mut self, bytes: &[u8])
        requires { IsTaken (Start bytes.now) self.old }
        ensures { self.new ≡ changed (Start bytes.now) self.old }
    {
        let room = self.dirty.len();
        let len = bytes.len();
        put(&mut self.lasting, 0, bytes);
        self.seen.copy_from_slice(&self.lasting);
        self.lasting_len = len;
        self.seen_len = len;
        self.dirty.clear();
        self.low = len;
        self.high = len;
    }
}

// Puts these bytes in place of those from `at` on.
pub(crate) fn put(buf: &mut Vec<u8>, at: usize, bytes: &[u8])
    requires { at + length bytes.now ≤ length buf.old.items }
    ensures { buf.new.items ≡ take at buf.old.items ++ bytes.now ++ drop (at + length bytes.now) buf.old.items }
{
    let room = buf.len();
    let end = at + bytes.len();
    buf[at..end].copy_from_slice(bytes);
}

// Makes `seen` what the crash leaves, and answers its length.
fn leave(
    seen: &mut Vec<u8>,
    len: usize,
    lasting: &[u8],
    lasting_len: usize,
    dirty: &Marks,
    pick: u8,
) -> usize
    requires lens { (len ≤ length seen.old.items) × (lasting_len ≤ length lasting.now) }
    requires rooms { (length seen.old.items ≡ length dirty.now) × (length lasting.now ≡ length dirty.now) }
    ensures bytes { take result seen.new.items ≡ crashed pick (record { seen = take len seen.old.items; lasting = take lasting_len lasting.now; dirty = dirty.now; low = 0; high = 0 }) }
    ensures len { (length seen.new.items ≡ length seen.old.items) × (result ≤ length seen.new.items) }
{
    if pick == 0 {
        seen.copy_from_slice(lasting);
        return lasting_len;
    }
    if pick == 1 {
        return len;
    }
    spoil(seen, len, lasting_len, dirty, pick);
    len
}

// Sets each byte that is marked, or stands past the lasting length, to `pick`.
fn spoil(seen: &mut Vec<u8>, len: usize, lasting_len: usize, dirty: &Marks, pick: u8)
    requires { (len ≤ length seen.old.items) × (length seen.old.items ≡ length dirty.now) }
    ensures bytes { take len seen.new.items ≡ map (λ i. if nat_lt i lasting_len && not (get_or dirty.now i false) then get_or seen.old.items i 0 else pick) (range_with_len 0 len) }
    ensures len { length seen.new.items ≡ length seen.old.items }
{
    for i in 0..len {
        if i >= lasting_len || dirty.is_marked(i) {
            seen[i] = pick;
        }
    }
}

fn read_from(file: &[u8], at: usize, buf: &mut [u8]) -> usize
    ensures { Takes at file.now buf.old result buf.new }
{
    if at >= file.len() {
        return 0;
    }
    let n = buf.len().min(file.len() - at);
    let end = at + n;
    buf[..n].copy_from_slice(&file[at..end]);
    n
}

pub(crate) fn zeros(alloc: Global, n: usize) -> Result<Vec<u8>, AllocError>
    ensures { IfOk result (λ v. length v.items ≡ n) }
{
    let mut v = Vec::new(alloc);
    v.resize(n, 0)?;
    Ok(v)
}
