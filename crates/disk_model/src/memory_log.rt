ghost use Rattle.std.specs.Prelude.{◌≡◌, ◌≤◌, ◌+◌, ◌-◌, ◌++◌, [], ◌∷◌, length, take, IfOk};
ghost use Rattle.disk_model.specs.MemoryLog.{change_of, LogState};

use crate::disk_file::DiskFile;
use crate::memory_file::{put, zeros};
use std::alloc::{AllocError, Global};
use std::marker::Model;

/// The room that an entry takes beside its bytes.
pub const ENTRY_ROOM: usize = 32;

/// What a change call does.
#[derive(Clone, Copy)]
pub enum Kind {
    Write,
    Cut,
    Sync,
    Start,
}

/// A change call: its file and kind, the place or length, and where its bytes stand.
#[derive(Clone, Copy)]
pub struct Entry {
    pub file: DiskFile,
    pub kind: Kind,
    pub at: u64,
    pub from: usize,
    pub to: usize,
}

/// The changes of a disk in order, with the bytes of all of them in one buffer. It takes no memory after it was made.
#[derive(Drop)]
pub struct Log {
    entries: Vec<Entry>,
    count: usize,
    arena: Vec<u8>,
    used: usize,
}

impl Model for Log {
    ghost use Rattle.std.specs.Prelude.{◌≤◌, ◌*◌, ◌+◌, ◌-◌, length, take};
    ghost use Rattle.disk_model.specs.MemoryLog.{LogState, events_of, AreWithin};

    ghost Value = { LogState };

    ghost view = { λ l. record { events = events_of l.arena.items (take l.count l.entries.items); left = length l.arena.items - (32 * l.count + l.used) } };

    ghost invariant = { λ l. record {
      room : 32 * l.count + l.used ≤ length l.arena.items;
      entries : length l.arena.items ≤ 32 * length l.entries.items + 31;
      within : AreWithin l.used (take l.count l.entries.items);
    } };
}

impl Log {
    /// An empty log with this room.
    pub fn new(alloc: Global, room: usize) -> Result<Log, AllocError>
        ensures answer { IfOk result (λ l. l ≡ record { events = []; left = room }) }
    {
        let none = Entry {
            file: DiskFile::One,
            kind: Kind::Sync,
            at: 0,
            from: 0,
            to: 0,
        };
        let mut entries = Vec::new(alloc);
        entries.resize(room / ENTRY_ROOM, none)?;
        Ok(Log {
            entries,
            count: 0,
            arena: zeros(alloc, room)?,
            used: 0,
        })
    }

    /// The room that is left.
    pub fn left(&self) -> usize
        ensures answer { result ≡ self.now.left }
    {
        self.arena.len() - (ENTRY_ROOM * self.count + self.used)
    }

    /// Keeps one change more.
    pub fn note(&mut self, file: DiskFile, kind: Kind, at: u64, bytes: &[u8])
        requires room { 32 + length bytes.now ≤ self.old.left }
        ensures events { self.new.events ≡ self.old.events ++ (file, change_of kind at bytes.now) ∷ [] }
        ensures left { self.new.left ≡ self.old.left - (32 + length bytes.now) }
    {
        let room = self.arena.len();
        let from = self.used;
        let to = from + bytes.len();
        put(&mut self.arena, from, bytes);
        self.entries[self.count] = Entry {
            file,
            kind,
            at,
            from,
            to,
        };
        self.used = to;
        self.count += 1;
    }
}
