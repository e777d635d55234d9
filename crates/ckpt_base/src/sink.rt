ghost use Rattle.std.specs.Prelude.{◌≡◌, ◌<◌, ◌≤◌, ◌+◌, IfOk, length, [], false};
ghost use Rattle.ckpt_base.specs.Sink.{SinkView, MemorySink, Writes, sink_view, write_fails, WritesExactly, after_write};

use crate::bytes::Bytes;
use crate::errors::{Failed, NoMemory};
use crate::faults::{count_on, fails_at};
use std::alloc::Global;
use std::marker::Model;

/// Something that takes bytes, as a console does.
pub trait Sink {
    /// What is told of the sink, and how often it has failed.
    ghost view: { Self → SinkView };

    /// Takes a prefix of the piece and answers its length, at least 1. After `Failed`, which is counted, a prefix may have been taken too.
    fn write(&mut self, piece: &[u8]) -> Result<usize, Failed>
        requires some { 0 < length piece.now }
        ensures answer { Writes piece.now result (view self.old) (view self.new) };
}

/// A sink in memory. It fails at the listed calls, counted from 1, and at a piece that would pass its room.
#[derive(Drop)]
pub struct MemSink {
    bytes: Bytes,
    room: usize,
    failing: Vec<u64>,
    calls: u64,
    faults: u64,
}

impl Model for MemSink {
    ghost use Rattle.std.specs.Prelude.{◌+◌, ◌≤◌, length};
    ghost use Rattle.ckpt_base.specs.Sink.{MemorySink};

    ghost Value = { MemorySink };

    ghost view = { λ s. record { written = s.bytes.list; room = s.room; failing = s.failing.items; calls = s.calls; faults = s.faults } };

    ghost invariant = { λ s. (length s.bytes.list ≤ s.room) × (s.room ≤ length s.bytes.list + s.bytes.spare) };
}

impl MemSink {
    /// An empty sink that takes `room` bytes.
    pub fn new(alloc: Global, room: usize, failing: Vec<u64>) -> Result<MemSink, NoMemory>
        ensures answer { IfOk result (λ s. s ≡ record { written = []; room = room; failing = failing.items; calls = 0; faults = 0 }) }
    {
        Ok(MemSink {
            bytes: Bytes::with_room(alloc, room)?,
            room,
            failing,
            calls: 0,
            faults: 0,
        })
    }

    // Whether the next write fails.
    fn write_fails(&self, piece: &[u8]) -> bool
        requires some { 0 < length piece.now }
        ensures answer { result ≡ write_fails self.now piece.now }
        ensures room { result ≡ false → length self.now.written + length piece.now ≤ self.now.room }
    {
        fails_at(&self.failing, count_on(self.calls))
            | (self.room < self.bytes.as_slice().len() + piece.len())
    }

    /// Lends what was written.
    pub fn bytes(&self) -> &[u8]
        ensures answer { result.now ≡ self.now.written }
    {
        self.bytes.as_slice()
    }
}

impl Sink for MemSink {
    ghost view = { sink_view };

    fn write(&mut self, piece: &[u8]) -> Result<usize, Failed>
        requires some { 0 < length piece.now }
        ensures answer { Writes piece.now result (sink_view self.old) (sink_view self.new) }
        ensures exact { WritesExactly self.old piece.now result }
        ensures state { self.new ≡ after_write self.old piece.now }
    {
        let fails = self.write_fails(piece);
        self.calls = count_on(self.calls);
        if fails {
            self.faults = count_on(self.faults);
            return Err(Failed);
        }
        self.bytes.append(piece);
        Ok(piece.len())
    }
}
