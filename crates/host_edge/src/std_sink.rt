ghost use Rattle.std.specs.Prelude.{◌≡◌, ◌≤◌, length, IfOk};

use crate::counted::counted;
use ckpt_base::{Failed, Sink};
use std::io::{self, Stdout};

/// Standard output.
#[derive(Drop)]
pub struct StdSink {
    out: Stdout,
    faults: u64,
}

impl StdSink {
    /// Nothing has failed.
    pub fn new(out: Stdout) -> StdSink
        ensures faults { result.faults ≡ 0 }
    {
        StdSink { out, faults: 0 }
    }
}

// Tries again while a signal interrupts the write. A sink that takes nothing has failed.
fn write_some(out: &Stdout, piece: &[u8]) -> io::Result<usize>
    ensures number { IfOk result (λ n. (1 ≤ n) × (n ≤ length piece.now)) }
{
    for _ in 0..u64::MAX {
        match out.write_some(piece) {
            Ok(0) => return Err(io::ErrorKind::WriteZero.into()),
            Ok(n) => return Ok(n),
            Err(e) if e.kind() == io::ErrorKind::Interrupted => {}
            Err(e) => return Err(e),
        }
    }
    Err(io::ErrorKind::Interrupted.into())
}

impl Sink for StdSink {
    ghost use Rattle.host_edge.specs.Untold.{untold_sink};

    ghost view = { λ s. untold_sink s.faults };

    fn write(&mut self, piece: &[u8]) -> Result<usize, Failed> {
        let answer = write_some(&self.out, piece);
        counted(answer, &mut self.faults)
    }
}
