//! What a command has done, and what is told of that.

ghost use Rattle.std.specs.Prelude.{◌≡◌, IfOk};
ghost use Rattle.life_lines.specs.Lines as lines;
ghost use Rattle.ckpt_program.specs.Texts as spec;

use c_meaning::PlainRun;
use ckpt_base::{Bytes, Ending, Text};
use std::alloc::{AllocError, Global};

/// How much an accepted program has.
#[derive(Clone, Copy)]
pub struct Counts {
    /// Its cells.
    pub cells: u32,
    /// The nodes of `main`, the end not counted.
    pub nodes: u32,
    /// Its EXCLUDE_HERE.
    pub excludes: u16,
}

/// What is told of a life that is over.
#[derive(Drop)]
pub struct Told {
    /// How its run stands.
    pub ending: Ending,
    /// The lines on its start and its end.
    pub text: Bytes,
}

/// What a command has done.
#[derive(Drop)]
pub enum Done {
    /// The program is accepted.
    Accepted(Counts),
    /// The program ran.
    Finished(PlainRun),
    /// There is a text to print.
    Printed(Text),
    /// A life ran, and is told in room that was taken for it.
    Told(Told),
    /// A store was put in order, and that is told in room that was taken for it.
    Noted(Bytes),
}

impl Done {
    /// The status with which the program ends.
    pub fn status(&self) -> u8
        ensures answer { result ≡ spec.done_status self.now }
    {
        match self {
            Done::Accepted(_) | Done::Printed(_) | Done::Noted(_) => 0,
            Done::Finished(run) => ending_status(&run.ending),
            Done::Told(told) => ending_status(&told.ending),
        }
    }

    /// The text that the console is to take.
    pub fn text(&self, alloc: Global) -> Result<Vec<u8>, AllocError>
        ensures answer { IfOk result (λ t. t.items ≡ spec.done_text self.now) }
    {
        match self {
            Done::Accepted(counts) => counts_line(alloc, *counts),
            Done::Finished(run) => run_text(alloc, run),
            Done::Printed(text) => Vec::from_slice(alloc, text.as_bytes()),
            Done::Told(told) => Vec::from_slice(alloc, told.text.as_slice()),
            Done::Noted(text) => Vec::from_slice(alloc, text.as_slice()),
        }
    }
}

/// The status of a run.
pub fn ending_status(ending: &Ending) -> u8
    ensures answer { result ≡ spec.ending_status ending.now }
{
    match ending {
        Ending::Ended(_) => 0,
        Ending::Trapped(_) => 3,
        Ending::Going => 4,
    }
}

// How much an accepted program has.
fn counts_line(alloc: Global, counts: Counts) -> Result<Vec<u8>, AllocError>
    ensures answer { IfOk result (λ t. t.items ≡ spec.counts_line counts) }
{
    let Counts {
        cells,
        nodes,
        excludes,
    } = counts;
    let line = format!(in alloc; "accepted cells {cells} nodes {nodes} excludes {excludes}\n")?;
    Vec::from_slice(alloc, line.as_bytes())
}

// What a run has put out, and behind it a line on its ending.
fn run_text(alloc: Global, run: &PlainRun) -> Result<Vec<u8>, AllocError>
    ensures answer { IfOk result (λ t. t.items ≡ spec.run_text run.now.output.list run.now.ending run.now.ticks) }
{
    let mut text = Vec::from_slice(alloc, run.output.as_slice())?;
    text.push(b'\n')?;
    let line = ending_line(alloc, &run.ending, run.ticks)?;
    text.extend_from_slice(&line)?;
    Ok(text)
}

// How a run ended and how many steps it took.
fn ending_line(alloc: Global, ending: &Ending, ticks: u64) -> Result<Vec<u8>, AllocError>
    ensures answer { IfOk result (λ t. t.items ≡ lines.ending_line ending.now ticks) }
{
    let line = match ending {
        Ending::Ended(value) => format!(in alloc; "end {value} steps {ticks}\n")?,
        Ending::Trapped(trap) => format!(in alloc; "trap {trap} steps {ticks}\n")?,
        Ending::Going => format!(in alloc; "stopped steps {ticks}\n")?,
    };
    Vec::from_slice(alloc, line.as_bytes())
}
