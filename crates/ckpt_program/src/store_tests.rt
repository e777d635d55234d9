use crate::drill_rows::{CALLS, GENERATED, REFUSED_DRILLS, STEPS};
use crate::store_rows::{FILES, RESTARTS, RUNS, Step, Store, UPKEEP, USAGE};
use crate::top::ckpt;
use crate::why_rows::REASONS;
use ckpt_base::{Bytes, MemShelf, MemSink, Text};
use disk_model::{Disk, DiskFile, MemDisk};
use std::alloc::Global;
use std::process::Abort;
use std::test::Fail;

/// How many calls of a run of P change the disk.
const CHANGES: u64 = 23;

// The files, on a shelf in memory.
fn shelf(rt: &impl Abort, alloc: Global) -> Result<MemShelf, Fail> {
    let mut files = Vec::new(alloc);
    for (name, content) in FILES.as_slice() {
        let mut bytes = Bytes::with_room(alloc, content.len())?;
        assert!(rt; bytes.spare() >= content.len());
        bytes.append(content);
        files.push((Text::of(alloc, name)?, bytes))?;
    }
    Ok(MemShelf::new(files, Vec::new(alloc)))
}

// A disk in memory with an empty store; the calls of these numbers fail.
fn disk(alloc: Global, failing: Vec<u64>) -> Result<MemDisk, Fail> {
    Ok(MemDisk::new(alloc, 400, 60_000, 0, failing)?)
}

// Carries out a command line, and answers its status; the text is on the console.
fn carry(
    rt: &impl Abort,
    alloc: Global,
    disk: &mut MemDisk,
    console: &mut MemSink,
    words: &[&str],
) -> Result<u8, Fail> {
    let mut list = Vec::new(alloc);
    for word in words {
        list.push(Text::of(alloc, word)?)?;
    }
    let mut shelf = shelf(rt, alloc)?;
    Ok(ckpt(alloc, &list, &mut shelf, disk, console))
}

fn holds(rt: &impl Abort, alloc: Global, disk: &mut MemDisk, step: &Step<'_>) -> Result<(), Fail> {
    let (words, status, text) = step;
    let mut console = MemSink::new(alloc, 1_000, Vec::new(alloc))?;
    let came = carry(rt, alloc, disk, &mut console, words)?;
    let told = console.bytes();
    let written = std::str::from_utf8(told).unwrap_or("?");
    assert!(rt; told == *text, "told {written}");
    assert!(rt; came == *status, "status {came}");
    Ok(())
}

fn output_is(rt: &impl Abort, disk: &mut MemDisk, output: &[u8]) -> Result<(), Fail> {
    let mut bytes = [0; 8];
    let n = disk.read_at(DiskFile::Output, 0, bytes.as_mut_slice())?;
    assert!(rt; n == output.len(), "length {n}");
    assert!(rt; &bytes[..n] == output);
    Ok(())
}

fn hold(rt: &impl Abort, alloc: Global, stores: &[Store<'_>]) -> Result<(), Fail> {
    for (steps, output) in stores {
        let mut disk = disk(alloc, Vec::new(alloc))?;
        for step in steps.iter() {
            holds(rt, alloc, &mut disk, step)?;
        }
        output_is(rt, &mut disk, output)?;
    }
    Ok(())
}

#[test]
fn lives_begin(rt: HostRuntime) -> Result<(), Fail> {
    hold(&rt, rt.alloc(), RUNS.as_slice())
}

#[test]
fn lives_go_on(rt: HostRuntime) -> Result<(), Fail> {
    hold(&rt, rt.alloc(), RESTARTS.as_slice())
}

#[test]
fn stores_are_put_in_order(rt: HostRuntime) -> Result<(), Fail> {
    hold(&rt, rt.alloc(), UPKEEP.as_slice())
}

#[test]
fn words_of_lives(rt: HostRuntime) -> Result<(), Fail> {
    hold(&rt, rt.alloc(), USAGE.as_slice())
}

#[test]
fn reasons_for_cells(rt: HostRuntime) -> Result<(), Fail> {
    hold(&rt, rt.alloc(), REASONS.as_slice())
}

#[test]
fn lives_are_stopped_at_steps(rt: HostRuntime) -> Result<(), Fail> {
    hold(&rt, rt.alloc(), STEPS.as_slice())
}

#[test]
fn generated_program_is_drilled(rt: HostRuntime) -> Result<(), Fail> {
    hold(&rt, rt.alloc(), GENERATED.as_slice())
}

#[test]
fn lives_are_stopped_inside_a_call(rt: HostRuntime) -> Result<(), Fail> {
    hold(&rt, rt.alloc(), CALLS.as_slice())
}

#[test]
fn drills_are_refused(rt: HostRuntime) -> Result<(), Fail> {
    hold(&rt, rt.alloc(), REFUSED_DRILLS.as_slice())
}

// The calls on the disk with these numbers fail, each in a run of its own: the run answers 5, and a restart over the same disk ends as the run would have. A run that meets no failure is the last.
fn calls_fail(rt: &impl Abort, alloc: Global, first: u64, end: u64) -> Result<(), Fail> {
    for n in first..end {
        let mut failing = Vec::new(alloc);
        failing.push(n)?;
        let mut disk = disk(alloc, failing)?;
        let mut console = MemSink::new(alloc, 1_000, Vec::new(alloc))?;
        let came = carry(rt, alloc, &mut disk, &mut console, &["run", "P", "E0", "D"])?;
        if came == 0 {
            assert!(rt; n > CHANGES, "call {n} did not fail");
            return Ok(());
        }
        assert!(rt; came == 5, "status {came} where call {n} fails");
        assert!(rt; console.bytes() == b"disk fault\n".as_slice());
        let mut console = MemSink::new(alloc, 1_000, Vec::new(alloc))?;
        let came = carry(
            rt,
            alloc,
            &mut disk,
            &mut console,
            &["restart", "P", "E0", "D"],
        )?;
        assert!(rt; came == 0, "status {came} behind the failure of call {n}");
        output_is(rt, &mut disk, b"9\n")?;
    }
    Ok(())
}

#[test]
fn calls_of_opening_fail(rt: HostRuntime) -> Result<(), Fail> {
    calls_fail(&rt, rt.alloc(), 1, 8)
}

#[test]
fn calls_for_the_first_images_fail(rt: HostRuntime) -> Result<(), Fail> {
    calls_fail(&rt, rt.alloc(), 8, 15)
}

#[test]
fn calls_for_the_next_images_fail(rt: HostRuntime) -> Result<(), Fail> {
    calls_fail(&rt, rt.alloc(), 15, 22)
}

#[test]
fn calls_of_finishing_fail(rt: HostRuntime) -> Result<(), Fail> {
    calls_fail(&rt, rt.alloc(), 22, 64)
}
