//! What is told on the console, and the status with which the program ends.

ghost use Rattle.std.specs.Prelude.{◌≡◌, ◌⊎◌, Err};
ghost use Rattle.ckpt_program.specs.declared.stop.Stop.TheVariants as stop;
ghost use Rattle.ckpt_program.specs.Texts.{status_of};
ghost use Rattle.ckpt_program.specs.Told.{Takes, Tells, HasFixedLine, HasTextAtHand, IsDone};

use crate::cause_lines::made_line;
use crate::console::write_all;
use crate::done::{Done, ending_status};
use crate::stop::{Cause, Stop};
use ckpt_base::{Failed, Sink};
use std::alloc::Global;

/// The status of a command that was carried out.
const DONE: u8 = 0;

/// The status where the console did not take the text of a command that was carried out.
const CONSOLE_FAULT: u8 = 7;

/// The status where no memory was found.
const NO_MEMORY: u8 = 12;

/// Tells on the console what a command has come to, or that there is no memory for its text, and answers the status.
pub fn tell<K: Sink>(alloc: Global, console: &mut K, came: &Result<Done, Stop>) -> u8
    ensures answer { Tells came.now (K.view console.old) (K.view console.new) result ⊎ Tells (Err stop.NoMemory) (K.view console.old) (K.view console.new) result }
    // a line that is always the same takes no memory
    ensures fixed { HasFixedLine came.now → result ≡ status_of came.now }
    // nor does what a life has told, or what was done to a store
    ensures at_hand { HasTextAtHand came.now → IsDone result }
{
    match came {
        Ok(Done::Told(told)) => write(
            console,
            told.text.as_slice(),
            ending_status(&told.ending),
            CONSOLE_FAULT,
        ),
        Ok(Done::Noted(text)) => write(console, text.as_slice(), DONE, CONSOLE_FAULT),
        Ok(done) => match done.text(alloc) {
            Ok(text) => write(console, &text, done.status(), CONSOLE_FAULT),
            Err(_) => no_memory(console),
        },
        Err(Stop::NoMemory) => no_memory(console),
        Err(Stop::Because(cause)) => tell_cause(alloc, console, cause),
    }
}

// Tells on the console for what cause a command has stopped, or that there is no memory for its text, and answers the status.
fn tell_cause<K: Sink>(alloc: Global, console: &mut K, cause: &Cause) -> u8
    ensures answer { Tells (Err (stop.Because cause.now)) (K.view console.old) (K.view console.new) result ⊎ Tells (Err stop.NoMemory) (K.view console.old) (K.view console.new) result }
    ensures fixed { HasFixedLine (Err (stop.Because cause.now)) → result ≡ status_of (Err (stop.Because cause.now)) }
{
    let status = cause.status();
    match cause.fixed_line() {
        Some(line) => write(console, line, status, status),
        None => match made_line(alloc, cause) {
            Ok(line) => write(console, &line, status, status),
            Err(_) => no_memory(console),
        },
    }
}

/// Tells on the console that no memory was found, and answers the status for that.
pub fn no_memory<K: Sink>(console: &mut K) -> u8
    ensures answer { Tells (Err stop.NoMemory) (K.view console.old) (K.view console.new) result }
    ensures status { result ≡ 12 }
{
    write(console, b"no memory\n", NO_MEMORY, NO_MEMORY)
}

// Writes a text, and answers the one status where the console took it, and the other where it failed.
fn write<K: Sink>(console: &mut K, text: &[u8], status: u8, broken: u8) -> u8
    ensures answer { Takes text.now status broken (K.view console.old) (K.view console.new) result }
{
    match write_all(console, text) {
        Ok(()) => status,
        Err(Failed) => broken,
    }
}
