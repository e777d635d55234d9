//! The program `ckpt`: it carries out the command that its words are.
//!
//! `top::ckpt` is the whole program over any shelf of files, any disk and any console, and its contract is the theorem of the
//! program. `main` gives it the files, a directory and the standard output of the host, and ends with the status that it answers.
//!
//! A command is a row of stages (`specs/Rows`), and a file of its own; a stage is what its answer may be (`specs/Stages`).
#![tactic(auto)]

mod cause_lines;
mod check;
#[cfg(test)]
mod check_rows;
mod code;
mod compile;
mod console;
mod disk_stages;
mod done;
mod drill;
#[cfg(test)]
mod drill_rows;
mod drill_stages;
#[cfg(test)]
mod graph_tests;
mod graphs;
mod images;
mod intake;
mod life_stages;
mod lives;
#[cfg(test)]
mod machine_run;
#[cfg(test)]
mod machine_tests;
mod plain;
#[cfg(test)]
mod plain_rows;
mod refusal;
mod report;
#[cfg(test)]
mod report_rows;
mod report_text;
#[cfg(test)]
mod rule_rows;
#[cfg(test)]
mod run_rows;
mod stages;
mod stop;
#[cfg(test)]
mod store_rows;
#[cfg(test)]
mod store_tests;
mod telling;
#[cfg(test)]
mod tests;
mod top;
mod upkeep;
mod why;
#[cfg(test)]
mod why_rows;
mod why_text;

use ckpt_base::{NoMemory, Text};
use host_edge::{DirDisk, FileShelf, StdSink};
use std::process::ExitCode;
use std::{env, io};

// The words after the program's name. Where one is no text there are none, so that they are no command.
fn words_of(rt: &HostRuntime) -> Result<Vec<Text>, NoMemory> {
    let mut words = Vec::new(rt.alloc());
    match env::args(rt) {
        Ok(args) => {
            for word in args.skip(1) {
                let word = Text::of(rt.alloc(), word.as_str())?;
                words.push(word).map_err(|_| NoMemory)?;
            }
            Ok(words)
        }
        Err(error) if error.kind() == io::ErrorKind::OutOfMemory => Err(NoMemory),
        Err(_) => Ok(words),
    }
}

fn main(rt: HostRuntime) -> ExitCode {
    let mut console = StdSink::new(rt.stdout());
    let status = match words_of(&rt) {
        Ok(words) => {
            let mut shelf = FileShelf::new(rt);
            let mut disk = DirDisk::new(rt);
            top::ckpt(rt.alloc(), &words, &mut shelf, &mut disk, &mut console)
        }
        Err(NoMemory) => telling::no_memory(&mut console),
    };
    ExitCode::from(status)
}
