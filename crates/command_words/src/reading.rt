//! The public call: words to the command that they are.

ghost use Rattle.std.specs.Prelude.{◌≡◌, ◌+◌, length, IfOk, IfSome, false, bytes_eq, codes};
ghost use Rattle.command_words.specs.Options.{value_of};
ghost use Rattle.command_words.specs.Stops.{stops_or_none};
ghost use Rattle.command_words.specs.declared.options.Name.TheVariants as Name;
ghost use Rattle.command_words.specs.Words as spec;
ghost use Rattle.command_words.specs.Words.{command_of, steps_of, HasPlaces, HasRanges, InRange};

use crate::command::{Command, Settings};
use crate::numbers::number_in;
use crate::options::{Name, are_options, is_option, number_or, number_within, value_of};
use crate::stops::{Stops, listed_stops};
use ckpt_base::{NoMemory, Text};
use std::alloc::Global;

/// The command that the words are; none exactly where they are no command.
///
/// An option that is not given has its default: `--until` the greatest number of 64 bits, `--every` 1, `--max` 16, `--fill` 0, `--pace` 0, its one value, and
/// `--stops` no stop.
pub fn read_words(alloc: Global, words: &Vec<Text>) -> Result<Option<Command>, NoMemory>
    ensures answer { IfOk result (λ c. c ≡ command_of words.now.items) }
    // each file is one of the words
    ensures places { IfOk result (λ c. IfSome c (λ command. HasPlaces command (length words.now.items))) }
    ensures ranges { IfOk result (λ c. IfSome c HasRanges) }
{
    command(alloc, words)
}

// The command that the words are.
fn command(alloc: Global, words: &[Text]) -> Result<Option<Command>, NoMemory>
    ensures answer { IfOk result (λ c. c ≡ command_of words.now) }
    ensures places { IfOk result (λ c. IfSome c (λ command. HasPlaces command (length words.now))) }
    ensures ranges { IfOk result (λ c. IfSome c HasRanges) }
{
    match words {
        [] => Ok(None),
        [name, words @ ..] => named(alloc, name.as_bytes(), words),
    }
}

// The command of this name, with the words behind it.
fn named(alloc: Global, name: &[u8], words: &[Text]) -> Result<Option<Command>, NoMemory>
    ensures answer { IfOk result (λ c. c ≡ spec.command_named name.now words.now) }
    ensures places { IfOk result (λ c. IfSome c (λ command. HasPlaces command (length words.now + 1))) }
    ensures ranges { IfOk result (λ c. IfSome c HasRanges) }
{
    if name == b"drill".as_slice() {
        drill(alloc, words)
    } else {
        Ok(without_stops(name, words))
    }
}

// The command of this name, with the words behind it, where it has no list of stops.
fn without_stops(name: &[u8], words: &[Text]) -> Option<Command>
    requires other { bytes_eq name.now (codes "drill") ≡ false }
    ensures answer { result ≡ spec.command_named name.now words.now }
    ensures places { IfSome result (λ command. HasPlaces command (length words.now + 1)) }
    ensures ranges { IfSome result HasRanges }
{
    if name == b"plain".as_slice() {
        plain(words)
    } else if name == b"check".as_slice() {
        of_one(words, Command::Check { source: 1 })
    } else if name == b"compile".as_slice() {
        of_one(words, Command::Compile { source: 1 })
    } else if name == b"report".as_slice() {
        of_one(words, Command::Report { source: 1 })
    } else if name == b"run".as_slice() {
        run(words)
    } else if name == b"restart".as_slice() {
        restart(words)
    } else if name == b"images".as_slice() {
        of_one(words, Command::Images { dir: 1 })
    } else if name == b"coalesce".as_slice() {
        of_one(words, Command::Coalesce { dir: 1 })
    } else if name == b"clear".as_slice() {
        of_one(words, Command::Clear { dir: 1 })
    } else if name == b"why".as_slice() {
        why(words)
    } else if name == b"generate".as_slice() {
        generate(words)
    } else {
        None
    }
}

// `plain` and the words behind it.
fn plain(words: &[Text]) -> Option<Command>
    ensures answer { result ≡ spec.plain_of words.now }
    ensures places { IfSome result (λ command. HasPlaces command (length words.now + 1)) }
    ensures ranges { IfSome result HasRanges }
{
    match words {
        [source, input, options @ ..] if !is_option(source) && !is_option(input) => {
            if !are_options(options, &[Name::Until]) {
                return None;
            }
            let until = number_or(options, Name::Until, u64::MAX)?;
            Some(Command::Plain {
                source: 1,
                input: 2,
                until,
            })
        }
        _ => None,
    }
}

// `run` and the words behind it.
fn run(words: &[Text]) -> Option<Command>
    ensures answer { result ≡ spec.run_of words.now }
    ensures places { IfSome result (λ command. HasPlaces command (length words.now + 1)) }
    ensures ranges { IfSome result HasRanges }
{
    match words {
        [source, input, dir, options @ ..]
            if !is_option(source) && !is_option(input) && !is_option(dir) => {
            let settings = settings(options, &[Name::Until, Name::Every, Name::Max, Name::Pace])?;
            Some(Command::Run {
                source: 1,
                input: 2,
                dir: 3,
                settings,
            })
        }
        _ => None,
    }
}

// `restart` and the words behind it.
fn restart(words: &[Text]) -> Option<Command>
    ensures answer { result ≡ spec.restart_of words.now }
    ensures places { IfSome result (λ command. HasPlaces command (length words.now + 1)) }
    ensures ranges { IfSome result HasRanges }
{
    match words {
        [source, input, dir, options @ ..]
            if !is_option(source) && !is_option(input) && !is_option(dir) => {
            let settings = settings(
                options,
                &[Name::Until, Name::Every, Name::Max, Name::Pace, Name::Fill],
            )?;
            let fill = number_within(options, Name::Fill, 0, 0, 255)?;
            Some(Command::Restart {
                source: 1,
                input: 2,
                dir: 3,
                settings,
                fill: fill as u8,
            })
        }
        _ => None,
    }
}

// How a life is run, as the options say, which are of these names.
fn settings(options: &[Text], names: &[Name]) -> Option<Settings>
    ensures answer { result ≡ spec.settings_of names.now options.now }
    ensures ranges { IfSome result InRange }
{
    if !are_options(options, names) {
        return None;
    }
    let until = steps(options)?;
    let every = number_within(options, Name::Every, 1, 1, 4_294_967_295)?;
    let max = number_within(options, Name::Max, 16, 2, 64)?;
    number_within(options, Name::Pace, 0, 0, 0)?;
    Some(Settings {
        until,
        every: every as u32,
        max: max as u16,
    })
}

// The most steps that a life may take.
fn steps(options: &[Text]) -> Option<u64>
    ensures answer { result ≡ steps_of options.now }
{
    let most = u64::MAX;
    number_or(options, Name::Until, most)
}

// `why` and the words behind it.
fn why(words: &[Text]) -> Option<Command>
    ensures answer { result ≡ spec.why_of words.now }
    ensures places { IfSome result (λ command. HasPlaces command (length words.now + 1)) }
    ensures ranges { IfSome result HasRanges }
{
    match words {
        [source, exclude, cell] if !is_option(source) => {
            let exclude = number_in(exclude.as_bytes(), 1, 64)?;
            let cell = number_in(cell.as_bytes(), 0, 4_294_967_295)?;
            Some(Command::Why {
                source: 1,
                exclude: exclude as u16,
                cell: cell as u32,
            })
        }
        _ => None,
    }
}

// `drill` and the words behind it.
fn drill(alloc: Global, words: &[Text]) -> Result<Option<Command>, NoMemory>
    ensures answer { IfOk result (λ c. c ≡ spec.drill_of words.now) }
    ensures places { IfOk result (λ c. IfSome c (λ command. HasPlaces command (length words.now + 1))) }
    ensures ranges { IfOk result (λ c. IfSome c HasRanges) }
{
    match words {
        [source, input, options @ ..] if !(is_option(source) || is_option(input)) => {
            let Some((settings, fill)) = drill_settings(options) else {
                return Ok(None);
            };
            match stops(alloc, options)? {
                Some(stops) => Ok(Some(Command::Drill {
                    source: 1,
                    input: 2,
                    settings,
                    fill,
                    stops,
                })),
                None => Ok(None),
            }
        }
        _ => Ok(None),
    }
}

// How the lives of a drill are run, and over which fill.
fn drill_settings(options: &[Text]) -> Option<(Settings, u8)>
    ensures answer { result ≡ spec.drill_settings options.now }
    ensures ranges { IfSome result (λ both. InRange both.0) }
{
    let names = &[
        Name::Until,
        Name::Every,
        Name::Max,
        Name::Pace,
        Name::Fill,
        Name::Stops,
    ];
    let settings = settings(options, names)?;
    let fill = number_within(options, Name::Fill, 0, 0, 255)?;
    Some((settings, fill as u8))
}

// The stops that the options list.
fn stops(alloc: Global, options: &[Text]) -> Result<Option<Stops>, NoMemory>
    ensures answer { IfOk result (λ stops. stops ≡ stops_or_none (value_of Name.Stops options.now)) }
{
    match value_of(options, Name::Stops) {
        None => Ok(Some(Stops::none(alloc))),
        Some(word) => listed_stops(alloc, word.as_bytes()),
    }
}

// `generate` and the words behind it.
fn generate(words: &[Text]) -> Option<Command>
    ensures answer { result ≡ spec.generate_of words.now }
    ensures places { IfSome result (λ command. HasPlaces command (length words.now + 1)) }
    ensures ranges { IfSome result HasRanges }
{
    match words {
        [functions] => {
            let functions = number_in(functions.as_bytes(), 1, 1_000)?;
            Some(Command::Generate {
                functions: functions as u16,
            })
        }
        _ => None,
    }
}

// The command, where the one word behind its name is a file or a directory.
fn of_one(words: &[Text], command: Command) -> Option<Command>
    ensures answer { result ≡ spec.of_one command words.now }
    ensures same { IfSome result (λ c. (c ≡ command) × (length words.now ≡ 1)) }
{
    match words {
        [source] if !is_option(source) => Some(command),
        _ => None,
    }
}
