//! The stops of a drill, as the option `--stops` lists them.

ghost use Rattle.std.specs.Prelude.{◌≡◌, ◌≤◌, ◌++◌, ◌∷◌, [], MatchOption, Some, None, IfOk, OnOk, IfSome};
ghost use Rattle.std.specs.Option.{option_map};
ghost use Rattle.command_words.specs.Stops as spec;

use crate::numbers::{number, number_in};
use ckpt_base::NoMemory;
use std::alloc::Global;
use std::marker::Model;

/// Where a life of a drill is stopped.
#[derive(Clone, Copy, Debug, PartialEq, Eq)]
pub enum Stop {
    /// Where it has taken this many steps and would take another, or where it would take its first step, if it resumed there or later.
    AtStep(u64),
    /// Inside one of its change calls on the disk.
    InCall {
        /// The number of the call, counted from 1.
        number: u32,
        /// What the crash makes of each byte that was not lasting.
        pick: u8,
    },
}

/// The stops of a drill, in order. Contracts see them as a list.
#[derive(Debug, Drop)]
pub struct Stops {
    stops: Vec<Stop>,
}

impl Model for Stops {
    ghost use Rattle.std.specs.Prelude.{List};
    ghost use Rattle.command_words.specs.declared.stops.Stop.{Stop};

    ghost Value = { List Stop };

    ghost view = { λ s. s.stops.items };
}

impl Stops {
    /// No stop.
    pub fn none(alloc: Global) -> Stops
        ensures answer { result ≡ [] }
    {
        Stops {
            stops: Vec::new(alloc),
        }
    }

    // These stops.
    fn of(stops: Vec<Stop>) -> Stops
        ensures answer { result ≡ stops.items }
    {
        Stops { stops }
    }

    /// Lends the stops.
    pub fn as_slice(&self) -> &[Stop]
        ensures answer { result.now ≡ self.now }
    {
        &self.stops
    }
}

/// The most stops of a drill.
const MOST: usize = 1_000;

/// The stops that a word lists, 1 to 1,000, with a comma between each two.
pub fn listed_stops(alloc: Global, word: &[u8]) -> Result<Option<Stops>, NoMemory>
    ensures answer { IfOk result (λ stops. stops ≡ spec.stops_in word.now) }
{
    match all_stops(alloc, word)? {
        Some(stops) if stops.len() <= MOST => Ok(Some(Stops::of(stops))),
        _ => Ok(None),
    }
}

// The stops that a word lists, as many as there are.
fn all_stops(alloc: Global, word: &[u8]) -> Result<Option<Vec<Stop>>, NoMemory>
    ensures answer { IfOk result (λ stops. option_map (λ s. s.items) stops ≡ spec.stops_of_each (spec.pieces 44 word.now)) }
{
    let mut stops = Vec::new(alloc);
    let mut rest = Some(word);
    'items: while let Some(word) = rest {
        let (item, behind) = split(word, b',');
        match stop_in(item) {
            Some(stop) => add(&mut stops, stop)?,
            None => return Ok(None),
        }
        rest = behind;
    }
    Ok(Some(stops))
}

// Adds a stop.
fn add(stops: &mut Vec<Stop>, stop: Stop) -> Result<(), NoMemory>
    ensures added { OnOk result (stops.new.items ≡ stops.old.items ++ stop ∷ []) }
{
    match stops.push(stop) {
        Ok(()) => Ok(()),
        Err(_) => Err(NoMemory),
    }
}

// The stop that an item spells: `sN`, or `wN:P`.
fn stop_in(item: &[u8]) -> Option<Stop>
    ensures answer { result ≡ spec.stop_of item.now }
{
    match item {
        [b's', step @ ..] => number(step).map(Stop::AtStep),
        [b'w', call @ ..] => in_call(call),
        _ => None,
    }
}

// .. the second, behind its `w`.
fn in_call(call: &[u8]) -> Option<Stop>
    ensures answer { result ≡ spec.call_of call.now }
{
    let (number, behind) = split(call, b':');
    let number = number_in(number, 1, 4_294_967_295)?;
    let pick = number_in(behind?, 0, 255)?;
    Some(Stop::InCall {
        number: number as u32,
        pick: pick as u8,
    })
}

// What a word has in front of the first such byte, and behind it, where it has one.
fn split(word: &[u8], mark: u8) -> (&[u8], Option<&[u8]>)
    ensures front { result.0.now ≡ spec.front mark word.now }
    ensures behind { MatchOption result.1 (spec.behind mark word.now ≡ None) (λ rest. spec.behind mark word.now ≡ Some rest.now) }
{
    let mut n = 0;
    'bytes: while n < word.len() {
        if word[n] == mark {
            return (&word[..n], Some(&word[n + 1..]));
        }
        n += 1;
    }
    (word, None)
}
