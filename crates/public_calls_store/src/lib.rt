//! Tests of the public calls of the store: disks, the output file, images, chains, joining and recovery, and files of the host.
//!
//! `public_calls_language` says what the tests are for.
#![tactic(auto)]

#[cfg(test)]
mod chains;
#[cfg(test)]
mod disk;
#[cfg(test)]
mod host;
#[cfg(test)]
mod images;
#[cfg(test)]
mod joining;
#[cfg(test)]
mod output;
#[cfg(test)]
mod recovering;
#[cfg(test)]
mod stores;
