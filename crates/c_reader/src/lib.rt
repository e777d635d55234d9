//! From a text to the tree that it spells.
//!
//! `read` is what the layer above uses. Its contract says that a text is accepted exactly where it spells a program, that
//! the tree is the only one that it spells, and when each fault comes. The scan takes the text apart into tokens, with the
//! place of the first fault. The reader then goes over the tokens with one token of look-ahead and never makes a tree that
//! is deeper than the bound.
#![tactic(auto)]

mod assignments;
mod calls;
mod digits;
mod directives;
mod expressions;
mod fault;
mod functions;
mod here;
mod items;
mod laws;
mod locals;
mod look;
mod objects;
mod pieces;
mod reader;
mod scan;
mod singles;
mod statements;
mod strings;
mod words;

pub use fault::ReadFault;
pub use laws::texts_spell_one_program;
pub use reader::read;
