//! Which objects a pointer of a program may name.
//!
//! A pointer comes from somewhere: a declaration, an assignment, an argument, a returned value or a call's result. `specs/Flows` says
//! which of these the text of a program has (`flows`), and `specs/Points` that an object may be held by a variable where a chain of them
//! leads from the object's address to it (`MayHold`). [`find_points`] finds exactly that, with the solver of `path_laws`.
#![tactic(auto)]

mod flows;
mod nodes;
mod numbering;
mod points;
mod statements;

pub use flows::{PointerVar, Source};
pub use points::{Points, find_points};
