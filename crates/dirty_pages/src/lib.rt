//! The state of each page of a memory: written since it was protected, or protected against writes; and whether it is part of a snapshot that is
//! being saved.
//!
//! The machine asks whether a page is protected before it writes; the run of a program serves the fault, and protects all pages when an image is
//! taken. So the dirty pages are those that were served since then. The flags are those of a page table, with `bitflags`; a page is DIRTY exactly where
//! it is not PROTECTED, and that holds of every value of the type. Contracts see two lists of truth values, one entry for each page.
#![tactic(auto)]

mod flags;
mod pages;

pub use flags::PageFlags;
pub use pages::Pages;
