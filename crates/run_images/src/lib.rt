//! Images of a run, and stores that stand for a program with its input.
//!
//! The images of a run are a fold over its events: at a checkpoint that is due an image is taken, which lists the cells on pages
//! that were written since the image before, but for those that the newest directive leaves out. Records on a disk stand for images as a
//! joined list. A store stands for a source where each chain that it has is such a list of the source's run, with the memory that
//! the run had there and the output before it; `specs/Stands.antt` says it.
//!
//! This crate makes no call on a disk and has no state: it has definitions, in `specs/`, and their laws, functions with empty
//! bodies. [`image_laws`](images_go_on): images go on with the events, joined lists grow and join, and a new image holds what the run
//! needs. [`store_laws`](chains_keep_standing): what a crash leaves in each call of the chain and the output stands, with no image
//! lost. [`life_laws`](resumed_lives_are_of_their_source): a life that begins, or goes on from records that stand, shows what its
//! source shows, takes images that stand, and ends as its source.
#![tactic(auto)]

mod image_laws;
mod life_laws;
mod store_laws;

pub use image_laws::{
    images_go_on, joined_lists_grow, joined_lists_join, newest_images_give_the_rest,
    taken_images_hold, unwritten_words_stay,
};
pub use life_laws::{
    begun_lives_are_of_their_source, images_of_lives_stand, lives_end_as_their_source,
    lives_show_what_their_source_shows, resumed_lives_are_of_their_source,
    resumed_lives_hold_their_records,
};
pub use store_laws::{
    chains_keep_standing, empty_stores_stand, images_are_not_lost, kept_chains_stand,
    newest_images_need_most, outputs_grow_behind, standing_records_stay,
};
