//! One life of a program: it opens a store, runs the code of the program, saves images on the way, and is finished.
//!
//! [`Life::open`] begins a life on a store without a chain, or resumes it behind the checkpoint of the newest image; [`Life::go`] runs it on for a tick, and
//! [`Life::finish`] makes what it has written lasting. `specs/Lives.antt` says where a life stands in its run, whatever its disk tells, `specs/Keeps.antt` what it has on
//! its disk, `specs/Calls.antt` what a call comes to, and `specs/Opening.antt` what opening a store comes to. `specs/Standing.antt` says what each call keeps of a store
//! that stands for the source: at every moment a crash leaves one that stands, and at the end it is what the source's run gives.
//!
//! [`Progress`] is what a life keeps of its run for the next image; [`find_cells`] lists the cells that the image takes, page by page, and [`fields_of`] says what it tells of its
//! checkpoint. The laws take where a life stands, and what it keeps, over a run of instructions, over an image, and over each call on the journal: [`lives_go_on`],
//! [`images_are_kept`], and those of a life of a source ([`runs_keep_good`] and the ones beside it).
#![tactic(auto)]

mod beginning;
mod copies;
mod finishing;
mod giving;
mod going;
mod how;
mod image;
mod laws;
mod life;
mod memory;
mod opening;
mod pace_laws;
mod progress;
mod resuming;
mod rooms;
mod standing_laws;
mod started;
mod taking;
mod writing;

pub use how::{How, Mode};
pub use image::{fields_of, find_cells};
pub use laws::{images_are_kept, lives_go_on};
pub use life::Life;
pub use pace_laws::calls_come_by_sums;
pub use progress::Progress;
pub use standing_laws::{
    beginnings_lose_no_image, begun_lives_are_good, bytes_keep_good, calls_lose_no_image,
    calls_stand_together, first_moments_stand, flushes_keep_good, images_keep_good,
    joinings_keep_good, lives_leave_what_their_source_gives, quiet_events_keep_good,
    resumed_lives_are_good, runs_keep_good, turns_keep_standing,
};
pub use started::{OpenFault, Started};
