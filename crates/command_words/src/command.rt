use crate::stops::Stops;

/// How a life is run.
#[derive(Clone, Copy, Debug, PartialEq, Eq)]
pub struct Settings {
    /// The most steps that it may take.
    pub until: u64,
    /// How many steps lie between two images at least, at least 1.
    pub every: u32,
    /// The most records of an image file, 2 to 64.
    pub max: u16,
}

/// What the words of a command line ask for. A file, or the directory of a store, is named by the place of its word, counted from 0.
#[derive(Debug, Drop)]
pub enum Command {
    /// `plain SRC INPUT`: evaluates the source on the input, in at most `until` steps.
    Plain {
        source: usize,
        input: usize,
        until: u64,
    },
    /// `check SRC`: accepts or refuses the source.
    Check {
        source: usize,
    },
    /// `compile SRC`: prints the code of the source.
    Compile {
        source: usize,
    },
    /// `report SRC`: prints the excluded sets of the source.
    Report {
        source: usize,
    },
    /// `run SRC INPUT DIR`: begins a run of the source on the input, with images in a store that has none.
    Run {
        source: usize,
        input: usize,
        dir: usize,
        settings: Settings,
    },
    /// `restart SRC INPUT DIR`: goes on from the newest image of a store, or begins where it has none.
    Restart {
        source: usize,
        input: usize,
        dir: usize,
        settings: Settings,
        /// The byte that memory holds which no image lists.
        fill: u8,
    },
    /// `images DIR`: lists the records of a store.
    Images {
        dir: usize,
    },
    /// `coalesce DIR`: joins the records of a store into one.
    Coalesce {
        dir: usize,
    },
    /// `clear DIR`: leaves a store without a chain and without output.
    Clear {
        dir: usize,
    },
    /// `why SRC K CELL`: prints why a cell of the source is kept in the images.
    Why {
        source: usize,
        /// The number of the EXCLUDE_HERE, 1 to 64.
        exclude: u16,
        cell: u32,
    },
    /// `drill SRC INPUT`: runs the source on the input through a list of stops, on a disk in memory.
    Drill {
        source: usize,
        input: usize,
        settings: Settings,
        /// The byte that memory holds which no image lists.
        fill: u8,
        /// Where its lives are stopped, one each, before the last one.
        stops: Stops,
    },
    /// `generate N`: drills the generated program of so many functions.
    Generate {
        /// How many, 1 to 1,000.
        functions: u16,
    },
}
