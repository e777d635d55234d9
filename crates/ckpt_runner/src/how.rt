/// Whether a store may hold a chain when a life is opened.
#[derive(Clone, Copy, Debug, PartialEq, Eq)]
pub enum Mode {
    /// The life begins: a store with a current chain is refused as occupied.
    Run,
    /// The life goes on from the newest image, or begins where there is none.
    Restart,
}

/// How a life is run.
#[derive(Clone, Copy)]
pub struct How<'a> {
    pub mode: Mode,
    /// The bound, in steps.
    pub until: u64,
    /// How many steps lie between two images at least, where the life begins.
    pub every: u32,
    /// The most records of an image file, where the life begins.
    pub max: u16,
    /// The byte that unlisted memory holds after a resume.
    pub fill: u8,
    /// How many instructions lie before each call of the writer, used again and again.
    pub pace: &'a [u32],
}
