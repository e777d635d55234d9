use ckpt_runner::Started;
use one_life::Lived;

/// What one life of a drill did.
#[derive(Clone, Copy, Debug, PartialEq, Eq)]
pub enum Course {
    /// A stop came while it opened its store.
    Opening,
    /// It started so, and a stop left it.
    Left(Started),
    /// No stop reached it.
    Lived(Lived),
}

/// What a drill did.
#[derive(Drop)]
pub struct Drilled {
    /// What each life did, in order.
    pub courses: Vec<Course>,
    /// The output at the end.
    pub output: Vec<u8>,
}
