// What one instruction of a machine answers, and the calls that wait.

/// What one instruction answers.
#[derive(Clone, Copy, PartialEq, Eq, Debug)]
pub enum Event {
    /// It ran.
    Ran,
    /// It took a tick.
    Ticked,
    /// It would write this page, which is protected; nothing has changed.
    WriteFault(u32),
    /// It writes a byte.
    Out(u8),
    /// It writes a number in decimal digits.
    OutNumber(i64),
    /// It needs an input value; nothing has changed.
    WantsInput,
    /// It passed the checkpoint of this node.
    Checkpoint(u32),
    /// It executed this directive.
    Exclude(u16),
    /// The program ended with this value.
    Ended(i64),
    /// The program trapped; a trap has a number from 1 to 6.
    Trapped(u8),
}

/// Where a call that waits goes on, and how many operands and locals lie below its own.
#[derive(Clone, Copy, PartialEq, Eq, Debug)]
pub struct Caller {
    /// The place after the call.
    pub place: usize,
    /// How many operands belong to the calls that wait below it.
    pub below: usize,
    /// How many locals belong to the calls that wait below it.
    pub locals_below: usize,
}
