/// How a run stands at a bound on its steps.
#[derive(Clone, Copy, Debug, PartialEq, Eq)]
pub enum Ending {
    /// The program ended with this value.
    Ended(i64),
    /// The program trapped; a trap has a number from 1 to 6.
    Trapped(u8),
    /// The program would take another step.
    Going,
}
