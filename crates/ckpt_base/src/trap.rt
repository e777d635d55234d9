ghost use Rattle.std.specs.Prelude.{◌≡◌};
ghost use Rattle.ckpt_base.specs.Trap.{trap_number};

/// Why a program is stopped.
#[derive(Clone, Copy, Debug, PartialEq, Eq)]
pub enum Trap {
    /// A quotient or a remainder by 0.
    DivisionByZero,
    /// The least number divided by -1.
    QuotientOverflow,
    /// A shift by a count outside 0 to 63.
    ShiftCount,
    /// A pointer moved outside its object, or a read or a write behind its last cell.
    OutsideObject,
    /// The null pointer moved, read or written.
    NullPointer,
    /// A call while 1,000 calls are active.
    TooManyCalls,
}

impl Trap {
    /// The number of the trap, 1 to 6, in the order above.
    pub fn number(&self) -> u8
        ensures answer { result ≡ trap_number self.now }
    {
        match self {
            Trap::DivisionByZero => 1,
            Trap::QuotientOverflow => 2,
            Trap::ShiftCount => 3,
            Trap::OutsideObject => 4,
            Trap::NullPointer => 5,
            Trap::TooManyCalls => 6,
        }
    }
}
