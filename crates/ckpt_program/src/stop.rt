//! Why a command stops before it is done, and what is told of that.

ghost use Rattle.std.specs.Prelude.{◌≡◌, MatchOption, Some, None};
ghost use Rattle.ckpt_program.specs.Fetched.{limit_of};
ghost use Rattle.ckpt_program.specs.Texts as spec;

use crate::refusal::Refusal;
use c_reader::ReadFault;
use c_types::CheckFault;
use chain_listing::ListFault;
use ckpt_base::{Failed, NoMemory};
use disk_model::DiskFile;
use std::alloc::{AllocError, Global};

/// What has a limit: a file that a command reads, or the output of a drill.
#[derive(Clone, Copy)]
pub enum Document {
    /// At most 262,144 bytes.
    Source,
    /// At most 16,777,216 bytes.
    Input,
    /// What a drill writes, at most 16,777,216 bytes.
    Output,
}

impl Document {
    /// The most bytes that it may have.
    pub fn limit(self) -> usize
        ensures answer { result ≡ limit_of self }
    {
        match self {
            Document::Source => 262_144,
            Document::Input | Document::Output => 16_777_216,
        }
    }
}

/// For what cause a command stops.
#[derive(Drop)]
pub enum Cause {
    /// The words are no command.
    Usage,
    /// The source is refused.
    Refused(Refusal),
    /// The disk failed.
    DiskFault,
    /// The shelf failed, or lacks a file that the words name.
    ShelfFault,
    /// A file, or the output of a drill, is longer than its limit.
    TooLarge(Document),
    /// A file of the store is damaged.
    Damaged {
        /// The file.
        file: DiskFile,
        /// The place in it, counted from 0.
        place: u64,
    },
    /// The store has a chain, and the life was to begin.
    Occupied {
        /// The number of its newest image.
        image: u32,
        /// The steps taken up to it.
        step: u64,
    },
    /// The newest image is of another source.
    OtherSource {
        /// The digest that the image has.
        kept: [u8; 32],
        /// The one of the source that was given.
        given: [u8; 32],
    },
    /// The newest image is of another input.
    OtherInput {
        /// The digest that the image has.
        kept: [u8; 32],
        /// The one of the input that was given.
        given: [u8; 32],
    },
    /// The bound is below the steps of the newest image.
    Behind {
        /// The bound.
        bound: u64,
        /// The steps of the newest image.
        step: u64,
    },
    /// The program has no EXCLUDE_HERE of this number.
    NotAnExclude(u16),
    /// The program has no cell of this number.
    NotACell(u32),
}

/// Why a command stops before it is done.
#[derive(Drop)]
pub enum Stop {
    /// No memory was found.
    NoMemory,
    /// For a cause.
    Because(Cause),
}

/// The text of usage.
const USAGE: &[u8] =
    b"usage: ckpt plain|check|compile|report|run|restart|images|coalesce|clear|drill|generate|why\n";

impl Cause {
    /// The status with which the program ends.
    pub fn status(&self) -> u8
        ensures answer { result ≡ spec.cause_status self.now }
    {
        match self {
            Cause::Usage => 1,
            Cause::Refused(_) => 2,
            Cause::DiskFault => 5,
            Cause::ShelfFault => 6,
            Cause::Damaged { .. } => 8,
            Cause::OtherSource { .. } | Cause::OtherInput { .. } => 9,
            Cause::Occupied { .. } => 10,
            Cause::TooLarge(_) => 11,
            Cause::Behind { .. } => 13,
            Cause::NotAnExclude(_) | Cause::NotACell(_) => 14,
        }
    }

    /// The line that tells it, where that is always the same; the others are made, by `made_line`.
    pub fn fixed_line(&self) -> Option<&'static [u8]>
        ensures answer { MatchOption result (spec.fixed_line self.now ≡ None) (λ line. spec.fixed_line self.now ≡ Some line.now) }
    {
        match self {
            Cause::Usage => Some(USAGE),
            Cause::DiskFault => Some(b"disk fault\n"),
            Cause::ShelfFault => Some(b"shelf fault\n"),
            Cause::TooLarge(Document::Source) => Some(b"too large: source\n"),
            Cause::TooLarge(Document::Input) => Some(b"too large: input\n"),
            Cause::TooLarge(Document::Output) => Some(b"too large: output\n"),
            _ => None,
        }
    }
}

impl From<NoMemory> for Stop {
    ghost use Rattle.ckpt_program.specs.declared.stop.Stop.TheVariants as stop;

    ghost from_gives = { λ _ e. e ≡ stop.NoMemory };

    fn from(_: NoMemory) -> Stop {
        Stop::NoMemory
    }
}

impl From<AllocError> for Stop {
    ghost use Rattle.ckpt_program.specs.declared.stop.Stop.TheVariants as stop;

    ghost from_gives = { λ _ e. e ≡ stop.NoMemory };

    fn from(_: AllocError) -> Stop {
        Stop::NoMemory
    }
}

impl From<Failed> for Stop {
    ghost use Rattle.ckpt_program.specs.declared.stop.Stop.TheVariants as stop;
    ghost use Rattle.ckpt_program.specs.declared.stop.Cause.TheVariants as cause;

    ghost from_gives = { λ _ e. e ≡ stop.Because cause.DiskFault };

    fn from(_: Failed) -> Stop {
        Stop::Because(Cause::DiskFault)
    }
}

impl From<ListFault> for Stop {
    ghost use Rattle.ckpt_program.specs.Reasons.{stop_of_listing};

    ghost from_gives = { λ f e. e ≡ stop_of_listing f };

    fn from(fault: ListFault) -> Stop {
        match fault {
            ListFault::Memory => Stop::NoMemory,
            ListFault::Failed => Stop::Because(Cause::DiskFault),
            ListFault::Damaged { file, place } => Stop::Because(Cause::Damaged { file, place }),
        }
    }
}

impl From<ReadFault> for Stop {
    ghost use Rattle.ckpt_program.specs.Reasons.{stop_of_text};

    ghost from_gives = { λ f e. e ≡ stop_of_text f };

    fn from(fault: ReadFault) -> Stop {
        let refusal = match fault {
            ReadFault::Memory => return Stop::NoMemory,
            ReadFault::TooLong(_) => return Stop::Because(Cause::TooLarge(Document::Source)),
            ReadFault::BadByte(place) => Refusal::BadByte(place),
            ReadFault::BadNumber(place) => Refusal::BadNumber(place),
            ReadFault::UnendedComment => Refusal::UnendedComment,
            ReadFault::Syntax(line) => Refusal::Syntax(line),
        };
        Stop::Because(Cause::Refused(refusal))
    }
}

impl From<CheckFault> for Stop {
    ghost use Rattle.ckpt_program.specs.Reasons.{stop_of_rule};

    ghost from_gives = { λ f e. e ≡ stop_of_rule f };

    fn from(fault: CheckFault) -> Stop {
        let refusal = match fault {
            CheckFault::Memory => return Stop::NoMemory,
            CheckFault::Unknown(name) => Refusal::Unknown(name),
            CheckFault::Twice(name) => Refusal::Twice(name),
            CheckFault::NoMain => Refusal::NoMain,
            CheckFault::WrongType(line) => Refusal::WrongType(line),
            CheckFault::WrongCount(line) => Refusal::WrongCount(line),
            CheckFault::DirectiveOutsideMain(line) => Refusal::DirectiveOutsideMain(line),
            CheckFault::CallsMain(line) => Refusal::CallsMain(line),
            CheckFault::TooManyCells(n) => Refusal::TooManyCells(n),
            CheckFault::TooManyLocals(name) => Refusal::TooManyLocals(name),
            CheckFault::TooManyNodes(n) => Refusal::TooManyNodes(n),
            CheckFault::TooManyDirectives(n) => Refusal::TooManyDirectives(n),
        };
        Stop::Because(Cause::Refused(refusal))
    }
}
