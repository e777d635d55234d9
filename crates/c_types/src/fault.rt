use ckpt_base::{NoMemory, Text};
use std::alloc::AllocError;
use thiserror::Error;

/// Why a program is refused: the first fault of the first pass that finds one.
#[derive(Debug, Drop, Error)]
pub enum CheckFault {
    /// No memory was found.
    #[error("no memory")]
    Memory,
    /// A name is used where it means nothing that may stand there.
    #[error("unknown name")]
    Unknown(Text),
    /// A name is declared where it is declared already.
    #[error("name twice")]
    Twice(Text),
    /// There is no `main`.
    #[error("no main")]
    NoMain,
    /// What stands in the statement or declaration of this line has no type, or not the type that is wanted.
    #[error("wrong type in line {0}")]
    WrongType(u32),
    /// A call, or a `printf`, of this line has too few or too many values.
    #[error("wrong count in line {0}")]
    WrongCount(u32),
    /// A directive of this line stands outside `main`.
    #[error("directive outside main in line {0}")]
    DirectiveOutsideMain(u32),
    /// A statement of this line calls `main`.
    #[error("call of main in line {0}")]
    CallsMain(u32),
    /// There are so many cells, more than `MAX_CELLS`.
    #[error("{0} cells")]
    TooManyCells(u128),
    /// The function has more than `MAX_LOCALS` parameters and locals.
    #[error("too many locals")]
    TooManyLocals(Text),
    /// `main` has so many nodes, more than `MAIN_NODES`.
    #[error("{0} nodes")]
    TooManyNodes(u32),
    /// `main` has so many EXCLUDE_HERE, more than `MAX_EXCLUDES`.
    #[error("{0} excludes")]
    TooManyDirectives(u32),
}

impl From<AllocError> for CheckFault {
    ghost use Rattle.std.specs.Prelude.{◌≡◌};
    ghost use Rattle.c_types.specs.declared.fault.CheckFault.TheVariants.{Memory};

    ghost from_gives = { λ _ e. e ≡ Memory };

    fn from(_: AllocError) -> CheckFault {
        CheckFault::Memory
    }
}

impl From<NoMemory> for CheckFault {
    ghost use Rattle.std.specs.Prelude.{◌≡◌};
    ghost use Rattle.c_types.specs.declared.fault.CheckFault.TheVariants.{Memory};

    ghost from_gives = { λ _ e. e ≡ Memory };

    fn from(_: NoMemory) -> CheckFault {
        CheckFault::Memory
    }
}
