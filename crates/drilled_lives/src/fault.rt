use crate::living::LifeFault;
use ckpt_base::{Failed, NoMemory};
use ckpt_runner::OpenFault;
use std::alloc::AllocError;
use thiserror::Error;

/// Why a drill comes to nothing.
#[derive(Clone, Copy, Debug, PartialEq, Eq, Error)]
pub enum DrillFault {
    /// No memory was found.
    #[error("no memory")]
    Memory,
    /// A life was refused by its store.
    #[error("a life of the drill was refused")]
    Refused(OpenFault),
    /// A call on the disk failed that no stop came into, when the run had taken so many ticks: a file has no room for what was to be written.
    #[error("no room on the disk of the drill")]
    NoRoom { ticks: u64 },
}

impl From<NoMemory> for DrillFault {
    ghost use Rattle.std.specs.Prelude.{◌≡◌};
    ghost use Rattle.drilled_lives.specs.declared.fault.DrillFault.TheVariants.{Memory};

    ghost from_gives = { λ _ e. e ≡ Memory };

    fn from(_: NoMemory) -> DrillFault {
        DrillFault::Memory
    }
}

impl From<AllocError> for DrillFault {
    ghost use Rattle.std.specs.Prelude.{◌≡◌};
    ghost use Rattle.drilled_lives.specs.declared.fault.DrillFault.TheVariants.{Memory};

    ghost from_gives = { λ _ e. e ≡ Memory };

    fn from(_: AllocError) -> DrillFault {
        DrillFault::Memory
    }
}

impl From<Failed> for DrillFault {
    ghost use Rattle.std.specs.Prelude.{◌≡◌};
    ghost use Rattle.drilled_lives.specs.declared.fault.DrillFault.TheVariants.{Refused};
    ghost use Rattle.ckpt_runner.specs.declared.started.OpenFault.TheVariants.{Failed};

    ghost from_gives = { λ _ e. e ≡ Refused Failed };

    fn from(_: Failed) -> DrillFault {
        DrillFault::Refused(OpenFault::Failed)
    }
}

impl From<LifeFault> for DrillFault {
    ghost use Rattle.std.specs.Prelude.{◌≡◌};
    ghost use Rattle.drilled_lives.specs.Living.{fault_of};

    ghost from_gives = { λ fault e. e ≡ fault_of fault };

    fn from(fault: LifeFault) -> DrillFault {
        match fault {
            LifeFault::Refused(OpenFault::Memory) => DrillFault::Memory,
            LifeFault::Refused(refusal) => DrillFault::Refused(refusal),
            LifeFault::Stopped { ticks, .. } => DrillFault::NoRoom { ticks },
        }
    }
}
