ghost use Rattle.std.specs.Prelude.{◌≡◌, IfOk, Ok};
ghost use Rattle.ckpt_base.specs.Faults.{Counts};

use ckpt_base::{Failed, count_on};
use std::io;

// Counts an error.
pub(crate) fn counted<T: Drop>(answer: io::Result<T>, faults: &mut u64) -> Result<T, Failed>
    ensures same { IfOk result (λ x. answer ≡ Ok x) }
    ensures answer { Counts result faults.old faults.new }
{
    match answer {
        Ok(x) => Ok(x),
        Err(_) => {
            *faults = count_on(*faults);
            Err(Failed)
        }
    }
}
