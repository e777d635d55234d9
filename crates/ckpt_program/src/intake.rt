ghost use Rattle.std.specs.Prelude.{◌≡◌, ◌≢◌, ◌<◌, ◌≤◌, ◌+◌, ◌++◌, length, IfOk, IfErr, IsTrue, OnErr, Err, MatchBool, [], ◌^◌};
ghost use Rattle.ckpt_base.specs.Faults.{Rose};
ghost use Rattle.ckpt_base.specs.Shelf.{SameShelf};
ghost use Rattle.ckpt_program.specs.Fetched.{Gives, IsWhole, Causes};
ghost use Rattle.ckpt_program.specs.Sight.{sight, Later};

use ckpt_base::{Bytes, Failed, NoMemory, Shelf, Text};
use std::alloc::Global;
use thiserror::Error;

/// Why a file was not read whole.
#[derive(Debug, Drop, Error)]
pub enum FetchFault {
    /// The shelf failed, or tells that it has no file of that name.
    #[error("shelf fault")]
    Shelf,
    /// The file is longer than the limit.
    #[error("too long")]
    TooLong,
    /// No memory was found.
    #[error("no memory")]
    Memory,
}

/// How many bytes one read asks for.
const PIECE: usize = 8192;

/// Reads the whole file of that name, at most `limit` bytes.
pub fn fetch<H: Shelf>(
    alloc: Global,
    shelf: &mut H,
    name: &Text,
    limit: usize,
) -> Result<Bytes, FetchFault>
    requires fits { limit < 2 ^ 63 }
    ensures answer { IfOk result (λ b. IsWhole (sight (H.view shelf.old)) name.now limit b.list) }
    ensures err { IfErr result (λ e. Causes (sight (H.view shelf.old)) (sight (H.view shelf.new)) name.now limit e) }
    ensures later { Later (sight (H.view shelf.old)) (sight (H.view shelf.new)) }
    ensures count { result ≢ Err FetchFault.Shelf → (H.view shelf.new).faults ≡ (H.view shelf.old).faults }
{
    let mut bytes = match Bytes::with_room(alloc, limit + 1) {
        Ok(bytes) => bytes,
        Err(NoMemory) => return Err(FetchFault::Memory),
    };
    match shelf.open(name) {
        Ok(true) => {}
        Ok(false) | Err(Failed) => return Err(FetchFault::Shelf),
    }
    match read_up_to(shelf, &mut bytes, limit + 1) {
        Ok(true) => Ok(bytes),
        Ok(false) => Err(FetchFault::TooLong),
        Err(Failed) => Err(FetchFault::Shelf),
    }
}

// Reads what is left of the open file, until it ends or there are `most` bytes. Tells whether it has ended with fewer.
fn read_up_to<H: Shelf>(shelf: &mut H, bytes: &mut Bytes, most: usize) -> Result<bool, Failed>
    requires opened { IsTrue (H.view shelf.old).is_open }
    requires room { most ≤ bytes.old.spare }
    requires empty { bytes.old.list ≡ [] }
    ensures same { SameShelf (H.view shelf.old) (H.view shelf.new) }
    ensures failed { OnErr result (Rose (H.view shelf.old).faults (H.view shelf.new).faults × ((H.view shelf.old).faults ≤ (H.view shelf.new).faults)) }
    ensures counts { IfOk result (λ _. (H.view shelf.new).faults ≡ (H.view shelf.old).faults) }
    ensures answer { IfOk result (λ whole. MatchBool whole
        ((length bytes.new.list < most) × (IsTrue (H.view shelf.old).tells → (H.view shelf.old).rest ≡ bytes.new.list))
        (IsTrue (H.view shelf.old).tells → most ≤ length (H.view shelf.old).rest)) }
{
    let mut piece = [0u8; PIECE];
    'pieces: while bytes.as_slice().len() < most {
        let room = (most - bytes.as_slice().len()).min(PIECE);
        let buf = &mut piece[..room];
        let n = shelf.read(buf)?;
        if n == 0 {
            return Ok(true);
        }
        bytes.append(&buf[..n]);
    }
    Ok(false)
}
