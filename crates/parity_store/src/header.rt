//! The header of a pool file.
ghost use Rattle.std.specs.Prelude.{◌≡◌, ◌<◌, IfOk, length};
ghost use Rattle.parity_store.specs.Layout.{GivesPoolHeader, IsPoolHeader, pool_head, pool_header_at};
ghost use Rattle.std.specs.Prelude.{◌++◌, ◌∷◌, [], true};

use thiserror::Error;

/// The gate byte that is open. Any other is closed.
pub(crate) const OPEN_GATE: u8 = 0xA5;

const MAGIC: [u8; 4] = *b"CKPX";

/// The header of a pool file.
#[derive(Clone, Copy, Debug, PartialEq, Eq)]
pub struct PoolHeader {
    /// Which of the two files is the newer one, at least 1.
    pub generation: u32,
    /// How many bytes a slot has, 1 to 16,777,216.
    pub size: u32,
    /// How many jobs there are, 2 to 16.
    pub jobs: u16,
    /// Whether the gate is open.
    pub gate_open: bool,
}

/// The bytes are no header.
#[derive(Clone, Copy, Debug, PartialEq, Eq, Error)]
#[error("bad header at {place}")]
pub struct BadPoolHeader {
    /// The first byte of the first field that breaks its rule.
    pub place: usize,
}

/// Spells a header with a closed gate.
pub(crate) fn write_header(generation: u32, size: u32, jobs: u16) -> [u8; 16]
    ensures answer { result ≡ pool_head (record { generation = generation; size = size; jobs = jobs; gate_open = true }) ++ 0 ∷ [] }
{
    let [g0, g1, g2, g3] = generation.to_be_bytes();
    let [s0, s1, s2, s3] = size.to_be_bytes();
    let [j0, j1] = jobs.to_be_bytes();
    [
        MAGIC[0], MAGIC[1], MAGIC[2], MAGIC[3], g0, g1, g2, g3, s0, s1, s2, s3, j0, j1, 0, 0,
    ]
}

/// Reads a header, or answers the place of the first field that breaks its rule.
pub(crate) fn read_header(bytes: &[u8; 16]) -> Result<PoolHeader, BadPoolHeader>
    ensures exact { GivesPoolHeader result (pool_header_at bytes.now) }
    ensures found { IfOk result IsPoolHeader }
{
    if bytes[..4] != MAGIC[..] {
        return Err(BadPoolHeader { place: 0 });
    }
    let generation = u32::from_be_bytes([bytes[4], bytes[5], bytes[6], bytes[7]]);
    if generation < 1 {
        return Err(BadPoolHeader { place: 4 });
    }
    let size = u32::from_be_bytes([bytes[8], bytes[9], bytes[10], bytes[11]]);
    if size < 1 || 16_777_216 < size {
        return Err(BadPoolHeader { place: 8 });
    }
    let jobs = u16::from_be_bytes([bytes[12], bytes[13]]);
    if jobs < 2 || 16 < jobs {
        return Err(BadPoolHeader { place: 12 });
    }
    if bytes[14] != 0 {
        return Err(BadPoolHeader { place: 14 });
    }
    Ok(PoolHeader {
        generation,
        size,
        jobs,
        gate_open: bytes[15] == OPEN_GATE,
    })
}
