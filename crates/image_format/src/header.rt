//! The header of an image file.
ghost use Rattle.std.specs.Prelude.{◌≡◌, ◌<◌, IfOk, length, Ok};
ghost use Rattle.image_format.specs.Image.{IsBytes, IsHeader, IsHeldHeader};
ghost use Rattle.image_format.specs.declared.header.Header.{Header as HeaderOf};
ghost use Rattle.image_format.specs.Spelling.{header_bytes, gate_of, SpellsHeader};
ghost use Rattle.image_format.specs.Reading.{GivesHeader, header_at};

use thiserror::Error;

/// The gate byte that is open. Any other is closed.
pub(crate) const OPEN: u8 = 0xA5;

/// The gate byte that is written for a closed gate.
pub(crate) const CLOSED: u8 = 0;

const MAGIC: [u8; 4] = *b"CKP1";

/// The header of an image file.
#[derive(Clone, Copy, Debug, PartialEq, Eq)]
pub struct Header {
    /// Which of the two image files is the newer one, at least 1.
    pub generation: u32,
    /// The steps from one image to the next, at least 1.
    pub every: u32,
    /// How many records the file holds at most, 2 to 64.
    pub max: u16,
    /// Whether the gate of the first record is open.
    pub gate_open: bool,
}

/// The bytes are no header.
#[derive(Clone, Copy, Debug, PartialEq, Eq, Error)]
#[error("bad header at {place}")]
pub struct BadHeader {
    /// The first byte of the first field that breaks its rule.
    pub place: usize,
}

/// Spells a header.
pub fn write_header(h: &Header) -> [u8; 16]
    requires ranges { IsHeader h.now }
    ensures answer { result ≡ header_bytes h.now (gate_of h.now.gate_open) }
{
    let [g0, g1, g2, g3] = h.generation.to_be_bytes();
    let [e0, e1, e2, e3] = h.every.to_be_bytes();
    let [m0, m1] = h.max.to_be_bytes();
    let gate = if h.gate_open { OPEN } else { CLOSED };
    [
        MAGIC[0], MAGIC[1], MAGIC[2], MAGIC[3], g0, g1, g2, g3, e0, e1, e2, e3, m0, m1, 0, gate,
    ]
}

/// Reads a header, or answers the place of the first field that breaks its rule.
pub fn read_header(bytes: &[u8; 16]) -> Result<Header, BadHeader>
    ensures exact { GivesHeader result (header_at bytes.now) }
    // What is read is spelled so.
    ensures found { IfOk result (λ h. IsHeldHeader h × SpellsHeader h bytes.now) }
    // What is spelled so is read.
    ensures only { (h : HeaderOf) → IsHeldHeader h → SpellsHeader h bytes.now → GivesHeader result (Ok h) }
{
    read_fields(bytes)
}

fn read_fields(bytes: &[u8; 16]) -> Result<Header, BadHeader>
    ensures exact { GivesHeader result (header_at bytes.now) }
    ensures bytes { IsBytes bytes.now }
    ensures size { length bytes.now ≡ 16 }
{
    if bytes[..4] != MAGIC[..] {
        return Err(BadHeader { place: 0 });
    }
    let generation = u32::from_be_bytes([bytes[4], bytes[5], bytes[6], bytes[7]]);
    if generation < 1 {
        return Err(BadHeader { place: 4 });
    }
    let every = u32::from_be_bytes([bytes[8], bytes[9], bytes[10], bytes[11]]);
    if every < 1 {
        return Err(BadHeader { place: 8 });
    }
    let max = u16::from_be_bytes([bytes[12], bytes[13]]);
    if max < 2 || 64 < max {
        return Err(BadHeader { place: 12 });
    }
    if bytes[14] != 0 {
        return Err(BadHeader { place: 14 });
    }
    Ok(Header {
        generation,
        every,
        max,
        gate_open: bytes[15] == OPEN,
    })
}
