//! Headers of batches.
ghost use Rattle.std.specs.Prelude.{◌≡◌, ◌≤◌, ◌↔◌, Some};
ghost use Rattle.lift_record.specs.Header.{header_bytes, IsHeaderSpelling};
ghost use Rattle.lift_record.specs.declared.version.Version.TheVariants.{Two};

use crate::version::Version;
use lift_base::MOST_ENTRIES;

/// What the header of a batch says: the version of its records, how many there are (1 to 63), and
/// the batch's number in its chain, counted from 1.
#[derive(Clone, Copy)]
pub struct Header {
    /// That of its records.
    pub version: Version,
    /// How many records it has, 1 to 63.
    pub count: u16,
    /// Its place in the half, from 1.
    pub number: u32,
}

fn spell_header(version: Version, count: u16, number: u32) -> [u8; 16]
    ensures { result ≡ header_bytes version count number }
{
    let [c, d] = count.to_be_bytes();
    let [m, n, o, p] = number.to_be_bytes();
    [
        0x4C,
        0x42,
        version.number(),
        0,
        c,
        d,
        0,
        0,
        m,
        n,
        o,
        p,
        0,
        0,
        0,
        0,
    ]
}

/// The header of a batch with this many records of the second version.
pub fn encode_header(count: u16, number: u32) -> [u8; 16]
    requires count { (1 ≤ count) × (count ≤ MOST_ENTRIES) }
    requires number { 1 ≤ number }
    ensures bytes { result ≡ header_bytes Two count number }
    ensures in_grammar { IsHeaderSpelling result
        (record { version = Two; count = count; number = number }) }
{
    spell_header(Version::Two, count, number)
}

/// What this header says, if it is one.
pub fn decode_header(bytes: &[u8; 16]) -> Option<Header>
    ensures { (header : Header) → (result ≡ Some header ↔ IsHeaderSpelling bytes.now header) }
{
    let [_, _, version, _, c, d, _, _, m, n, o, p, ..] = *bytes;
    let version = match version {
        1 => Version::One,
        2 => Version::Two,
        _ => return None,
    };
    let count = u16::from_be_bytes([c, d]);
    let number = u32::from_be_bytes([m, n, o, p]);
    let in_range = 1 <= count && usize::from(count) <= MOST_ENTRIES && 1 <= number;
    if in_range && spell_header(version, count, number) == *bytes {
        Some(Header {
            version,
            count,
            number,
        })
    } else {
        None
    }
}
