//! What takes memory, and the evidence that none was left.

ghost use Rattle.std.specs.Prelude.{◌≡◌, ◌≤◌, ◌<◌, ◌+◌, ◌*◌, ◌++◌, ◌∷◌, [], length, vec_len, is_ok};
ghost use Rattle.std.specs.Prelude.{string_bytes, if◌then◌else◌, IfOk, OnOk, OnErr, vec_capacity};
ghost use Rattle.std.specs.String.{string_capacity};
ghost use Rattle.lift_desk.specs.Seats.{AreSeatsOf, IsClerkOf, OwesNothing, clerk_of, seats_from};
ghost use Rattle.lift_disk.specs.Blank.{IsBlankDisk};
ghost use Rattle.lift_disk.specs.Outcomes.{state_of};

use lift_base::{LEAST_HALF, MOST_TERMINALS};
use lift_desk::{Desk, DeskParts};
use lift_disk::MemDisk;
use std::alloc::Global;
use std::marker::Model;

/// Evidence that no memory was left. Only the calls below make one, each where a growth was refused
/// it. Nobody can copy it: so each answer uses up a refusal.
#[derive(Drop, PartialEq, Eq)]
pub struct NoMemory {
    made: (),
}

impl Model for NoMemory {
    ghost Value = { Unit {0} };

    ghost view = { λ _. tt };

    ghost inverse = { λ _. record { made = tt } };
}

impl NoMemory {
    /// None was left for a building's text.
    pub(crate) fn for_building(_no_memory: lift_building::NoMemory) -> Self {
        NoMemory { made: () }
    }
}

/// The room for a piece of a report: its last line, the longest of which shows 512 calls in less
/// than 20,000 bytes, goes beyond what a piece is written at.
const ROOM_BYTES: usize = 65_536;

/// Adds a text to another. It is refused only where there is no room for it.
pub(crate) fn add(text: &mut String, more: &str) -> Result<(), NoMemory>
    ensures bytes { string_bytes text.new ≡ (if is_ok result
        then string_bytes text.old ++ more.now else string_bytes text.old) }
    ensures full { OnErr result (string_capacity text.old
        < length (string_bytes text.old) + length more.now) }
{
    match text.push_str(more) {
        Ok(()) => Ok(()),
        Err(_) => Err(NoMemory { made: () }),
    }
}

/// Adds a letter, a digit or a sign to a text. It is refused only where there is no room for it.
#[inline(always)]
pub(crate) fn add_char(text: &mut String, letter: char) -> Result<(), NoMemory>
    requires { letter < 128 }
    ensures bytes { OnOk result (string_bytes text.new ≡ string_bytes text.old ++ letter ∷ []) }
    ensures full { OnErr result (string_capacity text.old ≤ length (string_bytes text.old)) }
{
    match text.push(letter) {
        Ok(()) => Ok(()),
        Err(_) => Err(NoMemory { made: () }),
    }
}

/// Adds bytes to others. They are refused only where there is no room for them.
pub(crate) fn add_bytes(bytes: &mut Vec<u8>, more: &[u8]) -> Result<(), NoMemory>
    ensures items { OnOk result (bytes.new.items ≡ bytes.old.items ++ more.now) }
    ensures len { OnOk result (vec_len bytes.new ≡ vec_len bytes.old + length more.now) }
    ensures full { OnErr result (vec_capacity bytes.old < vec_len bytes.old + length more.now) }
{
    match bytes.extend_from_slice(more) {
        Ok(()) => Ok(()),
        Err(_) => Err(NoMemory { made: () }),
    }
}

/// An empty piece, with its room.
pub(crate) fn empty_piece(alloc: Global) -> Result<String, NoMemory>
    ensures bytes { IfOk result (λ piece. string_bytes piece ≡ []) }
{
    match String::with_capacity(alloc, ROOM_BYTES) {
        Ok(piece) => Ok(piece),
        Err(_) => Err(NoMemory { made: () }),
    }
}

/// A device in memory of this many sectors of zeros.
pub(crate) fn empty_disk(alloc: Global, sectors: u32) -> Result<MemDisk, NoMemory>
    requires { sectors ≤ 2 * LEAST_HALF + 2 }
    ensures blank { IfOk result (λ disk. IsBlankDisk sectors (state_of disk)) }
{
    match MemDisk::new(alloc, sectors) {
        Ok(disk) => Ok(disk),
        Err(_) => Err(NoMemory { made: () }),
    }
}

/// A desk of this many terminals, with all its seats.
pub(crate) fn new_desk(alloc: Global, terminals: usize) -> Result<DeskParts, NoMemory>
    requires { (1 ≤ terminals) × (terminals ≤ MOST_TERMINALS) }
    ensures count { IfOk result (λ parts. (length parts.desk ≡ terminals)
        × (vec_len parts.seats ≡ terminals)) }
    ensures seats { IfOk result (λ parts. parts.seats.items ≡ seats_from 0 parts.desk) }
    ensures clerk { IfOk result (λ parts. parts.clerk ≡ clerk_of parts.desk) }
    ensures seats_at { IfOk result (λ parts. AreSeatsOf parts.desk parts.seats.items) }
    ensures clerk_at { IfOk result (λ parts. IsClerkOf parts.desk parts.clerk) }
    ensures owes { IfOk result (λ parts. OwesNothing parts.clerk) }
{
    match Desk::open(alloc, terminals) {
        Ok(parts) => Ok(parts),
        Err(_) => Err(NoMemory { made: () }),
    }
}
