//! The group that a script runs between two power cuts: its terminals, and its clerk over a device
//! in memory.

ghost use Rattle.std.specs.Prelude.{◌≡◌, ◌+◌, ◌*◌, length, false, [], IfOk};
ghost use Rattle.lift_base.specs.declared.limits.TheConstants.{MOST_CARS};
ghost use Rattle.lift_disk.specs.Disk.{IsUnarmed};
ghost use Rattle.lift_disk.specs.Faults.{fuse_state_of};
ghost use Rattle.lift_disk.specs.Outcomes.{IsLeftBy, state_of};
ghost use Rattle.lift_register.specs.Register.{RegisterState};
ghost use Rattle.lift_desk.specs.Seats.{AreSeatsOf, IsClerkOf, OwesNothing, seats_from};
ghost use Rattle.lift_decider.specs.Decider.{starting};
ghost use Rattle.lift_keeper.specs.Prelude.{IsImageOf, Reopens, OpensByCalls};
ghost use Rattle.lift_replay.specs.Group.{ScriptGroup, left_by, nothing_found};
ghost use Rattle.lift_replay.specs.Recovering.{ReadsOnlyAs};
ghost use Rattle.lift_replay.specs.Shows.{Shows, IsFound};

use crate::refused::{NoMemory, empty_disk};
use crate::terminals::Terminals;
use lift_base::{LEAST_HALF, MOST_CARS};
use lift_building::Building;
use lift_clerk::Clerk;
use lift_desk::{ClerkSeat, Desk, Seat};
use lift_disk::{FuseDisk, MemDisk, Outcome};
use lift_journal::format;
use lift_keeper::Keeper;
use lift_policy::Etd;
use std::alloc::Global;

/// What a script plays on: a building with its terminals and the clerk, over a disk in memory.
#[derive(Drop)]
pub struct Station<'d, 'b> {
    pub building: &'b Building,
    pub terminals: Terminals<'d>,
    pub clerk: Clerk<'d, 'b, FuseDisk, Etd>,
    ghost plan: { clerk.keeper.writer.plan ≡ building.now },
    ghost same_desk: { clerk.desk ≡ terminals.desk.now },
    ghost count: { length terminals.seats.items ≡ MOST_CARS + length building.now.kiosks },
}

/// The keeper over a device in memory that fails no call by itself, and reads as a register of the
/// building: there an opening isn't refused.
// (not inlined: its frame is free again for the lines)
#[inline(never)]
pub fn keeper_over(disk: FuseDisk, building: &Building) -> Keeper<'_, FuseDisk>
    requires unarmed { IsUnarmed (fuse_state_of disk) }
    requires readable { (register : RegisterState)
        × IsImageOf building.now register (fuse_state_of disk).image }
    ensures opens { Reopens building.now (fuse_state_of disk) (fuse_state_of result.writer.device)
        result.writer.register result.writer.half result.writer.is_in_second_half result.writer.used }
    ensures calls { OpensByCalls fuse_state_of (fuse_state_of disk) result.writer }
    ensures image { (fuse_state_of result.writer.device).image ≡ (fuse_state_of disk).image }
    ensures recovers { ReadsOnlyAs building.now
        (fuse_state_of result.writer.device).image result.writer.register }
    ensures unarmed { IsUnarmed (fuse_state_of result.writer.device) }
    ensures state { result.state ≡ starting result.writer.register }
    ensures plan { result.writer.plan ≡ building.now }
    ensures whole { (result.writer.is_broken ≡ false) × (result.writer.doubt ≡ []) }
{
    match Keeper::open(disk, building) {
        Ok(keeper) => keeper,
        Err(_) => unreachable!(),
    }
}

/// A formatted device in memory, of two halves and the two sectors before them. It is refused only
/// where the device takes its memory.
pub fn first_disk(alloc: Global, building: &Building) -> Result<MemDisk, NoMemory>
    ensures sectors { IfOk result (λ disk. length (state_of disk).image ≡ 2 * LEAST_HALF + 2) }
    ensures found { IfOk result (λ disk.
        IsFound building.now nothing_found (state_of disk).image) }
{
    let mut disk = empty_disk(alloc, 2 * LEAST_HALF + 2)?;
    match format(&mut disk, building.shape(LEAST_HALF)) {
        Ok(()) => Ok(disk),
        Err(_) => unreachable!(),
    }
}

impl<'d, 'b> Station<'d, 'b> {
    /// At a new desk nobody has asked, and after an opening no car has reported where it is.
    // (not inlined: its frame is free again for the lines)
    #[inline(never)]
    pub fn new(
        building: &'b Building,
        keeper: Keeper<'b, FuseDisk>,
        desk: &'d Desk,
        seats: Vec<Seat>,
        seat: ClerkSeat,
    ) -> Self
        requires seated { AreSeatsOf desk.now seats.items }
        requires new { seats.items ≡ seats_from 0 desk.now }
        requires clerk_seated { IsClerkOf desk.now seat }
        requires answered { OwesNothing seat }
        requires count { length desk.now ≡ MOST_CARS + length building.now.kiosks }
        requires plan { keeper.writer.plan ≡ building.now }
        requires empty_batch { keeper.state.batch ≡ [] }
        ensures building { result.building.now ≡ building.now }
        ensures seats { result.terminals.seats.items ≡ seats_from 0 desk.now }
        ensures keeper { result.clerk.keeper ≡ keeper.entry }
        ensures clerk { result.clerk.seat ≡ seat }
    {
        Station {
            building,
            terminals: Terminals::new(desk, seats),
            clerk: Clerk::new(desk, seat, keeper, Etd),
        }
    }

    /// The power is cut: what is left of the device.
    // (not inlined: few lines cut the power, and the others have no frame of its locals)
    #[inline(never)]
    pub fn cut(self, outcome: Outcome) -> MemDisk
        ensures left { IsLeftBy outcome (fuse_state_of self.entry.clerk.keeper.writer.device)
            (state_of result).image }
        // It is what the cut leaves of the group, of whichever group the station shows.
        ensures found { (g : ScriptGroup)
            → Shows self.entry.building.now g self.entry.clerk self.entry.terminals.seats.items
            → IsFound self.entry.building.now (left_by outcome g) (state_of result).image }
    {
        let _placed = self.clerk.keeper().safe_register();
        let (_seat, keeper, _policy) = self.clerk.into_parts();
        keeper.into_disk().into_inner().cut(outcome)
    }
}
