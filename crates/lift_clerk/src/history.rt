//! What every history of a group leads to, and what every crash then shows.

ghost use Rattle.std.specs.Prelude.{◌≡◌, false, List, []};
ghost use Rattle.lift_base.specs.declared.history.Entry.{Entry};
ghost use Rattle.lift_disk.specs.Disk.{Image, LeavesNow};
ghost use Rattle.lift_register.specs.Register.{RegisterState};
ghost use Rattle.lift_desk.specs.Seats.{IsClerkOf, OwesNothing, clerk_of};
ghost use Rattle.lift_decider.specs.Decider.{starting};
ghost use Rattle.lift_keeper.specs.Images.{IsImageOf};
ghost use Rattle.lift_keeper.specs.Prelude.{ReopeningCalls};
ghost use Rattle.lift_world.specs.declared.event.Taken.{Taken};
ghost use Rattle.lift_clerk.specs.Steps.{group_of};
ghost use Rattle.lift_clerk.specs.Once.{TurnsOnce, TurnAdvances, ReopensOnce};
ghost use Rattle.lift_clerk.specs.History.{History, HistoriesAreRuns, BeginsOver};
ghost use Rattle.lift_clerk.specs.Keeping.{ImageKeeps, KeepsEither, CrashesKeep, MomentsStand};
ghost use Rattle.lift_clerk.specs.Keeping.{MomentsKeep};

use crate::clerk::Clerk;
use crate::counts::Counts;
use crate::machine::{laws, reopen_once, turn_once};
use lift_desk::{ClerkSeat, Desk};
use lift_disk::Disk;
use lift_keeper::{Keeper, KeeperFault};
use lift_policy::Policy;
use lift_world::policies_are_covered;

/// Whatever has happened to a group, over all its clerks and their parts, turns, tells, faults,
/// reopenings and power cuts, some run of the machine leads there, in which just the same commands
/// were answered. So a crash at any moment leaves an image that reads as the register of what is
/// safe, or of that with the batch on its way. These entries hold each that was ever acknowledged,
/// and each letter that was ever given still names its car; and whoever begins over it goes on with
/// just this.
pub fn histories_are_runs<D: Disk>()
    ensures runs { HistoriesAreRuns D }
    ensures kept { CrashesKeep D }
    ensures moments { MomentsKeep D D.state }
{
    laws();
}

/// A clerk at a new desk, over a keeper that has just opened (`Keeper::open`, the recovery, which says
/// of a refusal too what it was and which calls were made). It calls the device no more. Over
/// whatever register the journal holds a history begins; where its image is one that a crash of an
/// earlier clerk left, that clerk's goes on.
pub fn begin_over<'d, 'b, D: Disk, P: Policy + Drop>(
    desk: &'d Desk,
    seat: ClerkSeat,
    keeper: Keeper<'b, D>,
    policy: P,
) -> Clerk<'d, 'b, D, P>
    requires seated { IsClerkOf desk.now seat }
    requires answered { OwesNothing seat }
    requires unused { seat ≡ clerk_of desk.now }
    // As `Keeper::open` hands it up, and `Keeper::reopen`.
    requires opened { keeper.state ≡ starting keeper.writer.register }
    requires whole { (keeper.writer.is_broken ≡ false) × (keeper.writer.doubt ≡ []) }
    ensures parts { result ≡ record {
      desk = desk.now;
      seat = seat;
      keeper = keeper.entry;
      policy = policy;
    } }
    ensures first { History result.keeper.writer.register (group_of result) [] [] }
    // An image that reads as the keeper's register and as no other, as that of the device does.
    ensures again { (left : Image)
        → IsImageOf keeper.entry.writer.plan keeper.entry.writer.register left
        → ((other : RegisterState) → IsImageOf keeper.entry.writer.plan other left
        → other ≡ keeper.entry.writer.register)
        → BeginsOver keeper.entry.writer.plan left (group_of result) }
{
    let _shown = keeper.register();
    Clerk::new(desk, seat, keeper, policy)
}

/// Whatever has happened by now, each image that a crash now may leave keeps it: it shows each letter
/// that was ever given, and a clerk that begins over it goes on with just these answers.
pub fn crash_shows_letters<D: Disk, P: Policy + Drop>(clerk: &Clerk<'_, '_, D, P>)
    ensures now { (base : RegisterState) (safe : List Entry) (given : List Taken)
        → History base (group_of clerk.now) safe given
        → LeavesNow (D.state clerk.now.keeper.writer.device)
        (KeepsEither D clerk.now.keeper.writer.plan base safe clerk.now.keeper.writer.doubt given) }
    // While nothing has failed, it keeps just what is safe.
    ensures whole { clerk.now.keeper.writer.is_broken ≡ false
        → (base : RegisterState) (safe : List Entry) (given : List Taken)
        → History base (group_of clerk.now) safe given
        → LeavesNow (D.state clerk.now.keeper.writer.device)
        (ImageKeeps D clerk.now.keeper.writer.plan base safe given) }
{
    histories_are_runs::<D>();
    let _safe = clerk.keeper().safe_register();
}

/// One turn. Whatever has happened before it, its batch is safe after the rest where it answers
/// Ok, and just its commands were answered. Each image that a crash at any moment of the call may
/// leave keeps what was given until then: it is of what was safe, or of that with the turn's batch.
/// From its end on each keeps what the turn answers too.
pub fn turn_shows_letters<D: Disk, P: Policy + Drop>(
    clerk: &mut Clerk<'_, '_, D, P>,
) -> Result<Counts, KeeperFault>
    ensures advances { TurnAdvances D.state clerk.old clerk.new result }
{
    turn_is_of_the_history(clerk)
}

/// The same turn, for whoever tests it: also which looks it made, by which calls of the device it
/// made its batch safe, and which fault it answers.
pub fn turn_is_of_the_history<D: Disk, P: Policy + Drop>(
    clerk: &mut Clerk<'_, '_, D, P>,
) -> Result<Counts, KeeperFault>
    ensures turn { TurnsOnce
        D.state (P.chooses clerk.old.policy) clerk.old clerk.new result }
    ensures advances { TurnAdvances D.state clerk.old clerk.new result }
{
    histories_are_runs::<D>();
    policies_are_covered::<P>();
    let turned = turn_once(clerk);
    let _safe = clerk.keeper().safe_register();
    turned
}

/// One reopening likewise.
pub fn reopening_shows_letters<D: Disk, P: Policy + Drop>(
    clerk: &mut Clerk<'_, '_, D, P>,
) -> Result<(), KeeperFault>
    ensures reopening { ReopensOnce D.state clerk.old clerk.new result }
    ensures calls { ReopeningCalls D.state clerk.old.keeper.writer clerk.new.keeper.writer result }
    ensures moments { MomentsStand (group_of clerk.old) clerk.old.keeper.writer.doubt
        (D.state clerk.old.keeper.writer.device) (D.state clerk.new.keeper.writer.device) }
{
    histories_are_runs::<D>();
    reopen_once(clerk)
}
