//! A clerk in two parts, and the parts together again. No call in this file waits.
//!
//! A call that waits owes nothing where it never returns. So it has such parts for a key type that it
//! knows nothing of: it can turn them, and reaches neither the seats that answer nor the writer.

ghost use Rattle.std.specs.Prelude.{◌≡◌, ◌≢◌, ◌⊎◌, List, [], length, IfOk, IfErr};
ghost use Rattle.std.specs.Prelude.{OnErr};
ghost use Rattle.lift_base.specs.declared.history.Entry.{Entry};
ghost use Rattle.lift_register.specs.Register.{RegisterState};
ghost use Rattle.lift_world.specs.declared.event.Taken.{Taken};
ghost use Rattle.lift_clerk.specs.History.{History};
ghost use Rattle.lift_parts.specs.Flusher.{IsFlusher};
ghost use Rattle.lift_parts.specs.Queued.{Queued};
ghost use Rattle.lift_parts.specs.Parts.{AreParts, AreOfOne, IsRejoined};
ghost use Rattle.lift_clerk.specs.Steps.{group_of};
ghost use Rattle.lift_parts.specs.History.{group_after};

use crate::allocator::Allocator;
use crate::basis::Basis;
use crate::batch::Batch;
use crate::flusher::Flusher;
use crate::line::new_line;
use crate::witness::{Notifies, Witness};
use arrayvec::ArrayVec;
use lift_clerk::Clerk;
use lift_disk::Disk;
use lift_memory::Memory;
use lift_parts::parts_are_clerks;
use lift_policy::Policy;
use std::alloc::Global;
use std::snapshot::Snapshot;

/// What joins the parts to a clerk. Only `rejoin` makes one: so who turns the parts, and is generic in
/// their key, can reach neither the seats that answer nor the writer but by the turns of the flusher.
#[derive(Drop)]
pub struct Key {
    made: (),
}

/// Who turns such parts by hand notifies whom they like.
impl<V: Witness> Notifies<V> for Key {}

/// A clerk's work in two parts, with a line of four batches between them. A broken clerk may be
/// split; its batch in doubt stays so. Where memory ran out the clerk comes back as it was.
pub fn split<'d, 'b, D: Disk, P: Policy + Drop>(
    alloc: Global,
    clerk: Clerk<'d, 'b, D, P>,
) -> Result<(Allocator<'d, 'b, P>, Flusher<'d, 'b, D>), (Clerk<'d, 'b, D, P>, Memory)>
    ensures parts { IfOk result (λ parts. AreParts clerk.entry parts.0 parts.1) }
    ensures of_one { IfOk result (λ parts. AreOfOne parts.0 parts.1) }
    ensures refused { IfErr result (λ back. back.0 ≡ clerk.entry) }
    ensures flusher { IfOk result (λ parts. IsFlusher parts.1) }
    // The history of the clerk's group goes on as that of the flusher's.
    ensures history { IfOk result (λ parts. (base : RegisterState) (safe : List Entry)
        (given : List Taken) → History base (group_of clerk.entry) safe given
        → History base (group_after parts.1) safe given) }
{
    split_for(alloc, clerk)
}

/// As `split`, for whatever key: who is generic in it can reach neither the seats that answer nor the
/// writer but by the turns of the flusher.
#[inline(never)]
pub fn split_for<'d, 'b, D: Disk, P: Policy + Drop, K>(
    alloc: Global,
    clerk: Clerk<'d, 'b, D, P>,
) -> Result<(Allocator<'d, 'b, P>, Flusher<'d, 'b, D, K>), (Clerk<'d, 'b, D, P>, Memory)>
    ensures parts { IfOk result (λ parts. AreParts clerk.entry parts.0 parts.1) }
    ensures of_one { IfOk result (λ parts. AreOfOne parts.0 parts.1) }
    ensures refused { IfErr result (λ back. back.0 ≡ clerk.entry) }
    ensures flusher { IfOk result (λ parts. IsFlusher parts.1) }
    // The history of the clerk's group goes on as that of the flusher's.
    ensures history { IfOk result (λ parts. (base : RegisterState) (safe : List Entry)
        (given : List Taken) → History base (group_of clerk.entry) safe given
        → History base (group_after parts.1) safe given) }
{
    parts_are_clerks::<D, P>();
    let desk = clerk.desk();
    let (seat, keeper, policy) = clerk.into_parts();
    let (ahead, seat) = desk.split(seat);
    let first = Batch::new(
        ArrayVec::new(),
        ArrayVec::new(),
        keeper.building(),
        Basis::of(keeper.register(), keeper.positions()),
        Basis::of(keeper.register(), keeper.positions()),
        desk,
        Snapshot::of(&ahead),
    );
    let (send, receive) = match new_line(alloc, first) {
        Ok(ends) => ends,
        Err(memory) => {
            let seat = desk.join(ahead, seat);
            return Err((Clerk::new(desk, seat, keeper, policy), memory));
        }
    };
    let (decider, writer) = keeper.part();
    let allocator = Allocator::new(desk, ahead, decider, policy, send);
    let flusher = Flusher::new(desk, seat, writer, receive);
    Ok((allocator, flusher))
}

/// Tells each of two parts that come of one `split` how much was sent and how much was received.
/// After it the allocator's next turn sends where fewer than four batches wait, and the flusher's
/// receives where one does. It changes nothing else.
pub fn tell<'d, 'b, D: Disk, P: Policy + Drop, K>(
    allocator: &mut Allocator<'d, 'b, P>,
    flusher: &mut Flusher<'d, 'b, D, K>,
)
    requires of_one { AreOfOne allocator.old flusher.old }
    ensures allocator { allocator.new ≡ record allocator.old { end = record allocator.old.end { gone = flusher.old.end.received } } }
    ensures flusher { flusher.new
        ≡ record flusher.old { end = record flusher.old.end { known = allocator.old.end.sent } } }
    // What was received, and then what the line holds, is what was sent.
    ensures queued { Queued allocator.new.end flusher.new.end }
    ensures of_one { AreOfOne allocator.new flusher.new }
    // Nothing happens by it.
    ensures history { group_after flusher.new ≡ group_after flusher.old }
{
    flusher.tell(allocator)
}

/// The clerk of two parts that come of one `split`. They come back as they were where as many
/// batches weren't received as were sent, where one is in hand, where an ask that the flusher's
/// look gave is unanswered, and where their registers differ though nothing has failed; the last
/// two never happen between turns. Over a writer that a fault has broken the clerk is broken.
pub fn rejoin<'d, 'b, D: Disk, P: Policy + Drop>(
    mut allocator: Allocator<'d, 'b, P>,
    mut flusher: Flusher<'d, 'b, D>,
) -> Result<Clerk<'d, 'b, D, P>, (Allocator<'d, 'b, P>, Flusher<'d, 'b, D>)>
    requires of_one { AreOfOne allocator flusher }
    ensures joined { IfOk result (λ clerk. IsRejoined allocator.entry flusher.entry clerk) }
    ensures refused { IfErr result (λ parts. (parts.0 ≡ allocator.entry) × (parts.1 ≡ flusher.entry)) }
    // Nothing is owed between the flusher's turns, and where all was received the registers don't
    // differ.
    ensures waits { OnErr result
        ((length allocator.entry.end.sent ≢ length flusher.entry.end.received)
        ⊎ (allocator.entry.hand ≢ [])) }
    // What was received, and then what the line holds, is what was sent.
    ensures queued { Queued allocator.entry.end flusher.entry.end }
    // The history of the flusher's group is that of the clerk's.
    ensures history { IfOk result (λ clerk. (base : RegisterState) (safe : List Entry)
        (given : List Taken) → History base (group_after flusher.entry) safe given
        → History base (group_of clerk) safe given) }
{
    parts_are_clerks::<D, P>();
    flusher.compare(&mut allocator);
    if allocator.sent() != flusher.received()
        || allocator.has_batch_in_hand()
        || flusher.owes()
        || !flusher.may_join(allocator.register())
    {
        return Err((allocator, flusher));
    }
    Ok(flusher.join(allocator, Key { made: () }))
}
