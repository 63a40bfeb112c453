//! What the machine of events is while the two parts run.

ghost use Rattle.lift_parts.specs.History.{FlushesStand, TurnsGoOn, SplitsGoOn, JoinedGoOn};
ghost use Rattle.lift_parts.specs.Tie.{SplitsAreNoEvents, RejoiningsAreNoEvents};
ghost use Rattle.lift_parts.specs.Tie.{IdleTurnsAreNoEvents, TerminalsPreserveParts};
ghost use Rattle.lift_parts.specs.Tie.{SendingsAreNoEvents, TellingsAreNoEvents};
ghost use Rattle.lift_parts.specs.Tie.{QueuedHaveRoom, RuleOrdersAhead, ScansAreAllocations};
ghost use Rattle.lift_parts.specs.Tie.{FlushesAreFlushes, FailedFlushesAreFailures};
ghost use Rattle.lift_parts.specs.Tie.{BrokenFlushesAreBroken};
ghost use Rattle.lift_parts.specs.Keeping.{TurnsKeep};
ghost use Rattle.lift_parts.specs.Past.{FlushesLeadOn, SplitsPreservePasts, JoinsPreservePasts};

use lift_clerk::{histories_are_runs, machine_laws, pasts_go_on};
use lift_desk::seats_agree;
use lift_disk::Disk;
use lift_policy::Policy;

/// What a scan's law wants of what the allocator took is what the desk's rule says of a terminal's seat
/// and the one ahead of the clerk, at each moment and whoever holds them.
pub fn rule_orders_ahead()
    ensures { RuleOrdersAhead }
{
    seats_agree();
}

/// The two parts are in some world of the machine between any two turns of each. A split of a clerk
/// that is in one is no event, and nor is a rejoining; nor are a turn that found the line full or
/// empty, the sending of a batch in hand, and a scan that took nothing. What terminals ask and hear
/// leads to a world of the parts too. So does each turn, by possible events alone, where by the
/// desk's rule what was taken was asked, and by the line's what was received was sent: a scan is
/// the machine's, and its batch joins the queue; a flusher's turn makes the first batch of the
/// queue safe and answers its commands, or the device fails it, or it answers Unknown after a
/// fault.
pub fn relays_are_the_machines<D: Disk, P: Policy>()
    ensures split { SplitsAreNoEvents D P }
    ensures rejoined { RejoiningsAreNoEvents D P }
    ensures idle { (policy : P) → IdleTurnsAreNoEvents D P (P.chooses policy) }
    ensures sent { SendingsAreNoEvents D P }
    ensures told { TellingsAreNoEvents D P }
    ensures terminals { TerminalsPreserveParts D P }
    ensures queued { QueuedHaveRoom D P }
    ensures scans { (policy : P) → ScansAreAllocations D P (P.chooses policy) }
    ensures flushes { FlushesAreFlushes D P }
    ensures failures { FailedFlushesAreFailures D P }
    ensures broken { BrokenFlushesAreBroken D P }
{
    machine_laws::<P>();
}

/// A flusher's turns are steps of its group's history, which goes on over a split, over any number
/// of them and over a rejoining, whatever the allocator takes and sends meanwhile. So all that is
/// shown of a history is shown at each moment of each turn. In the machine each is the events of a
/// turn with the batch that it received, where by the desk's rule what its seats took is a prefix
/// of what terminals asked.
pub fn flushes_are_steps<D: Disk>()
    ensures flushes { FlushesStand D D.state }
    ensures turns { TurnsGoOn D D.state }
    ensures pasts { FlushesLeadOn D D.state }
{
    histories_are_runs::<D>();
    pasts_go_on::<D>();
}

/// So it goes on where a clerk is split, and where its parts are joined again. These are no events.
pub fn parts_are_clerks<D: Disk, P: Policy>()
    ensures split { SplitsGoOn D P }
    ensures joined { JoinedGoOn D P }
    ensures split_past { SplitsPreservePasts D P }
    ensures joined_past { JoinsPreservePasts D P }
{
    pasts_go_on::<D>();
}

/// Whatever turns a flusher has made by any moment, each image that a crash at any moment of one of
/// them may leave keeps what was safe and all that was answered before it: what its group had given,
/// and what the turns gave. So does each that a crash may leave now, after the last one. A clerk
/// that begins over it goes on with just that.
pub fn turns_keep_what_was_given<D: Disk>()
    ensures { TurnsKeep D D.state }
{
    histories_are_runs::<D>();
    flushes_are_steps::<D>();
}
