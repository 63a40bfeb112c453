//! What the machine of events is while a group and its terminals run.

ghost use Rattle.std.specs.Prelude.{ℕ, ◌≡◌, ◌↔◌, length, None, Err, IfOk, OnOk, OnErr, IfSome};
ghost use mathlib.Core.List.{IsPrefix};
ghost use Rattle.lift_desk.specs.Seats.{IsSeatOf, IsToldAnswer, Waits};
ghost use Rattle.lift_world.specs.declared.event.Event.TheVariants.{Ask as Asking, Hear};
ghost use Rattle.lift_clerk.specs.Steps.{GroupState};
ghost use Rattle.lift_clerk.specs.Group.{AtSeat, TerminalAsks, TerminalHears, HearsAnswers};
ghost use Rattle.lift_clerk.specs.Group.{RuleOrders};
ghost use Rattle.lift_clerk.specs.Past.{IsEvent, IsNoEvent, PastsGoOn, CallsAreSteps};
ghost use Rattle.lift_clerk.specs.Past.{TurnGoesOn, FailureGoesOn, BrokenTurnGoesOn};
ghost use Rattle.lift_clerk.specs.Once.{TurnsOnce};

use crate::clerk::Clerk;
use crate::counts::Counts;
use crate::machine::{laws, turn_once};
use lift_base::{Body, Number, Reply};
use lift_desk::{AskRefusal, Desk, Seat, seats_agree};
use lift_disk::Disk;
use lift_journal::JournalFault;
use lift_keeper::KeeperFault;
use lift_policy::Policy;
use lift_world::policies_are_covered;

/// Whatever has happened to a group and its terminals, in any order, the machine has a world of it,
/// with just what each terminal asked and heard, just what is safe and just what was answered; and
/// it is a history of the group. The group is a clerk, or the flusher of its two parts. An ask that
/// is stored is one event, and so is an answer that is heard; all else that a terminal reads is
/// none. A step of the group is possible events from there to its next such world, of no terminal;
/// a reopening and a power cut at any moment too.
pub fn pasts_go_on<D: Disk>()
    ensures { PastsGoOn D }
{
    laws();
}

/// To tell a clerk of asks, and a reopening that is refused, are rests of its group; one that opens is
/// its reopening.
pub fn calls_are_steps<D: Disk, P: Policy>()
    ensures { CallsAreSteps D P }
{}

/// One turn, in the machine's world and the clerk's past at once. Where each ask that it took was
/// asked, as the desk's rule has it, the turn's own events lead there from each world that has its
/// past, with terminals as they are: on Ok the turn's batch is safe after the rest, else nothing
/// more is, and just its commands were answered.
pub fn turn_goes_on<D: Disk, P: Policy + Drop>(
    clerk: &mut Clerk<'_, '_, D, P>,
) -> Result<Counts, KeeperFault>
    ensures turn { TurnsOnce
        D.state (P.chooses clerk.old.policy) clerk.old clerk.new result }
    ensures goes_on { IfOk result (λ counts.
        TurnGoesOn (P.chooses clerk.old.policy) clerk.old clerk.new counts) }
    ensures fails_on { result ≡ Err (KeeperFault.Journal JournalFault.Disk)
        → FailureGoesOn (P.chooses clerk.old.policy) clerk.old clerk.new }
    ensures rests_on { result ≡ Err (KeeperFault.Journal JournalFault.Broken)
        → BrokenTurnGoesOn clerk.old clerk.new }
{
    pasts_go_on::<D>();
    policies_are_covered::<P>();
    turn_once(clerk)
}

/// What these laws want of a hear and of a turn is what the desk's rule says of both seats of each
/// terminal, at each moment and whoever holds them.
pub fn rule_orders<D: Disk>()
    ensures { RuleOrders D }
{
    seats_agree();
}

/// One ask. It is stored where the terminal has heard the answers to all earlier ones, and a turn is
/// left for it; and then it is one ask of the machine, whether the clerk is whole or split.
pub fn ask_once<D: Disk>(
    desk: &Desk,
    seat: &mut Seat,
    number: Number,
    body: Body,
) -> Result<(), AskRefusal>
    requires { IsSeatOf desk.now seat.old }
    ensures asks { OnOk result (AtSeat seat.old seat.new (λ before after terminal.
        TerminalAsks before after terminal (record { number = number; body = body }))) }
    ensures event { OnOk result (AtSeat seat.old seat.new (λ before after terminal.
        (group : GroupState D) → IsEvent group before after (Asking terminal number body))) }
    ensures waiting { (result ≡ Err AskRefusal.Waiting) ↔ Waits seat.old.view }
    ensures spent { (result ≡ Err AskRefusal.Spent)
        ↔ (¬ (Waits seat.old.view) × (length seat.old.view.asked ≡ 1048575)) }
    ensures refused { OnErr result (seat.new ≡ seat.old) }
    ensures stays { IsSeatOf desk.now seat.new }
{
    pasts_go_on::<D>();
    desk.ask(seat, number, body)
}

/// One look for an answer. What it gives the machine's terminal hears, whether the clerk is whole or
/// split; where it gives nothing it is no event. What the terminal was told of is heard then.
pub fn hear_once<D: Disk>(desk: &Desk, seat: &mut Seat) -> Option<Reply>
    requires { IsSeatOf desk.now seat.old }
    ensures hears { (word : ℕ) × AtSeat seat.old seat.new (λ before after terminal.
        TerminalHears before after terminal word result) }
    ensures event { IfSome result (λ reply. AtSeat seat.old seat.new (λ before after terminal.
        (group : GroupState D) → HearsAnswers group after terminal
        → IsEvent group before after (Hear terminal))) }
    ensures nothing { result ≡ None → AtSeat seat.old seat.new (λ before after terminal.
        (group : GroupState D) → IsNoEvent group before after) }
    ensures known { IsPrefix seat.old.view.told seat.new.view.heard }
    ensures finds { (reply : _) → IsToldAnswer seat.old.view reply → result ≡ Some reply }
    ensures stays { IsSeatOf desk.now seat.new }
{
    pasts_go_on::<D>();
    desk.hear(seat)
}
