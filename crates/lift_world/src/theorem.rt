//! What holds of the machine.
ghost use Rattle.std.specs.Prelude.{ℕ, ◌≡◌, ◌≢◌, ◌<◌, ◌≤◌, ◌⊎◌, ◌↔◌, false, List, filter, Contains};
ghost use Rattle.std.specs.Prelude.{IsTrue, ◌||◌, [], ◌∷◌, length, map, Some};
ghost use Rattle.std.specs.List.{AllByRecursion};
ghost use Rattle.lift_base.specs.History.{terminal_of};
ghost use Rattle.lift_base.specs.declared.travel.Dir.{Dir};
ghost use Rattle.lift_base.specs.declared.travel.Position.{Position};
ghost use Rattle.lift_base.specs.declared.history.Entry.{Entry};
ghost use Rattle.lift_base.specs.declared.history.Entry.TheVariants.{Allot};
ghost use Rattle.lift_base.specs.declared.history.Last.{Last};
ghost use Rattle.lift_base.specs.declared.history.Row.{Row};
ghost use Rattle.lift_base.specs.declared.command.Body.TheVariants.{Call as Calling};
ghost use Rattle.lift_base.specs.declared.command.Body.TheVariants.{Stop as Stopping, Place};
ghost use Rattle.lift_building.specs.Plan.{Plan, IsBuilding};
ghost use Rattle.lift_register.specs.Register.{RegisterState, Call, rows_of, last_of, calls_of};
ghost use Rattle.lift_register.specs.Register.{register_of, kept_of, waiting_row, status};
ghost use Rattle.lift_register.specs.Fits.{IsPossibleLast};
ghost use Rattle.lift_register.specs.Status.{Done};
ghost use Rattle.lift_stops.specs.StopList.{stop_list, is_halt_of, halts_of};
ghost use Rattle.lift_policy.specs.Step.{State};
ghost use Rattle.lift_policy.specs.declared.command.Command.{Command};
ghost use Rattle.lift_world.specs.declared.event.Kept.{Kept};
ghost use Rattle.lift_world.specs.declared.event.Event.TheVariants.{Ask, Cut, Reopen, Pull, Fold};
ghost use Rattle.lift_world.specs.declared.event.Event.TheVariants.{Body as BodyWrite, FirstSync};
ghost use Rattle.lift_world.specs.declared.event.Event.TheVariants.{Gate, SecondSync, Answer, Fault};
ghost use Rattle.lift_world.specs.declared.event.Phase.TheVariants.{Writing, GateWritten};
ghost use Rattle.lift_world.specs.World.{World, start};
ghost use Rattle.lift_world.specs.Next.{run, next, goes};
ghost use Rattle.lift_world.specs.Headline.{IsOfBuilding, AcceptsInOrder, RecoversAcknowledged};
ghost use Rattle.lift_world.specs.Headline.{RecoversLetters, IsOfTerminal, HoldsFew, IsHeld};
ghost use Rattle.lift_world.specs.Headline.{IsOpenWith, IsDone, WasDone, StillNames};
ghost use Rattle.lift_world.specs.Short.{HoldsFewEntries};
ghost use Rattle.lift_world.specs.Lawful.{IsTypedEvent, AcceptsFitting, AcceptsRecords};
ghost use Rattle.lift_world.specs.Laws.{IsOrderly, EventsArePossible, TurnsAreEvents, AllEndAtRest};
ghost use Rattle.lift_world.specs.Laws.{RepliesAreSafe, OutcomesMove, RelaysAreEvents};
ghost use Rattle.lift_world.specs.Laws.{PartsInterleave, PartsStay, TerminalsPassThrough};
ghost use Rattle.lift_world.specs.Turns.{HasRun, IsFresh, MayFailIn, IsAtRest};
ghost use Rattle.lift_world.specs.Tie.{TakeFinds};
ghost use Rattle.lift_world.specs.Policies.{StepsAreAny, RunsAreAny};
ghost use Rattle.lift_world.specs.Possible.{FillsSectors, is_device_call};
ghost use Rattle.lift_world.specs.Among.{LooksFindAsks, Look, LooksStand};
ghost use Rattle.lift_world.specs.Beside.{is_of_terminals};
ghost use Rattle.lift_world.specs.Relay.{is_flushers};
ghost use Rattle.lift_world.specs.Faults.{goes_on};
ghost use Rattle.lift_world.specs.Outcomes.{moves_outcomes};

use crate::event::Event;
use lift_base::{
    Body, LAST_TERMINAL, MOST_CARS, MOST_ENTRIES, MOST_TERMINALS, Number, TOP_FLOOR, Terminal,
};
use lift_policy::Policy;

/// What holds at each point of every run, whatever comes, over whatever register of the building the
/// journal began with: each recovery that a power cut or a fault may lead to gives a prefix of what
/// was accepted, holds every acknowledged entry, and still names the car of each letter that was
/// shown. The call of such a letter is open, and its remaining stops stand in order in its car's
/// list wherever the car is, or it is done. What was accepted stays in its order: takes alone add to
/// it, and a reopening alone replaces it, by the prefix that it recovers. All that was accepted fits,
/// one entry after another, and is a record of the journal where asks are as their types hold them:
/// so no recovery is refused for an entry. What is acknowledged or shown is read from what was given,
/// and each stored answer is that of a command given. Each terminal asks one by one, and hears what
/// it was answered, in order and each once. At most five batches are queued, and where asks are of
/// the 63 terminals none of more than 63 commands, nor, while running, of more entries; between
/// batches none is in flight, and a reopening while nothing failed unplaces the cars alone; a cut
/// leaves no command on its way; and what is sealed is a prefix of what is accepted, which a scan's
/// law asks for.
pub fn every_run()
    ensures prefix { (building : Plan) (base : RegisterState) (events : List Event)
        → AcceptsInOrder (run events (start building base)) }
    ensures acknowledged { (building : Plan) (base : RegisterState) (events : List Event)
        → IsBuilding building → IsOfBuilding building base
        → RecoversAcknowledged (run events (start building base)) }
    ensures letters { (building : Plan) (base : RegisterState) (events : List Event)
        → IsBuilding building → IsOfBuilding building base
        → RecoversLetters (run events (start building base)) }
    ensures accepted { (building : Plan) (base : RegisterState) (events : List Event)
        → IsBuilding building → IsOfBuilding building base
        → AcceptsFitting (run events (start building base)) }
    ensures written { (building : Plan) (base : RegisterState) (events : List Event)
        → IsBuilding building → AllByRecursion IsTypedEvent events
        → AcceptsRecords (run events (start building base)) }
    ensures orderly { (building : Plan) (base : RegisterState) (events : List Event)
        → IsOrderly (run events (start building base)) }
    ensures few { (building : Plan) (base : RegisterState) (events : List Event)
        → AllByRecursion IsOfTerminal events → HoldsFew (run events (start building base)) }
    ensures few_entries { (building : Plan) (base : RegisterState) (events : List Event)
        → AllByRecursion IsOfTerminal events → HoldsFewEntries (run events (start building base)) }
{}

/// Which events are possible, in whatever world, and what they leave: so the theorem speaks of
/// cuts, faults and recoveries that happen, of asks that are decided, of batches that are sealed
/// and written, and of answers that are heard. What was given stays given over all of them.
pub fn events_are_possible()
    ensures events { (w : World) → EventsArePossible w }
    ensures sectors { (count : ℕ) → 1 ≤ count → count ≤ MOST_ENTRIES → FillsSectors count }
{}

/// Each take is one decision of the rules, and whatever the rules allow, under any policy, is a
/// take; they decide on every command, and whatever terminals may ask comes to stand. A scan is a
/// list of takes. A turn that answers Ok, one in which any of its device calls fails, and one while
/// broken are lists of events; the last changes the answers alone.
pub fn turns_are_events()
    ensures turns { (w : World) → TurnsAreEvents w }
    ensures decided { (building : Plan) (state : State) (commands : List Command)
        → HasRun building state commands }
{}

/// Where turns begin: at rest, as the machine starts. A turn that answers Ok ends there, and so
/// does a reopening after a turn that failed, whatever turns came between, and the recovery after
/// any cut. A reopening while nothing failed begins and ends there too; one whose device call fails
/// is broken at rest, and the next one leaves what it would have left.
pub fn turns_end_at_rest()
    ensures start { (building : Plan) (base : RegisterState) → IsAtRest (start building base) }
    ensures fresh { (building : Plan) (base : RegisterState)
        → IsFresh building base (start building base) }
    ensures ends { (w : World) → AllEndAtRest w }
{}

/// When replies are given. A command is due once its batch is safe, or else with Unknown, where a
/// device call failed: then Unknown alone is given to each command that wasn't due, in flight,
/// queued, in hand or taken later, also by the reopening that ends it.
pub fn replies_are_safe()
    ensures { (w : World) → RepliesAreSafe w }
{}

/// What a power cut or a reopening could recover moves with three events alone. The write of a gate
/// offers the batch; the second sync makes the list with the batch the safe one; a reopening makes
/// the list that it kept the safe one. No look, seal, pull, answer, fault or cut changes what may
/// be kept, or any list of it; nor, but for a pull, the batch in flight.
pub fn outcomes_move()
    ensures { (w : World) → OutcomesMove w }
{}

/// The turns of an allocator and of a flusher, with batches queued between them. An allocator's
/// turn, wherever the flusher is, and each turn of the flusher, one that answers Ok, one in which
/// any device call fails and one after that, are lists of events, whichever asks the flusher's own
/// look gives: what it doesn't give stays due. With the queue full nothing is taken. Each ends
/// where the next one begins; a split of a clerk at rest and a rejoining with nothing queued keep
/// the world. What the flusher does after a take it might have done before it, and after a seal
/// it leaves what it leaves before it, but for what was sealed.
pub fn relays_are_events()
    ensures { (w : World) → RelaysAreEvents w }
{}

/// The parts among one another. Whatever the flusher does among others' events it might have done
/// first, and whatever it can do alone it can do among them, wherever they come: so each turn of it
/// above is possible in every interleaving. An ask stands as soon as it is made and until it is
/// taken, or a power cut empties the words; a look finds it exactly where at most four batches are
/// queued, and the queue grows by seals alone. An allocator's scan and its seal go on among the
/// events of terminals and of the flusher, and leave what these leave alone, with what was decided.
pub fn parts_interleave()
    ensures parts { (w : World) → PartsInterleave w }
    ensures looks { (w : World) (terminal : ℕ) (command : Command)
        → LooksFindAsks w terminal command }
{}

/// Where a part is, the others leave it: the allocator between two scans until something is taken,
/// and the flusher between two turns, whole or broken, until a cut or a reopening. A queue in order
/// stays so, and terminals go on to hear in order and to ask one by one, over every event and in
/// whatever world that was so, also one that no run of events from an empty journal leads to; and
/// at rest the queue is in order.
pub fn parts_stay()
    ensures { (w : World) → PartsStay w }
{}

/// What terminals do at other moments passes through. Wherever asks and hears come among the events
/// of a turn or of a reopening, before, between and after them, all of it is possible, and it
/// leaves what the controller's events leave and then the terminals'. A list of possible events is
/// a run, of which all of the above holds.
pub fn terminals_pass()
    ensures { (w : World) → TerminalsPassThrough w }
{}

/// Every policy is covered: what it may decide, on one command or on many, is a decision under the
/// policy that may name any eligible car, and so a take, a scan or a turn of the machine.
pub fn policies_are_covered<P: Policy>()
    ensures steps { (policy : P) → StepsAreAny (P.chooses policy) }
    ensures runs { (policy : P) → RunsAreAny (P.chooses policy) }
{}

/// What definitions of these laws say, spelled out. An entry is held where it is among the
/// recovered ones, or the journal began with it as its terminal's last command. A letter still names
/// its car where the call is open there, with its remaining stops in order in the car's list
/// wherever the car is, or is done, or was done before. Asks alone are bound to ranges: those of
/// their types, and the 63 terminals. All events go on but a cut and a reopening.
pub fn definitions_are_exact()
    ensures held { (base : RegisterState) (entries : List Entry) (entry : Entry)
        → IsHeld base entries entry ↔ (Contains entries entry
        ⊎ (last_of base (terminal_of entry) ≡ Some (kept_of entry))) }
    ensures open_call { (base : RegisterState) (entries : List Entry)
        (kiosk number from to car party : ℕ)
        → let rows = rows_of (register_of base entries) car in let waiting =
        waiting_row kiosk number from to car party in
        IsOpenWith base entries kiosk number from to car party
        ↔ ((row : Row) × (record row { aboard = false } ≡ waiting) × Contains rows row
        × ((position : Position)
        → filter (is_halt_of position row) (stop_list rows position) ≡ halts_of position row)) }
    ensures done_call { (base : RegisterState) (entries : List Entry)
        (kiosk number from to car party : ℕ)
        → let waiting = waiting_row kiosk number from to car party in
        IsDone base entries kiosk number from to car party
        ↔ ((call : Call) × (record call.row { aboard = false } ≡ waiting)
        × Contains (calls_of base entries car) call
        × (status call ≡ Done)) }
    ensures done_before { (base : RegisterState) (kiosk number from to car party : ℕ)
        → let waiting = waiting_row kiosk number from to car party in
        WasDone base kiosk number from to car party
        ↔ ((last_of base kiosk ≡ Some (kept_of (Allot kiosk number from to car party)))
        × ((row : Row) → Contains (rows_of base car) row
        → ¬ (record row { aboard = false } ≡ waiting))) }
    ensures letter { (base : RegisterState) (entries : List Entry)
        (kiosk number from to car party : ℕ)
        → StillNames base entries (Allot kiosk number from to car party)
        ↔ (IsOpenWith base entries kiosk number from to car party
        ⊎ IsDone base entries kiosk number from to car party
        ⊎ WasDone base kiosk number from to car party) }
    ensures typed_call { (terminal number floor party : ℕ)
        → IsTypedEvent (Ask terminal number (Calling floor party))
        ↔ ((terminal ≤ LAST_TERMINAL) × (number ≤ 16777215) × (floor ≤ TOP_FLOOR) × (1 ≤ party) × (party ≤ 15)) }
    ensures typed_stop { (terminal number floor : ℕ) (dir : Dir)
        → IsTypedEvent (Ask terminal number (Stopping floor dir))
        ↔ ((terminal ≤ LAST_TERMINAL) × (number ≤ 16777215) × (floor ≤ TOP_FLOOR)) }
    ensures typed_place { (terminal number floor : ℕ) (dir : Dir)
        → IsTypedEvent (Ask terminal number (Place floor dir))
        ↔ ((terminal ≤ LAST_TERMINAL) × (number ≤ 16777215) × (floor ≤ TOP_FLOOR)) }
    ensures typed_others { (event : Event)
        → ((terminal number : ℕ) (body : Body) → event ≢ Ask terminal number body)
        → IsTypedEvent event }
    ensures of_terminal { (terminal number : ℕ) (body : Body)
        → IsOfTerminal (Ask terminal number body) ↔ (terminal < MOST_TERMINALS) }
    ensures of_terminal_others { (event : Event)
        → ((terminal number : ℕ) (body : Body) → event ≢ Ask terminal number body)
        → IsOfTerminal event }
    ensures going_on { (event : Event) → IsTrue (goes_on event)
        ↔ (((kept : Kept) → event ≢ Cut kept) × ((kept : Kept) → event ≢ Reopen kept)) }
{}

/// What the premises of these laws hold of. A register is of a building where it has places for 16
/// cars and 63 terminals, and the building allows what each terminal said last. The others say in
/// which phases a device call of a batch may fail; which events are device calls, which are a
/// flusher's, and which leave the outcomes; and which looks stand.
pub fn premises_are_exact()
    ensures of_building { (building : Plan) (register : RegisterState)
        → IsOfBuilding building register
        ↔ ((length register.rows ≡ MOST_CARS) × (length register.lasts ≡ MOST_TERMINALS)
        × ((terminal : ℕ) (last : Last) → last_of register terminal ≡ Some last
        → IsPossibleLast building terminal last.content)) }
    ensures fails_writing { (writes n : ℕ) → MayFailIn writes (Writing n) ↔ (n ≤ writes) }
    ensures fails_gate { (writes : ℕ) → MayFailIn writes GateWritten }
    ensures device_calls { AllByRecursion (λ (e : Event). IsTrue (is_device_call e))
        (Fold ∷ BodyWrite ∷ FirstSync ∷ Gate ∷ SecondSync ∷ []) }
    ensures flushers { (terminal : ℕ) → AllByRecursion (λ (e : Event). IsTrue (is_flushers e))
        (Pull ∷ Fold ∷ BodyWrite ∷ FirstSync ∷ Gate ∷ SecondSync ∷ Answer terminal ∷ Fault
        ∷ []) }
    ensures outcomes_stay { (event : Event) → event ≢ Gate → event ≢ SecondSync
        → ((kept : Kept) → event ≢ Reopen kept) → moves_outcomes event ≡ false }
    ensures no_looks { (w : World) → LooksStand w [] w }
    ensures looks { (w last : World) (look : Look) (looks : List Look)
        → LooksStand w (look ∷ looks) last
        ↔ ((there : World)
        × AllByRecursion (λ (e : Event). IsTrue (is_of_terminals e || is_flushers e)) look.before
        × (goes look.before w ≡ Some there)
        × TakeFinds there look.command.terminal look.command
        × AllByRecursion (λ (d : Command). d.terminal ≢ look.command.terminal)
        (map (λ (l : Look). l.command) looks)
        × LooksStand there looks last) }
{}

/// Each event that the types hold meets the premises on asks.
pub fn events_are_typed(event: &Event)
    ensures typed { IsTypedEvent event.now }
    ensures of_terminal { IsOfTerminal event.now }
{
    if let Event::Ask(terminal, number, body) = event {
        note_ask(*terminal, *number, body);
    }
}

fn note_ask(terminal: Terminal, number: Number, body: &Body)
    ensures typed { IsTypedEvent (Ask terminal number body.now) }
    ensures of_terminal { terminal < MOST_TERMINALS }
{
    prove!(terminal.get() <= LAST_TERMINAL && number.get() <= 16_777_215);
    match body {
        Body::Call(floor, party) => {
            prove!(floor.get() <= TOP_FLOOR && party.get() >= 1 && party.get() <= 15);
        }
        Body::Stop(floor, _) => prove!(floor.get() <= TOP_FLOOR),
        Body::Place(floor, _) => prove!(floor.get() <= TOP_FLOOR),
    }
}
