//! The machine in memory.
ghost use Rattle.std.specs.Prelude.{◌≡◌, ◌++◌, ◌+◌, ◌-◌, ◌≤◌, List, [], length, take, drop, OnOk};
ghost use Rattle.std.specs.Prelude.{OnErr, IfOk};
ghost use Rattle.std.specs.List.{list_any};
ghost use Rattle.std.specs.Option.{option_to_list};
ghost use Rattle.std.specs.Prelude.{◌<◌, ◌||◌, vec_len, vec_capacity};
ghost use Rattle.lift_base.specs.declared.history.Entry.{Entry as EntryValue};
ghost use Rattle.lift_building.specs.Plan.{IsBuilding};
ghost use Rattle.lift_register.specs.Balanced.{IsBalanced};
ghost use Rattle.lift_register.specs.Register.{register_of, empty};
ghost use Rattle.lift_world.specs.World.{unplaced, is_taken_of};
ghost use Rattle.lift_world.specs.Next.{sectors_for_body};
ghost use Rattle.lift_world.specs.Replays.{FitAfter};

use crate::decide::decide;
use crate::event::{Answer, Event, Kept, Phase, Power, Taken};
use crate::lists::{
    add_due, add_unknown, answer_after, count_answers, count_asks, drop_taken, is_taken, last_ask,
    reserve_both, taken_of,
};
use lift_base::{Body, Entry, Letter, MOST_BATCHES, MOST_CARS, Number, Position, Terminal};
use lift_building::Building;
use lift_memory::{Memory, push, reserve_one};
use lift_policy::Command;
use lift_register::Register;
use std::alloc::Global;
use std::marker::Model;
use std::mem;

/// A sealed batch.
#[derive(Drop)]
pub struct Sealed {
    commands: Vec<Taken>,
    upto: usize,
}

impl Model for Sealed {
    ghost use Rattle.lift_world.specs.World.{SealedBatch};

    ghost Value = { SealedBatch };

    ghost view = { λ b. record { commands = b.commands.items; upto = b.upto } };
}

impl Sealed {
    ghost use Rattle.std.specs.Prelude.{◌≡◌};

    fn commands(&self) -> &[Taken]
        ensures { result.now ≡ self.now.commands }
    {
        &self.commands
    }

    fn upto(&self) -> usize
        ensures { result ≡ self.now.upto }
    {
        self.upto
    }
}

/// All that the machine of events knows.
#[derive(Drop)]
pub struct World<'b> {
    alloc: Global,
    building: &'b Building,
    half: u32,
    register: Register,
    accepted: Vec<Entry>,
    safe: usize,
    sealed: usize,
    flight: Sealed,
    phase: Phase,
    queue: Vec<Sealed>,
    power: Power,
    positions: [Option<Position>; MOST_CARS],
    taken: Vec<Taken>,
    due: Vec<Taken>,
    asked: Vec<Command>,
    answered: Vec<Answer>,
    heard: Vec<Answer>,
    given: Vec<Taken>,
}

impl<'b> Model for World<'b> {
    ghost use Rattle.lift_world.specs.World.{World};
    ghost use Rattle.lift_register.specs.Register.{empty};
    ghost use Rattle.lift_world.specs.Replays.{IsTight, view_of};

    ghost Value = { World };

    ghost view = { λ w. view_of w.building.now w.accepted.items w.safe w.sealed w.flight w.phase
        w.queue.items w.power w.positions w.taken.items w.due.items w.asked.items w.answered.items
        w.heard.items w.given.items };

    ghost invariant = { λ w. IsTight w.building.now empty w.register w.accepted.items };
}

/// No car has reported its position.
fn unplaced() -> [Option<Position>; MOST_CARS]
    ensures { result ≡ unplaced }
{
    [None; MOST_CARS]
}

/// The sectors that a batch's body takes.
fn bodies(count: usize) -> u64
    ensures { result ≡ sectors_for_body count }
{
    if count <= 31 { 1 } else { 2 }
}

/// A batch of the queue holds a command of this terminal.
fn is_queued(queue: &[Sealed], terminal: Terminal) -> bool
    ensures { result ≡ list_any (λ b. list_any (is_taken_of terminal) b.commands) queue.now }
{
    for batch in queue {
        if is_taken(batch.commands(), terminal) {
            return true;
        }
    }
    false
}

fn either(one: bool, other: bool) -> bool
    ensures { result ≡ (one || other) }
{
    one || other
}

/// The entry that a decision accepted, if it did.
fn push_entry(accepted: &mut Vec<Entry>, entry: Option<Entry>)
    requires { vec_len accepted.old < vec_capacity accepted.old }
    ensures items { accepted.new.items ≡ accepted.old.items ++ option_to_list entry }
{
    if let Some(entry) = entry {
        let Ok(()) = accepted.push(entry) else {
            unreachable!()
        };
    }
}

/// The register of entries that fit one after another.
fn replay(building: &Building, half: u32, entries: &[Entry]) -> Register
    requires { FitAfter building.now empty [] entries.now }
    ensures value { result ≡ register_of empty entries.now }
    ensures balanced { IsBalanced result }
{
    let mut register = Register::empty(building.shape(half));
    for entry in entries {
        register.apply(building, entry);
    }
    register
}

impl<'b> World<'b> {
    ghost use Rattle.std.specs.Prelude.{◌≡◌, ◌↔◌, ℕ, List, IsOk, IsSome, IsTrue, IfOk, OnErr};
    ghost use Rattle.std.specs.Prelude.{length, true, false};
    ghost use Rattle.lift_base.specs.declared.history.Entry.{Entry as EntryValue};
    ghost use Rattle.std.specs.Prelude.{take, ◌||◌};
    ghost use Rattle.std.specs.List.{list_any};
    ghost use Rattle.lift_register.specs.Register.{empty};
    ghost use Rattle.lift_world.specs.World.{start, may_keep, is_taken_of, outcome};
    ghost use Rattle.lift_world.specs.Next.{taking, unanswered, may_take, may_pull, is_quiet};
    ghost use Rattle.lift_world.specs.Next.{may_reopen, writes_before_sync};
    ghost use Rattle.lift_world.specs.Replays.{Moves, MovesTo, Steps};
    ghost use Rattle.lift_world.specs.declared.event.Event.{Event};

    /// A fresh group over an empty journal, with this many sectors in each of its halves. A
    /// checkpoint makes room wherever a half has none, so no event depends on that number. It takes
    /// no memory yet, so it never answers `Memory`.
    pub fn new(alloc: Global, building: &'b Building, half: u32) -> Result<World<'b>, Memory>
        ensures value { IfOk result (λ world. world ≡ start building.now empty) }
        ensures made { IsOk result }
    {
        Ok(World {
            alloc,
            building,
            half,
            register: replay(building, half, &[]),
            accepted: Vec::new(alloc),
            safe: 0,
            sealed: 0,
            flight: Sealed {
                commands: Vec::new(alloc),
                upto: 0,
            },
            phase: Phase::Idle,
            queue: Vec::new(alloc),
            power: Power::Running,
            positions: [None; MOST_CARS],
            taken: Vec::new(alloc),
            due: Vec::new(alloc),
            asked: Vec::new(alloc),
            answered: Vec::new(alloc),
            heard: Vec::new(alloc),
            given: Vec::new(alloc),
        })
    }

    /// All entries accepted; a recovery sets it to what it recovered.
    pub fn accepted(&self) -> &[Entry]
        ensures { result.now ≡ self.now.accepted }
    {
        &self.accepted
    }

    /// How many of them are safe.
    pub fn safe(&self) -> usize
        ensures { result ≡ self.now.safe }
    {
        self.safe
    }

    /// How far the batch in flight is.
    pub fn phase(&self) -> Phase
        ensures { result ≡ self.now.phase }
    {
        self.phase
    }

    /// Whether the clerk can work.
    pub fn power(&self) -> Power
        ensures { result ≡ self.now.power }
    {
        self.power
    }

    /// How many sealed batches wait after the one in flight.
    pub fn queued(&self) -> usize
        ensures { result ≡ length self.now.queue }
    {
        self.queue.len()
    }

    /// The replies stored since the last power cut.
    pub fn answered(&self) -> &[Answer]
        ensures { result.now ≡ self.now.answered }
    {
        &self.answered
    }

    /// The replies heard since the last power cut.
    pub fn heard(&self) -> &[Answer]
        ensures { result.now ≡ self.now.heard }
    {
        &self.heard
    }

    fn ask(&mut self, terminal: Terminal, number: Number, body: Body) -> Result<bool, Memory>
        ensures { Steps self.old (Event.Ask terminal number body) result self.new }
    {
        if self.power.is_off()
            || count_asks(&self.asked, terminal) != count_answers(&self.heard, terminal)
        {
            return Ok(false);
        }
        let command = Command {
            terminal,
            number,
            body,
        };
        push(&mut self.asked, command)?;
        Ok(true)
    }

    /// A command of this terminal is due, in flight, queued or taken.
    fn is_on_its_way(&self, terminal: Terminal) -> bool
        ensures { result ≡ (((list_any (is_taken_of terminal) self.now.due || list_any
            (is_taken_of terminal) self.now.flight.commands)
            || list_any (λ b. list_any (is_taken_of terminal) b.commands) self.now.queue) ||
            list_any (is_taken_of terminal) self.now.taken) }
    {
        let due = is_taken(&self.due, terminal);
        let flying = is_taken(self.flight.commands(), terminal);
        let queued = is_queued(&self.queue, terminal);
        let taken = is_taken(&self.taken, terminal);
        either(either(either(due, flying), queued), taken)
    }

    /// A command of this terminal was taken and isn't answered.
    fn is_unanswered(&self, terminal: Terminal) -> bool
        ensures { result ≡ list_any (is_taken_of terminal) (unanswered self.now) }
    {
        self.is_on_its_way(terminal)
    }

    fn may_take(&self, terminal: Terminal) -> bool
        ensures { result ≡ may_take self.now terminal }
    {
        !self.power.is_off()
            && self.queue.len() <= MOST_BATCHES
            && count_answers(&self.answered, terminal) < count_asks(&self.asked, terminal)
            && !self.is_unanswered(terminal)
    }

    fn take(&mut self, terminal: Terminal, letter: Option<Letter>) -> Result<bool, Memory>
        ensures { Steps self.old (Event.Take terminal letter) result self.new }
    {
        if !self.may_take(terminal) {
            return Ok(false);
        }
        match last_ask(&self.asked, terminal) {
            Some(command) => self.take_command(command, letter),
            None => Ok(false),
        }
    }

    /// The letter fits the command.
    fn is_decided(&self, command: &Command, letter: Option<Letter>) -> bool
        ensures { IsTrue result ↔ IsSome (taking self.now letter command.now) }
    {
        prove!(self.building.cars() <= MOST_CARS as u8);
        let mut register = replay(self.building, self.half, &self.accepted);
        let mut positions = unplaced();
        positions.copy_from_slice(&self.positions);
        let decided = decide(
            self.building,
            &mut register,
            &mut positions,
            command,
            letter,
        );
        decided.is_some()
    }

    fn take_command(&mut self, command: Command, letter: Option<Letter>) -> Result<bool, Memory>
        ensures ok { IfOk result (λ possible.
            MovesTo (taking self.old letter command) self.old possible self.new) }
        ensures err { OnErr result (self.new ≡ self.old) }
        ensures wants { OnErr result (IsSome (taking self.old letter command)) }
    {
        if let Err(memory) = reserve_both(&mut self.accepted, &mut self.taken) {
            if !self.is_decided(&command, letter) {
                return Ok(false);
            }
            return Err(memory);
        }
        prove!(self.building.cars() <= MOST_CARS as u8);
        let Some(decided) = decide(
            self.building,
            &mut self.register,
            &mut self.positions,
            &command,
            letter,
        ) else {
            return Ok(false);
        };
        let reply = decided.reply;
        push_entry(&mut self.accepted, decided.entry);
        let taken = Taken {
            terminal: command.terminal,
            number: command.number,
            body: command.body,
            reply,
        };
        let Ok(()) = self.taken.push(taken) else {
            unreachable!()
        };
        Ok(true)
    }

    fn seal(&mut self) -> Result<bool, Memory>
        ensures { Steps self.old Event.Seal result self.new }
    {
        if self.power.is_off() || self.taken.is_empty() {
            return Ok(false);
        }
        reserve_one(&mut self.queue)?;
        let upto = self.accepted.len();
        let commands = mem::replace(&mut self.taken, Vec::new(self.alloc));
        let Ok(()) = self.queue.push(Sealed { commands, upto }) else {
            unreachable!()
        };
        self.sealed = upto;
        Ok(true)
    }

    fn may_pull(&self) -> bool
        ensures { result ≡ may_pull self.now }
    {
        self.power.is_broken() || (self.power.is_running() && self.phase == Phase::Idle)
    }

    fn pull(&mut self) -> Result<bool, Memory>
        ensures { Steps self.old Event.Pull result self.new }
    {
        if !self.may_pull() || self.queue.is_empty() {
            return Ok(false);
        }
        if self.power.is_broken() {
            add_unknown(&mut self.due, self.queue[0].commands())?;
            self.queue.remove(0);
        } else if self.safe < self.queue[0].upto() {
            self.flight = self.queue.remove(0);
            self.phase = Phase::Writing(0);
        } else {
            add_due(&mut self.due, self.queue[0].commands())?;
            self.queue.remove(0);
        }
        Ok(true)
    }

    /// A checkpoint's call leaves all that the machine knows as it is: what is safe is safe in
    /// either half.
    fn fold(&mut self) -> bool
        ensures { Moves self.old Event.Fold result self.new }
    {
        match self.phase {
            Phase::Writing(n) => self.power.is_running() && n == 0,
            _ => false,
        }
    }

    /// How many writes the batch in flight has before its first sync.
    fn writes(&self) -> u64
        ensures { result ≡ writes_before_sync self.now }
    {
        let behind = self.accepted.len().saturating_sub(self.safe);
        let batch = self.flight.upto().saturating_sub(self.safe);
        bodies(behind.min(batch)) + 1
    }

    fn write_body(&mut self) -> bool
        ensures { Moves self.old Event.Body result self.new }
    {
        let writes = self.writes();
        match self.phase {
            Phase::Writing(n) if self.power.is_running() && u64::from(n) < writes => {
                self.phase = Phase::Writing(n + 1);
                true
            }
            _ => false,
        }
    }

    fn first_sync(&mut self) -> bool
        ensures { Moves self.old Event.FirstSync result self.new }
    {
        let writes = self.writes();
        match self.phase {
            Phase::Writing(n) if self.power.is_running() && u64::from(n) == writes => {
                self.phase = Phase::Synced;
                true
            }
            _ => false,
        }
    }

    fn write_gate(&mut self) -> bool
        ensures { Moves self.old Event.Gate result self.new }
    {
        if !self.power.is_running() || self.phase != Phase::Synced {
            return false;
        }
        self.phase = Phase::GateWritten;
        true
    }

    fn second_sync(&mut self) -> Result<bool, Memory>
        ensures { Steps self.old Event.SecondSync result self.new }
    {
        if !self.power.is_running() || self.phase != Phase::GateWritten {
            return Ok(false);
        }
        add_due(&mut self.due, self.flight.commands())?;
        self.safe = self.flight.upto();
        self.flight = Sealed {
            commands: Vec::new(self.alloc),
            upto: 0,
        };
        self.phase = Phase::Idle;
        Ok(true)
    }

    fn fault(&mut self) -> Result<bool, Memory>
        ensures { Steps self.old Event.Fault result self.new }
    {
        if !self.power.is_running() || self.phase == Phase::Synced {
            return Ok(false);
        }
        add_unknown(&mut self.due, self.flight.commands())?;
        self.flight = Sealed {
            commands: Vec::new(self.alloc),
            upto: self.flight.upto(),
        };
        self.power = Power::Broken;
        Ok(true)
    }

    fn answer(&mut self, terminal: Terminal) -> Result<bool, Memory>
        ensures { Steps self.old (Event.Answer terminal) result self.new }
    {
        if self.power.is_off() {
            return Ok(false);
        }
        let Some(command) = taken_of(&self.due, terminal) else {
            return Ok(false);
        };
        reserve_both(&mut self.answered, &mut self.given)?;
        let answer = command.answer();
        let Ok(()) = self.given.push(command) else {
            unreachable!()
        };
        let Ok(()) = self.answered.push(answer) else {
            unreachable!()
        };
        drop_taken(&mut self.due, terminal);
        Ok(true)
    }

    fn hear(&mut self, terminal: Terminal) -> Result<bool, Memory>
        ensures { Steps self.old (Event.Hear terminal) result self.new }
    {
        if self.power.is_off() {
            return Ok(false);
        }
        let heard = count_answers(&self.heard, terminal);
        let Some(answer) = answer_after(&self.answered, terminal, heard) else {
            return Ok(false);
        };
        push(&mut self.heard, answer)?;
        Ok(true)
    }

    fn may_keep(&self, kept: &Kept) -> bool
        ensures { result ≡ may_keep self.now kept.now }
    {
        match kept {
            Kept::Safe => true,
            Kept::WithBatch => self.phase == Phase::GateWritten,
        }
    }

    fn cut(&mut self, kept: Kept) -> bool
        ensures { Moves self.old (Event.Cut kept) result self.new }
    {
        if !self.may_keep(&kept) {
            return false;
        }
        self.power = Power::Off(kept);
        self.flight = Sealed {
            commands: Vec::new(self.alloc),
            upto: self.flight.upto(),
        };
        self.queue.clear();
        self.positions = unplaced();
        self.taken.clear();
        self.due.clear();
        self.asked.clear();
        self.answered.clear();
        self.heard.clear();
        true
    }

    /// No batch is in flight or queued, and nothing is taken.
    fn is_quiet(&self) -> bool
        ensures { result ≡ is_quiet self.now }
    {
        self.phase == Phase::Idle && self.queue.is_empty() && self.taken.is_empty()
    }

    fn may_reopen(&self, kept: &Kept) -> bool
        ensures { result ≡ may_reopen self.now self.now.power kept.now }
    {
        match &self.power {
            Power::Running => self.is_quiet() && self.may_keep(kept),
            Power::Broken => self.queue.is_empty() && self.may_keep(kept),
            Power::Off(last) => *last == *kept && self.may_keep(kept),
        }
    }

    /// How many of the accepted entries a recovery gives.
    fn recovered(&self, kept: &Kept) -> usize
        ensures { take result self.now.accepted ≡ outcome self.now kept.now }
    {
        match kept {
            Kept::Safe => self.safe,
            Kept::WithBatch => self.safe.max(self.flight.upto()),
        }
    }

    /// What was taken and not sealed, which there is only after a fault, is dropped and answered
    /// Unknown.
    fn reopen(&mut self, kept: Kept) -> Result<bool, Memory>
        ensures { Steps self.old (Event.Reopen kept) result self.new }
    {
        if !self.may_reopen(&kept) {
            return Ok(false);
        }
        add_unknown(&mut self.due, &self.taken)?;
        let count = self.recovered(&kept);
        self.accepted.truncate(count);
        let building = self.building;
        self.register = replay(building, self.half, &self.accepted);
        self.safe = self.accepted.len();
        self.sealed = self.accepted.len();
        self.flight = Sealed {
            commands: Vec::new(self.alloc),
            upto: 0,
        };
        self.phase = Phase::Idle;
        self.queue.clear();
        self.power = Power::Running;
        self.positions = unplaced();
        self.taken.clear();
        Ok(true)
    }

    /// One event. False where it isn't possible, and then, as where memory runs out, nothing
    /// changed. Memory is needed neither by the device's calls before the second sync nor by a cut,
    /// and by others only where they are possible.
    pub fn step(&mut self, event: &Event) -> Result<bool, Memory>
        ensures { Steps self.old event.now result self.new }
    {
        match *event {
            Event::Ask(terminal, number, body) => self.ask(terminal, number, body),
            Event::Take(terminal, letter) => self.take(terminal, letter),
            Event::Seal => self.seal(),
            Event::Pull => self.pull(),
            Event::Fold => Ok(self.fold()),
            Event::Body => Ok(self.write_body()),
            Event::FirstSync => Ok(self.first_sync()),
            Event::Gate => Ok(self.write_gate()),
            Event::SecondSync => self.second_sync(),
            Event::Answer(terminal) => self.answer(terminal),
            Event::Hear(terminal) => self.hear(terminal),
            Event::Fault => self.fault(),
            Event::Cut(kept) => Ok(self.cut(kept)),
            Event::Reopen(kept) => self.reopen(kept),
        }
    }
}
