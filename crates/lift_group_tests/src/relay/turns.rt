//! Batches that wait in the line come through, by turns of one thread or in a run.
use crate::deeds::{Deed, at_desk};
use crate::device::{Device, NEVER};
use crate::faults::stops::reopens_to;
use crate::gate::Below;
use crate::groups::{call, car, formatted, group, kiosk, place};
use crate::relays::Parts;
use crate::tally::Tally;
use crate::terminals::{Terminals, Who};
use lift_base::{Body, Dir, Reply};
use lift_clerk::{Clerk, Counts};
use lift_journal::JournalFault;
use lift_keeper::KeeperFault;
use lift_policy::Etd;
use lift_register::Register;
use lift_relay::{FlushCounts, RunFault};
use std::alloc::Global;
use std::process::Abort;
use std::sync::Wait;
use std::thread;
use std::thread::Threads;

/// The looks of a kiosk.
const LIMIT: u64 = 20_000_000;

const FAILED: KeeperFault = KeeperFault::Journal(JournalFault::Disk);

const BROKEN: KeeperFault = KeeperFault::Journal(JournalFault::Broken);

/// How batches that were sent come through.
#[derive(Clone, Copy)]
enum Course {
    /// Five, by turns of the flusher.
    Turns,
    /// Five, by a run through a gate that is closed.
    Run,
    /// The same, after a telling.
    Told,
    /// Five, by a run whose gate is open until its witness is told that the device failed.
    Watched,
    /// One, and three calls on a thread of their own, by a run whose gate is open beside them.
    Beside,
}

/// What becomes of batches over a device that fails one call, or none by 0.
#[derive(Clone, Copy)]
pub(crate) struct Drain {
    pub(crate) failing_call: u32,
    /// Which batch that call is of, counted from 0; 5 where none fails.
    failed: u8,
    /// How many of the kiosks' calls are in at the end.
    calls: u8,
    course: Course,
}

/// Five batches wait, the fifth in hand until the flusher has received one. A batch without entries
/// is no call of the device, and each of the three calls is five. What was safe is answered, and all
/// batches after a fault are Unknown. A run through a gate that is closed turns nothing, and drains
/// what is in hand and in the line; what the parts tell each other before it changes nothing. After a
/// fault it goes on, tells the first one, and its witness is told of that once, and at once; so it
/// does while its gate is open, and answers the later calls too.
const DRAINS: [(u32, u8, u8, Course); 13] = [
    (0, 5, 3, Course::Turns),
    (1, 2, 0, Course::Turns),
    (5, 2, 1, Course::Turns),
    (6, 3, 1, Course::Turns),
    (10, 3, 2, Course::Turns),
    (11, 4, 2, Course::Turns),
    (15, 4, 3, Course::Turns),
    (16, 5, 3, Course::Turns),
    (0, 5, 3, Course::Told),
    (6, 3, 1, Course::Run),
    (6, 3, 1, Course::Watched),
    (0, 5, 2, Course::Beside),
    (1, 1, 0, Course::Beside),
];

impl Drain {
    fn has_failed(&self) -> bool {
        self.failed < 5
    }

    /// What a command of this batch is answered, if it is this where the batch is safe.
    fn answer(&self, batch: u8, reply: Option<Reply>) -> Option<Reply> {
        if batch < self.failed {
            reply
        } else {
            Some(Reply::Unknown)
        }
    }

    /// What the flusher's turn for a batch of one command comes to. One more finds none.
    fn comes_to(&self, batch: u8) -> Result<FlushCounts, KeeperFault> {
        if batch > self.failed {
            return Err(BROKEN);
        }
        if batch == self.failed && batch < 5 {
            return Err(FAILED);
        }
        let count = usize::from(batch < 5);
        Ok(FlushCounts {
            batches: count,
            answers: count,
        })
    }

    /// What a run comes to.
    fn fault(&self) -> Option<RunFault> {
        if self.has_failed() {
            Some(RunFault::Keeper(FAILED))
        } else {
            None
        }
    }
}

/// A turn of the allocator, and what it comes to.
pub(crate) fn allocates<R: Wait>(
    rt: &R,
    tally: &mut Tally,
    relay: &mut Parts,
    taken: usize,
    accepted: usize,
) {
    tally.want(relay.allocate(rt) == Counts { taken, accepted });
}

/// The batches, of one command each: places and three calls.
fn command(batch: u8) -> (Who, u32, Body) {
    match batch {
        0 => (Who::CarA, 0, place(0, Dir::Up)),
        1 => (Who::CarB, 0, place(9, Dir::Down)),
        2 => (Who::Kiosk0, 1, call(5)),
        3 => (Who::Kiosk1, 1, call(2)),
        _ => (Who::Kiosk2, 1, call(9)),
    }
}

/// A batch that the allocator takes.
pub(crate) fn takes<R: Wait>(
    rt: &R,
    tally: &mut Tally,
    terminals: &mut Terminals,
    relay: &mut Parts,
    batch: u8,
) {
    let (who, told, body) = command(batch);
    tally.want(terminals.ask(who, told, body));
    allocates(rt, tally, relay, 1, usize::from(batch >= 2));
}

/// Four batches more. The line has no room for the fifth, and then nothing is taken.
fn takes_four<R: Wait>(rt: &R, tally: &mut Tally, terminals: &mut Terminals, relay: &mut Parts) {
    for batch in 1..5u8 {
        takes(rt, tally, terminals, relay, batch);
    }
    tally.want(relay.has_moved(4, 0, true));
    allocates(rt, tally, relay, 0, 0);
    tally.want(relay.has_moved(4, 0, true));
}

/// Six turns of the flusher, of which the last one finds no batch. After the first the line has room
/// for the batch in hand, and nothing is taken.
fn flushes_five<R: Wait>(rt: &R, tally: &mut Tally, relay: &mut Parts, drain: &Drain) {
    for batch in 0..6u8 {
        tally.want(relay.flush(rt) == drain.comes_to(batch));
        if batch == 0 {
            allocates(rt, tally, relay, 0, 0);
            tally.want(relay.has_moved(5, 1, false));
        }
    }
}

/// All five batches are sent and received in a run, which tells the first fault. Its gate is open
/// while its witness was told that the device failed less often than this.
fn runs_out<R: Threads + Wait + Sync>(
    rt: &R,
    tally: &mut Tally,
    relay: &mut Parts,
    drain: &Drain,
    limit: u64,
) {
    let gate = Below::new(limit);
    tally.want(relay.run(rt, &gate) == drain.fault());
    tally.want(gate.has_seen(u64::from(drain.has_failed())));
    tally.want(relay.has_moved(5, 5, false));
}

/// Three calls, each once the one before it was answered, and the gate is closed. Whether each was
/// asked, but for the last one, which is the first again, and answered so.
fn call_each(terminals: &mut Terminals, gate: &Below, reply: Option<Reply>) -> bool {
    let mut are_answered = true;
    for turn in 0..3u8 {
        let who = if turn == 1 { Who::Kiosk1 } else { Who::Kiosk0 };
        let is_asked = terminals.ask(who, 1, call(9));
        let is_answered = terminals.wait_for(who, LIMIT) == reply;
        are_answered = are_answered & is_asked & is_answered;
    }
    gate.add(2);
    are_answered
}

/// The gate is open beside the calls: each is answered, four batches went through, and the first
/// fault is told.
fn runs_beside<R: Threads + Wait + Sync>(
    rt: &R,
    tally: &mut Tally,
    terminals: &mut Terminals,
    relay: &mut Parts,
    drain: &Drain,
) {
    let gate = Below::new(2);
    let reply = drain.answer(1, car(0));
    let (are_answered, fault) = thread::join(
        rt,
        || call_each(terminals, &gate, reply),
        || relay.run(rt, &gate),
    );
    tally.want(are_answered);
    tally.want(fault == drain.fault());
    tally.want(gate.has_seen(u64::from(drain.has_failed())));
    tally.want(relay.has_moved(4, 4, false));
    tally.want(gate.was_told_of(4));
}

/// The cars hear that they are placed, and the kiosks a letter each of the batches that are safe, and
/// Unknown else.
fn hear(tally: &mut Tally, terminals: &mut Terminals, drain: &Drain) {
    let placed = Some(Reply::Placed(None));
    tally.want_reply(terminals.hear(Who::CarA), &placed);
    tally.want_reply(terminals.hear(Who::CarB), &placed);
    tally.want_reply(terminals.hear(Who::Kiosk0), &drain.answer(2, car(0)));
    tally.want_reply(terminals.hear(Who::Kiosk1), &drain.answer(3, car(1)));
    tally.want_reply(terminals.hear(Who::Kiosk2), &drain.answer(4, car(0)));
}

/// With the first batch sent, the others come.
pub(crate) fn comes_through<R: Threads + Wait + Sync>(
    rt: &R,
    tally: &mut Tally,
    terminals: &mut Terminals,
    relay: &mut Parts,
    drain: &Drain,
) {
    if matches!(drain.course, Course::Beside) {
        return runs_beside(rt, tally, terminals, relay, drain);
    }
    takes_four(rt, tally, terminals, relay);
    match drain.course {
        Course::Turns => flushes_five(rt, tally, relay, drain),
        Course::Watched => runs_out(rt, tally, relay, drain, 1),
        Course::Told => {
            relay.tell();
            runs_out(rt, tally, relay, drain, 0);
        }
        _ => runs_out(rt, tally, relay, drain, 0),
    }
    hear(tally, terminals, drain);
}

/// Whether these are the kiosks' calls that are in.
fn shows(register: &Register, calls: u8) -> bool {
    (register.last_number(kiosk(0)) == u32::from(calls > 0))
        & (register.last_number(kiosk(1)) == u32::from(calls > 1))
        & (register.last_number(kiosk(2)) == u32::from(calls > 2))
        & (register.open_count() == u32::from(calls))
}

/// The clerk is broken, and is reopened, or isn't, and shows what is in.
pub(crate) fn is_whole(tally: &mut Tally, clerk: &mut Clerk<Device, Etd>, drain: &Drain) {
    tally.want(clerk.keeper().is_broken() == drain.has_failed());
    if drain.has_failed() {
        reopens_to(tally, clerk, NEVER, Ok(()));
    }
    tally.want(shows(clerk.keeper().register(), drain.calls));
}

fn drain_each<R: Threads + Wait + Abort + Sync>(rt: &R, alloc: Global) {
    let mut tally = Tally::new();
    let building = group(rt, alloc);
    for (failing_call, failed, calls, course) in &DRAINS {
        let drain = Drain {
            failing_call: *failing_call,
            failed: *failed,
            calls: *calls,
            course: *course,
        };
        let device = formatted(rt, alloc, &building);
        let _left = at_desk(
            rt,
            alloc,
            &mut tally,
            device,
            &building,
            Deed::Drain(&drain),
        );
    }
    // of each row two, eleven of the other four batches, five of what is heard and two of the clerk;
    // eight of turns, three of a run; nine of a row of calls beside it; and one of each row where one fails
    tally.ends(rt, 8 * 28 + 3 * 23 + 2 * 9 + 9);
}

/// With a batch in the line, and none in hand, both parts are handed back, and go on.
#[test]
fn batches_come_through(rt: HostRuntime) {
    drain_each(&rt, rt.alloc());
}
