//! Threads at a desk, and its refusals.
ghost use Rattle.std.specs.Prelude.{◌≡◌, ◌+◌, ◌<◌, ◌≤◌, length, vec_len, IfOk};
ghost use Rattle.lift_desk.specs.Seats.{IsSeatOf, IsClerkOf, AreSeatsOf};

use crate::words::{ask_of, reply_of};
use lift_base::text::{number_of_word, number_up_to, words_of};
use lift_base::{Body, Floor, Letter, Number, Party, Reply, Terminal};
use lift_desk::{
    AskRefusal, ClerkSeat, Desk, DeskParts, Seat, ask_word, read_ask, read_reply, reply_word,
};
use lift_desk_tests::{Answer, ask_and_hear, relay_once, scan};
use std::alloc::{AllocError, Global};
use std::process::Abort;
use std::thread;
use std::thread::Threads;

fn call(floor: u8, party: u8) -> Body {
    Body::Call(
        Floor::new(floor).unwrap_or_default(),
        Party::new(party).unwrap_or_default(),
    )
}

fn number(value: u32) -> Number {
    Number::new(value).unwrap_or_default()
}

fn car(index: u8) -> Letter {
    Letter::new(index).unwrap_or_default()
}

const LAST_TURN: u32 = 1_048_575;

// Asks with their turns and their words.
const ASKS: [(u32, &str, u64); 5] = [
    (1, "1 call 5 1", 0x0000_1000_0014_0085),
    (1, "1 call 5 15", 0x0000_1000_0014_0785),
    (2, "1 stop 0 down", 0x0000_2000_0018_0040),
    (3, "0 place 0 up", 0x0000_3000_000C_0000),
    (1_048_575, "16777215 place 63 down", 0xFFFF_FFFF_FFFC_007F),
];

fn spells_ask(turn: u32, ask: &str, word: u64) -> bool {
    let ask = match words_of(ask) {
        Some(words) => ask_of(words.as_slice()),
        None => None,
    };
    match ask {
        Some(_) if turn == 0 || turn > LAST_TURN => false,
        Some(ask) => ask_word(turn, ask.number, ask.body) == word && read_ask(word) == Some(ask),
        None => false,
    }
}

// Answers to the command 1, likewise.
const ANSWERS: [(u32, &str, u64); 6] = [
    (1, "car A", 0x0000_1000_0010_1000),
    (2, "stopped 0 up", 0x0000_2000_0010_2080),
    (2, "stopped", 0x0000_2000_0010_2000),
    (3, "placed 63 down", 0x0000_3000_0010_30FF),
    (4, "refused 11", 0x0000_4000_0010_400B),
    (5, "unknown", 0x0000_5000_0010_5000),
];

fn spells_answer(turn: u32, reply: &str, word: u64) -> bool {
    let reply = match words_of(reply) {
        Some(words) => reply_of(words.as_slice()),
        None => None,
    };
    match &reply {
        Some(_) if turn == 0 || turn > LAST_TURN => false,
        Some(reply) => {
            reply_word(turn, number(1), *reply) == word && read_reply(word) == Some(*reply)
        }
        None => false,
    }
}

// No party, a party's bit in a stop, no kind, a direction in a call, no turn.
const NO_ASKS: [u64; 5] = [
    0x0000_1000_0014_0005,
    0x0000_2000_0018_00C0,
    0x0000_1000_0010_0085,
    0x0000_1000_0014_00C5,
    0x0000_0000_0014_0085,
];

// A stop without its bit, a car past P, a code past 5, an argument of Unknown, reasons 0, 9 and 12,
// no turn.
const NO_ANSWERS: [u64; 8] = [
    0x0000_2000_0010_2001,
    0x0000_1000_0010_1010,
    0x0000_1000_0010_6000,
    0x0000_1000_0010_5001,
    0x0000_1000_0010_4000,
    0x0000_1000_0010_4009,
    0x0000_1000_0010_400C,
    0x0000_0000_0010_1000,
];

// Asks and answers are spelled as stated, and other words spell nothing.
#[test]
fn words_are_as_stated(rt: HostRuntime) {
    for (turn, ask, word) in &ASKS {
        assert!(rt; spells_ask(*turn, ask, *word), "{ask}");
    }
    for (turn, reply, word) in &ANSWERS {
        assert!(rt; spells_answer(*turn, reply, *word), "{reply}");
    }
    for word in NO_ASKS {
        assert!(rt; read_ask(word).is_none(), "{word}");
    }
    for word in NO_ANSWERS {
        assert!(rt; read_reply(word).is_none(), "{word}");
    }
}

// A desk of 1 to 63 terminals, where there is memory.
fn open(alloc: Global, terminals: usize) -> Result<DeskParts, AllocError>
    ensures count { IfOk result (λ parts. (length parts.desk ≡ terminals)
        × (vec_len parts.seats ≡ terminals)) }
    ensures seats { IfOk result (λ parts. AreSeatsOf parts.desk parts.seats.items) }
    ensures clerk { IfOk result (λ parts. IsClerkOf parts.desk parts.clerk) }
{
    if terminals == 0 || terminals > 63 {
        return Err(AllocError);
    }
    match Desk::open(alloc, terminals) {
        Ok(parts) => Ok(parts),
        Err(_) => Err(AllocError),
    }
}

fn last_seat(_desk: &Desk, seats: &mut Vec<Seat>) -> Seat
    requires at { AreSeatsOf _desk.now seats.old.items }
    requires some_left { 0 < vec_len seats.old }
    ensures seat { IsSeatOf _desk.now result }
    ensures rest { AreSeatsOf _desk.now seats.new.items }
    ensures len { vec_len seats.new + 1 ≡ vec_len seats.old }
{
    seats.pop().unwrap()
}

// Asks, answers and hears this many times, and counts what was heard.
fn use_turns(desk: &Desk, seat: &mut Seat, clerk: &mut ClerkSeat, times: u32) -> u32
    requires { IsSeatOf desk.now seat.old × IsClerkOf desk.now clerk.old }
    ensures { IsSeatOf desk.now seat.new × IsClerkOf desk.now clerk.new }
{
    let mut heard = 0u32;
    for _ in 0..times {
        let asked = desk.ask(seat, number(1), call(5, 1)).is_ok();
        scan(desk, clerk);
        if asked && desk.hear(seat).is_some() {
            heard = heard.saturating_add(1);
        }
    }
    heard
}

// Each result has one name, and another name is of none.
fn is_refusal(refusal: Option<AskRefusal>, name: &str) -> bool {
    match refusal {
        Some(AskRefusal::Waiting) => name == "waiting",
        Some(AskRefusal::Spent) => name == "spent",
        None => name.is_empty(),
    }
}

fn is_reply(reply: Option<Reply>, name: &str) -> bool {
    match (reply, words_of(name)) {
        (Some(_), Some(words)) => reply == reply_of(words.as_slice()),
        (Some(_), None) => false,
        (None, _) => name == "nothing",
    }
}

fn is_pending(pending: Option<Number>, name: &str) -> bool {
    match pending {
        Some(_) => pending == number_of_word(name),
        None => name == "none",
    }
}

fn is_count(count: u32, name: &str) -> bool {
    number_up_to(name, u32::MAX) == Some(count)
}

// A step at one terminal, with what is to come of it: `ask 7`, `ask 8 waiting`, `hear car B`, `hear
// nothing`, `pending 7`, `pending none`, `scan 1`, `tell`, `meet`, the terminal's own number
// (`terminal 62`), and asks each of which is answered and heard (`rounds 9`).
fn comes_out(desk: &Desk, seat: &mut Seat, clerk: &mut ClerkSeat, step: &str) -> bool
    requires { IsSeatOf desk.now seat.old × IsClerkOf desk.now clerk.old }
    ensures { IsSeatOf desk.now seat.new × IsClerkOf desk.now clerk.new }
{
    let (key, rest) = step.split_once(' ').unwrap_or((step, ""));
    let (word, behind) = rest.split_once(' ').unwrap_or((rest, ""));
    let value = number_up_to(word, u32::MAX).unwrap_or(0);
    match key {
        "ask" => match number_of_word(word) {
            Some(number) => is_refusal(desk.ask(seat, number, call(5, 3)).err(), behind),
            None => false,
        },
        "hear" => is_reply(desk.hear(seat), rest),
        "pending" => is_pending(seat.pending(), rest),
        "scan" => is_count(u32::from(scan(desk, clerk)), rest),
        "meet" => desk.meet(seat, clerk) && rest.is_empty(),
        "tell" => {
            desk.tell(seat, clerk);
            rest.is_empty()
        }
        "terminal" => is_count(u32::from(seat.terminal().get()), rest),
        "rounds" => is_count(use_turns(desk, seat, clerk, value), rest),
        _ => false,
    }
}

// How many of these steps come out before the first one that doesn't, and whether all do.
fn successes(desk: &Desk, seat: &mut Seat, clerk: &mut ClerkSeat, steps: &str) -> (u32, bool)
    requires { IsSeatOf desk.now seat.old × IsClerkOf desk.now clerk.old }
    ensures { IsSeatOf desk.now seat.new × IsClerkOf desk.now clerk.new }
{
    let mut count = 0u32;
    for step in steps.lines() {
        if !comes_out(desk, seat, clerk, step) {
            return (count, false);
        }
        count = count.saturating_add(1);
    }
    (count, true)
}

// The same, at the last terminal of a new desk.
fn successes_at_last(alloc: Global, terminals: usize, steps: &str) -> (u32, bool) {
    let Ok(
        DeskParts {
            desk,
            mut seats,
            mut clerk,
        },
    ) = open(alloc, terminals)
    else {
        return (0, false);
    };
    let mut seat = last_seat(&desk, &mut seats);
    successes(&desk, &mut seat, &mut clerk, steps)
}

const ALL_TURNS: &str = "\
rounds 1048575
ask 1 spent
pending none
hear nothing
scan 0
meet
";

const ONE_ASK: &str = "\
hear nothing
pending none
ask 7
ask 8 waiting
pending 7
tell
hear nothing
scan 1
tell
scan 0
hear car B
hear nothing
meet
pending none
";

#[test]
fn steps_come_out(rt: HostRuntime) {
    for (name, terminals, steps, count) in [
        ("an ask is answered once", 2, ONE_ASK, 14),
        (
            "the last of 63 terminals is answered",
            63,
            "terminal 62\nask 1\nscan 1\nhear unknown",
            4,
        ),
        ("turns run out", 1, ALL_TURNS, 6),
    ] {
        let (right, are_all) = successes_at_last(rt.alloc(), terminals, steps);
        assert!(rt; are_all && right == count, "{name}: {right}");
    }
}

// Whether an ask is taken ahead and answered, once.
fn is_answered_ahead(desk: &Desk, seat: &mut Seat, clerk: ClerkSeat) -> bool
    requires at { IsSeatOf desk.now seat.old × IsClerkOf desk.now clerk }
    requires some { 0 < length desk.now }
{
    let terminal = Terminal::default();
    let is_asked = desk.ask(seat, number(1), call(5, 1)).is_ok();
    let (once, first) = relay_once(desk, clerk, terminal, Reply::Car(car(1)));
    let (mut twice, second) = relay_once(desk, once, terminal, Reply::Car(car(1)));
    let is_heard = desk.hear(seat) == Some(Reply::Car(car(1)));
    let is_met = !twice.owes(terminal) && desk.meet(seat, &mut twice);
    is_asked && first == 1 && second == 0 && is_heard && is_met
}

#[test]
fn a_seat_ahead_takes_and_the_clerk_answers(rt: HostRuntime) {
    let DeskParts {
        desk,
        mut seats,
        clerk,
    } = open(rt.alloc(), 1).ok().expect(&rt, "memory");
    let mut seat = last_seat(&desk, &mut seats);
    assert!(rt; is_answered_ahead(&desk, &mut seat, clerk));
}

// All of it, where there is memory.
#[test]
fn memory_or_the_whole_desk(rt: HostRuntime) {
    match Desk::open(rt.alloc(), 3) {
        Ok(parts) => assert!(rt; parts.desk.len() == 3 && parts.seats.len() == 3),
        Err(_) => {}
    }
}

const LOOKS: u32 = 10_000_000;

type Visit = (Seat, Answer);

fn visit(desk: &Desk, mut seat: Seat, number: Number, body: Body) -> Visit
    requires { IsSeatOf desk.now seat }
    ensures { IsSeatOf desk.now result.0 }
{
    let answer = ask_and_hear(desk, &mut seat, number, body, LOOKS);
    (seat, answer)
}

// Scans until two asks were answered.
fn serve(desk: &Desk, mut clerk: ClerkSeat) -> ClerkSeat
    requires { IsClerkOf desk.now clerk }
    ensures { IsClerkOf desk.now result }
{
    let mut answered = 0u8;
    for _ in 0..LOOKS {
        if answered >= 2 {
            break;
        }
        answered = answered.saturating_add(scan(desk, &mut clerk));
        thread::yield_now();
    }
    clerk
}

fn both<R: Threads + Sync>(rt: &R, desk: &Desk, first: Seat, second: Seat) -> (Visit, Visit)
    requires { IsSeatOf desk.now first × IsSeatOf desk.now second }
    ensures { IsSeatOf desk.now result.0.0 × IsSeatOf desk.now result.1.0 }
{
    thread::join(
        rt,
        move || -> Visit
            requires { IsSeatOf desk.now first }
            ensures { IsSeatOf desk.entry.now result.0 }
        { visit(desk, first, number(1), call(5, 1)) },
        move || -> Visit
            requires { IsSeatOf desk.now second }
            ensures { IsSeatOf desk.entry.now result.0 }
        { visit(desk, second, number(2), call(6, 2)) },
    )
}

fn all_three<R: Threads + Sync>(
    rt: &R,
    desk: &Desk,
    clerk: ClerkSeat,
    first: Seat,
    second: Seat,
) -> (ClerkSeat, (Visit, Visit))
    requires { IsClerkOf desk.now clerk × IsSeatOf desk.now first × IsSeatOf desk.now second }
    ensures { IsClerkOf desk.now result.0 × IsSeatOf desk.now result.1.0.0
        × IsSeatOf desk.now result.1.1.0 }
{
    thread::join(
        rt,
        move || -> ClerkSeat
            requires { IsClerkOf desk.now clerk }
            ensures { IsClerkOf desk.entry.now result }
        { serve(desk, clerk) },
        move || -> (Visit, Visit)
            requires { IsSeatOf desk.now first × IsSeatOf desk.now second }
            ensures { IsSeatOf desk.entry.now result.0.0 × IsSeatOf desk.entry.now result.1.0 }
        { both(rt, desk, first, second) },
    )
}

fn meet_both<R: Threads + Abort + Sync>(rt: &R, alloc: Global) {
    let DeskParts {
        desk,
        mut seats,
        clerk,
    } = open(alloc, 2).ok().expect(rt, "memory");
    let second = last_seat(&desk, &mut seats);
    let first = last_seat(&desk, &mut seats);
    let (mut clerk, ((mut first, a), (mut second, b))) = all_three(rt, &desk, clerk, first, second);
    assert!(rt; a == Answer::Heard(Reply::Car(car(0))));
    assert!(rt; b == Answer::Heard(Reply::Car(car(1))));
    assert!(rt; desk.meet(&mut first, &mut clerk));
    assert!(rt; desk.meet(&mut second, &mut clerk));
}

#[test]
fn two_threads_ask_while_a_third_answers(rt: HostRuntime) {
    for _ in 0..1000 {
        meet_both(&rt, rt.alloc());
    }
}
