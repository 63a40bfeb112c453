//! A word of the desk: 20 bits of turn, 24 bits of number, and 20 bits that spell an ask or an
//! answer.
ghost use Rattle.std.specs.Prelude.{◌≡◌, ℕ, ◌<◌, ◌≤◌, ◌^◌, ◌↔◌, IsSome, IfSome, Some};
ghost use Rattle.lift_base.specs.declared.command.Body.{Body};
ghost use Rattle.lift_base.specs.declared.command.Reply.{Reply};
ghost use Rattle.lift_base.specs.declared.travel.Dir.{Dir};
ghost use Rattle.lift_desk.specs.declared.words.Ask.{Ask};
ghost use Rattle.lift_desk.specs.Words.{turn_of, number_of, dir_bit, body_bits, ask_word};
ghost use Rattle.lift_desk.specs.Words.{stop_bits, reply_bits, reply_word, IsBodyInRange};
ghost use Rattle.lift_desk.specs.Words.{IsNextStop, IsReply, IsAskWord, IsReplyWord, IsWordOf};
ghost use Rattle.lift_desk.specs.Words.{ReadsBack};
ghost use Rattle.lift_desk.specs.Spelled.{IsAsk};

use lift_base::{Body, Dir, Floor, Letter, Number, Party, Reason, Reply, Stop};

/// What a terminal asks: the number of its command, 0 to 16,777,215, and the command.
#[derive(Clone, Copy, PartialEq, Eq)]
pub struct Ask {
    pub number: Number,
    pub body: Body,
}

const TURN: u64 = 1 << 44;

const NUMBER: u64 = 1 << 20;

const KIND: u64 = 1 << 18;

const CODE: u64 = 1 << 12;

const PERSON: u64 = 1 << 7;

const STOP: u64 = 1 << 7;

const DIRECTION: u64 = 1 << 6;

fn dir_bit(dir: Dir) -> u64
    ensures bit { result ≡ dir_bit dir }
    ensures small { result < 2 }
{
    match dir {
        Dir::Up => 0,
        Dir::Down => 1,
    }
}

fn read_dir(bit: u64) -> Dir
    requires { bit < 2 }
    ensures { dir_bit result ≡ bit }
{
    if bit == 0 { Dir::Up } else { Dir::Down }
}

fn body_bits(body: &Body) -> u64
    ensures bits { result ≡ body_bits body.now }
    ensures in_range { IsBodyInRange body.now }
    ensures small { result < 2 ^ 20 }
{
    match *body {
        Body::Call(floor, party) => {
            KIND + u64::from(party.get()) * PERSON + u64::from(floor.get())
        }
        Body::Stop(floor, dir) => 2 * KIND + dir_bit(dir) * DIRECTION + u64::from(floor.get()),
        Body::Place(floor, dir) => 3 * KIND + dir_bit(dir) * DIRECTION + u64::from(floor.get()),
    }
}

// The body of these bits, which are then spelled in the one way.
fn read_body(bits: u64) -> Option<Body>
    ensures { ReadsBack IsBodyInRange body_bits bits result }
{
    let floor = Floor::new((bits % 64) as u8)?;
    let dir = read_dir(bits / DIRECTION % 2);
    let body = match bits / KIND {
        1 => Body::Call(floor, Party::new((bits / PERSON % 16) as u8)?),
        2 => Body::Stop(floor, dir),
        3 => Body::Place(floor, dir),
        _ => return None,
    };
    (body_bits(&body) == bits).then_some(body)
}

/// The word of an ask: the turn, 1 to 1,048,575, in bits 63 to 44, the number in bits 43 to 20, and
/// the body below.
pub fn ask_word(turn: u32, number: Number, body: Body) -> u64
    requires { (1 ≤ turn) × (turn < 2 ^ 20) }
    ensures word { IsWordOf IsAskWord turn number (ask_word turn number body) result }
    ensures in_range { IsAsk (record { number = number; body = body }) }
{
    u64::from(turn) * TURN + u64::from(number.get()) * NUMBER + body_bits(&body)
}

/// The ask that a word spells; none for a word that spells no ask.
// (what a call would answer it writes to memory in single bytes, for which the next read waits)
#[inline(always)]
pub fn read_ask(word: u64) -> Option<Ask>
    ensures valid { IsSome result ↔ IsAskWord word }
    ensures value { IfSome result (λ ask. word ≡ ask_word (turn_of word) ask.number ask.body) }
    ensures number { IfSome result (λ ask. number_of word ≡ ask.number) }
    ensures in_range { IfSome result IsAsk }
    ensures known { (turn : ℕ) (ask : Ask) → 1 ≤ turn → IsAsk ask
        → word ≡ ask_word turn ask.number ask.body → result ≡ Some ask }
{
    if turn_of(word) == 0 {
        return None;
    }
    let number = Number::new((word / NUMBER % (1 << 24)) as u32)?;
    let body = read_body(word % NUMBER)?;
    Some(Ask { number, body })
}

fn stop_bits(next: &Option<Stop>) -> u64
    ensures bits { result ≡ stop_bits next.now }
    ensures in_range { IsNextStop next.now }
    ensures small { result < 2 ^ 12 }
{
    match *next {
        None => 0,
        Some(stop) => STOP + dir_bit(stop.dir) * DIRECTION + u64::from(stop.floor.get()),
    }
}

fn read_stop(bits: u64) -> Option<Option<Stop>>
    ensures { ReadsBack IsNextStop stop_bits bits result }
{
    if bits == 0 {
        return Some(None);
    }
    let floor = Floor::new((bits % 64) as u8)?;
    let dir = read_dir(bits / DIRECTION % 2);
    let next = Some(Stop { floor, dir });
    (stop_bits(&next) == bits).then_some(next)
}

fn reply_bits(reply: &Reply) -> u64
    ensures bits { result ≡ reply_bits reply.now }
    ensures in_range { IsReply reply.now }
    ensures small { result < 2 ^ 20 }
{
    match *reply {
        Reply::Car(car) => CODE + u64::from(car.get()),
        Reply::Stopped(next) => 2 * CODE + stop_bits(&next),
        Reply::Placed(next) => 3 * CODE + stop_bits(&next),
        Reply::Refused(reason) => 4 * CODE + u64::from(reason.number()),
        Reply::Unknown => 5 * CODE,
    }
}

fn read_bits_of_reply(bits: u64) -> Option<Reply>
    ensures { ReadsBack IsReply reply_bits bits result }
{
    let argument = bits % CODE;
    let reply = match bits / CODE {
        1 => Reply::Car(Letter::new((argument % 256) as u8)?),
        2 => Reply::Stopped(read_stop(argument)?),
        3 => Reply::Placed(read_stop(argument)?),
        4 => Reply::Refused(Reason::from_number((argument % 256) as u8)?),
        5 => Reply::Unknown,
        _ => return None,
    };
    (reply_bits(&reply) == bits).then_some(reply)
}

/// The word of an answer to the ask with this turn, 1 to 1,048,575, and this number.
pub fn reply_word(turn: u32, number: Number, reply: Reply) -> u64
    requires { (1 ≤ turn) × (turn < 2 ^ 20) }
    ensures word { IsWordOf IsReplyWord turn number (reply_word turn number reply) result }
    ensures in_range { IsReply reply }
{
    u64::from(turn) * TURN + u64::from(number.get()) * NUMBER + reply_bits(&reply)
}

/// The answer that a word spells; none for a word that spells no answer.
pub fn read_reply(word: u64) -> Option<Reply>
    ensures valid { IsSome result ↔ IsReplyWord word }
    ensures value { IfSome result (λ reply.
        word ≡ reply_word (turn_of word) (number_of word) reply) }
    ensures in_range { IfSome result IsReply }
    ensures known { (turn number : ℕ) (reply : Reply) → 1 ≤ turn → number < 2 ^ 24 → IsReply reply
        → word ≡ reply_word turn number reply → result ≡ Some reply }
{
    if turn_of(word) == 0 {
        return None;
    }
    read_bits_of_reply(word % NUMBER)
}

/// The turn of a word: how many asks its terminal had stored. 0 for the word before any.
pub fn turn_of(word: u64) -> u32
    ensures turn { result ≡ turn_of word }
    ensures in_range { result < 2 ^ 20 }
{
    (word / TURN) as u32
}
