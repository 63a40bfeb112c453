//! The clerk's side: one scan of all terminals.
ghost use Rattle.std.specs.Prelude.{◌≡◌, ℕ, ◌<◌, ◌≤◌, suc, length};
ghost use Rattle.lift_desk.specs.Seats.{IsClerkOf, view_at};

use lift_base::{Reply, Terminal};
use lift_desk::{ClerkSeat, Desk};

/// Looks once at each terminal, in rising order, and answers each ask that is new: the first 16
/// terminals by the car of their own number, the others by Unknown. The number of the asks
/// answered.
pub fn scan(desk: &Desk, clerk: &mut ClerkSeat) -> u8
    requires { IsClerkOf desk.now clerk.old }
    ensures stays { IsClerkOf desk.now clerk.new }
    ensures looks { (t : ℕ) → t < length desk.now
        → (view_at clerk.new t).looks ≡ suc (view_at clerk.old t).looks }
    ensures counts { result ≤ length desk.now }
{
    let mut answered = 0u8;
    for t in 0..desk.len() {
        let terminal = Terminal::new(t as u8).unwrap();
        if desk.look(clerk, terminal).is_some() {
            desk.answer(clerk, terminal, reply_to(terminal));
            answered += 1;
        }
    }
    answered
}

fn reply_to(terminal: Terminal) -> Reply {
    match terminal.car() {
        Some(car) => Reply::Car(car),
        None => Reply::Unknown,
    }
}
