//! Asking at a port, and waiting for the answer.

ghost use Rattle.std.specs.Prelude.{◌≡◌, None, Some};
ghost use Rattle.lift_kiosk.specs.Hearing.{WaitsForReply};
ghost use Rattle.lift_kiosk.specs.Session.{IsOf, PortDid, PortOpened};

use crate::outcome::{Opening, Outcome};
use crate::port::Port;
use lift_base::Reply;
use lift_desk::Ask;

/// Looks for the answer until it comes, at most so many times, and rests after each look that
/// found none.
fn wait_for_reply<P: Port>(port: &mut P, looks: u32) -> Option<Reply>
    ensures waits { WaitsForReply looks (P.view port.old) result (P.view port.new) }
    ensures stays { P.place port.new ≡ P.place port.old }
{
    for _ in 0..looks {
        if let Some(reply) = port.hear() {
            return Some(reply);
        }
        port.rest();
    }
    None
}

/// Asks, and waits for the answer.
pub fn carry_out<P: Port>(port: &mut P, ask: &Ask, looks: u32) -> Outcome
    requires { (P.view port.old).pending ≡ None }
    ensures did { PortDid looks (P.view port.old) result (P.view port.new) }
    ensures own { IsOf ask.now result }
    ensures stays { P.place port.new ≡ P.place port.old }
{
    let ask = *ask;
    match port.ask(ask.number, ask.body) {
        Ok(()) => match wait_for_reply(port, looks) {
            Some(reply) => Outcome::Answered(ask, reply),
            None => Outcome::NotAnswered(ask),
        },
        Err(_) => Outcome::Refused(ask),
    }
}

/// Brings in the answer to an ask of an earlier session, where it was not heard.
pub fn bring_in<P: Port>(port: &mut P, looks: u32) -> Opening
    ensures opened { PortOpened looks (P.view port.old) result (P.view port.new) }
    ensures stays { P.place port.new ≡ P.place port.old }
{
    match port.pending() {
        None => Opening::Free,
        Some(number) => match wait_for_reply(port, looks) {
            Some(reply) => Opening::BroughtIn(number, reply),
            None => Opening::StillWaits,
        },
    }
}
