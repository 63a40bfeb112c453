//! The serving of a building on a socket.

ghost use Rattle.std.specs.Prelude.{◌≡◌, Option, Some, IsErr};
ghost use Rattle.std.specs.Thread.{IsSend, IsSync};
ghost use Rattle.lift_policy.specs.Present.{IsDispatched, any_cars};
ghost use Rattle.lift_relay.specs.Notified.{FailureNotified};
ghost use Rattle.lift_relay.specs.declared.pair.RunFault.{RunFault as Fault};
ghost use Rattle.lift_serve.specs.Open.{IsEndAt, IsReportOf};
ghost use Rattle.lift_serve.specs.Relaying.{HaveRunOrNot, HaveServed, ServingKeeps};

use crate::over::{Over, start_accepting};
use crate::prepared::ReadyGroup;
use crate::prepared::connections::{CountedEnd, ServingEnd};
use crate::prepared::hall::Hall;
use crate::prepared::shortages::start_session;
use crate::present::ServedPolicy;
use crate::relaying::{Parts, unrun};
use crate::socket::{Arrival, Connection};
use lift_disk::Disk;
use lift_parts::turns_keep_what_was_given;
use lift_policy::Policy;
use lift_relay::{Allocator, Flusher, Notifies, Witness, run};
use std::alloc::Global;
use std::sync::Wait;
use std::thread;
use std::thread::{Scope, Threads};
use std::time::{Clock, Duration};

/// What a serving, or a connection of it, was refused.
#[derive(Clone, Copy, PartialEq, Eq)]
pub enum ServeFault {
    /// A thread couldn't be started.
    Thread,
    /// A growth was refused.
    Memory,
}

/// How long the accepting of connections rests where it failed, ms.
const ACCEPT_REST_MS: u64 = 10;

/// How long where a connection was closed for it, ms.
const CLOSED_REST_MS: u64 = 1;

/// A connection's thread, after which the connection is counted as ended: it was attended to, or
/// the shortage at that is noted.
fn attend_connection<R: Wait + Clock>(
    rt: &R,
    alloc: Global,
    hall: &Hall<'_, '_>,
    connection: Connection,
) -> CountedEnd
    ensures { result.number ≡ connection.ticket }
{
    let number = connection.number();
    let attended = connection.attended(rt, alloc, hall);
    let mut connections = hall.connections.lock(rt);
    connections.leave(&hall.bound, number, attended)
}

/// Rests where an accept failed, as where descriptors have run out: whoever has waited longest with its
/// first line still to come is closed, which frees one.
fn rest_and_make_room<R: Wait + Clock>(rt: &R, hall: &Hall<'_, '_>) {
    let rest = if hall.connections.lock(rt).send_one_away() {
        CLOSED_REST_MS
    } else {
        ACCEPT_REST_MS
    };
    thread::sleep(rt, Duration::from_millis(rest));
}

/// Accepts connections, once both parts have a thread, until all have ended that were to end, or all are
/// given up.
fn accept_all<'s, 'd, 'b, E, R: Threads + Wait + Clock + Sync>(
    rt: &'s R,
    alloc: Global,
    scope: &Scope<'s, E>,
    hall: &'s Hall<'d, 'b>,
) -> Over
    ensures { IsEndAt hall.now.bound result }
{
    let both = match hall.wait_for_both(rt) {
        Ok(both) => both,
        Err(over) => return over,
    };
    for _ in rt.forever() {
        let Ok(arrival) = Arrival::at(&hall.bound, both) else {
            if let Some(over) = hall.is_over(rt) {
                return over;
            }
            rest_and_make_room(rt, hall);
            continue;
        };
        let entered = hall.connections.lock(rt).enter(alloc, &hall.bound, arrival);
        let (connection, awaited) = match entered {
            Ok(Some(entered)) => entered,
            Ok(None) => continue,
            Err(over) => return over,
        };
        let work = move || attend_connection(rt, alloc, hall, connection);
        if let Err((awaited, shortage)) = start_session(scope, awaited, work) {
            let number = awaited.number();
            let mut connections = hall.connections.lock(rt);
            awaited.counted(connections.leave(&hall.bound, number, Err(shortage)));
        }
    }
    unreachable!()
}

/// Accepts connections until that is over. Once each thread of one has ended, has both parts end.
fn welcome<R: Threads + Wait + Clock + Sync>(rt: &R, alloc: Global, hall: &Hall<'_, '_>) -> Over
    ensures { IsEndAt hall.now.bound result }
{
    let over = thread::scope(
        thread::scope_env(),
        rt,
        move |scope| -> Over
            requires { IsSync R.row }
        {
            let over = accept_all(rt, alloc, scope, hall);
            hall.see_off(rt, &over);
            over
        },
    );
    hall.pace.end_parts(&over);
    hall.over(rt)
}

/// Both parts run, the flusher on this thread, while connections are accepted on another. Where no
/// thread could be had for the accepting, the parts are as they were; where none could be had for
/// the allocator, all connections are given up.
fn run_beside<'d, 'b, R, D, P, K, V>(
    rt: &R,
    alloc: Global,
    hall: &Hall<'_, '_>,
    parts: Parts<'d, 'b, D, P, K, V>,
) -> (Parts<'d, 'b, D, P, K, V>, Over)
where
    R: Threads + Wait + Clock + Sync,
    D: Disk + Drop,
    P: Policy + Drop + Send,
    K: Notifies<V> + Drop,
    V: Witness + Drop,
    // Those are let in that speak for a terminal of the building that is served.
    requires own { hall.now.building.now ≡ parts.flusher.writer.plan }
    // All are given up where no thread could be had.
    ensures ran { (fault : Option Fault) × HaveRunOrNot (P.chooses parts.entry.allocator.policy)
        D.state parts.entry.allocator result.0.allocator parts.entry.flusher result.0.flusher fault
        × (fault ≡ Some (Fault.Spawn tt) → IsErr result.1) }
    ensures notified { FailureNotified V.is_notified parts.entry.flusher.writer.is_broken
        result.0.flusher.writer.is_broken parts.entry.witness result.0.witness }
    ensures over { IsEndAt hall.now.bound result.1 }
{
    thread::scope(
        thread::scope_env(),
        rt,
        move |scope| -> (Parts<D, P, K, V>, Over)
            requires { IsSync R.row × IsSend P.row }
            ensures ran { (fault : Option Fault)
                × HaveRunOrNot (P.chooses parts.entry.allocator.policy) D.state parts.entry.allocator
                result.0.allocator parts.entry.flusher result.0.flusher fault
                × (fault ≡ Some (Fault.Spawn tt) → IsErr result.1) }
            ensures notified { FailureNotified V.is_notified parts.entry.flusher.writer.is_broken
                result.0.flusher.writer.is_broken parts.entry.witness result.0.witness }
            ensures over { IsEndAt hall.entry.now.bound result.1 }
        {
            let work = move || -> Over
                ensures { IsEndAt hall.entry.now.bound result }
            { welcome(rt, alloc, hall) };
            let accepting = match start_accepting(scope, &parts, hall, work) {
                Ok(accepting) => accepting,
                Err(over) => return (unrun(parts), over),
            };
            let Parts {
                mut allocator,
                mut flusher,
                mut witness,
            } = parts;
            let pace = &hall.pace;
            let fault = run(rt, &mut allocator, &mut flusher, pace, &mut witness);
            let over = match Over::by(&hall.bound, fault) {
                Some(given_up) => {
                    hall.give_up(rt, &given_up);
                    let _accepted = accepting.join(rt);
                    given_up
                }
                None => accepting.join(rt),
            };
            let ran = Parts {
                allocator,
                flusher,
                witness,
            };
            (ran, over)
        },
    )
}

/// Serves a group that is ready on its listening socket until so many connections have ended, those that
/// were refused included: each has a thread of its own, beside the allocator's and the flusher's. It can
/// be refused a thread, and nothing else ends it: whatever a connection is refused ends that connection
/// alone, and a fault of the device ends nothing, since what is asked from then on is answered Unknown.
/// Both parts always come back; where no thread could be had they are as they were.
///
/// The flusher is for whoever has a `K`. So nothing that waits here can call its device, or answer
/// an ask, but by a turn of it, which does both by calls that return: whatever a serving waits for, and
/// whether or not it ever ends, it has had such turns alone. The turn in which the device first
/// fails notifies the witness, and no other turn does: also in a serving that never ends.
#[inline(never)]
pub fn serve<'d, 'b, R, D, P, K, V>(
    rt: &R,
    alloc: Global,
    group: ReadyGroup<'d, 'b, D, P, K>,
    witness: V,
) -> (Parts<'d, 'b, D, ServedPolicy<'d, P>, K, V>, ServingEnd)
where
    R: Threads + Wait + Clock + Sync,
    D: Disk + Drop,
    P: Policy + Drop + Send,
    K: Notifies<V> + Drop,
    V: Witness + Drop,
    // For the owner: what was safe and answered before is kept at each moment of each turn, and what the
    // turns gave from then on.
    ensures keeps { ServingKeeps D.state group.entry.flusher result.0.flusher }
    // For who tests it: both parts ran, each by its turns alone, and all that was sent is received and
    // answered; or no thread could be had, they are as they were, and that is reported.
    ensures ran { HaveServed (IsDispatched any_cars P.chooses) D.state group.entry.allocator
        result.0.allocator group.entry.flusher result.0.flusher result.1.fault }
    // The witness was notified that the device failed, once, where the flusher is broken that wasn't; else
    // it is as it was.
    ensures notified { FailureNotified V.is_notified group.entry.flusher.writer.is_broken
        result.0.flusher.writer.is_broken witness result.0.witness }
    // That connections have ended is reported only where as many have at this socket as were to;
    // and where that isn't reported a fault is.
    ensures reports { IsReportOf group.entry.bound result.1 }
{
    turns_keep_what_was_given::<D>();
    let (parts, hall) = group.begun(alloc, witness);
    let (ran, over) = run_beside(rt, alloc, &hall, parts);
    (ran, hall.into_end(over))
}
