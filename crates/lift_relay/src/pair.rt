//! Both parts on two threads.

ghost use Rattle.std.specs.Prelude.{◌≡◌, ◌≢◌, ◌<◌, ◌≤◌, List, [], length, true, false, Option, Some, None};
ghost use Rattle.std.specs.Prelude.{IfOk, option_map};
ghost use Rattle.lift_base.specs.declared.history.Entry.{Entry};
ghost use Rattle.lift_register.specs.Register.{RegisterState};
ghost use Rattle.lift_keeper.specs.declared.fault.KeeperFault.{KeeperFault};
ghost use Rattle.lift_world.specs.declared.event.Taken.{Taken};
ghost use Rattle.lift_parts.specs.Queued.{Queued};
ghost use Rattle.lift_parts.specs.Parts.{AreOfOne};
ghost use Rattle.lift_parts.specs.Turns.{AllocatorTurns, FlusherTurns, IsSending};
ghost use Rattle.lift_relay.specs.Pair.{ComesFrom, IsRun, HaveRun, AreSameParts};
ghost use Rattle.lift_relay.specs.Notified.{FailureNotified};
ghost use Rattle.lift_clerk.specs.History.{History};
ghost use Rattle.lift_parts.specs.History.{GoesOnTo, group_after};

use crate::allocator::Allocator;
use crate::flusher::Flusher;
use crate::gate::{AskingAllocator, Gate, GatedAllocator};
use crate::places::with_both;
use crate::refused::{NoThread, spawn};
use crate::tie::turns_preserve_parts;
use crate::witness::{Notifies, Witness};
use lift_disk::Disk;
use lift_keeper::KeeperFault;
use lift_parts::flushes_are_steps;
use lift_policy::Policy;
use std::snapshot::Snapshot;
use std::sync::Wait;
use std::sync::atomic::{AtomicBool, Ordering};
use std::thread;
use std::thread::{Promise, Threads};

/// Why a run of both parts was not all it should be.
#[derive(Clone, Copy, PartialEq, Eq)]
pub enum RunFault {
    /// The flusher's first fault in the call.
    Keeper(KeeperFault),
    /// The thread couldn't be started.
    Spawn(NoThread),
}

/// Turns while the gate goes on.
fn allocate<'d, 'b, R: Wait, G: Gate, P: Policy + Drop>(
    rt: &R,
    allocator: AskingAllocator<'d, 'b, P>,
    gate: &G,
) -> GatedAllocator<'d, 'b, P>
    ensures turns { AllocatorTurns
        (P.chooses allocator.entry.policy) allocator.entry result.allocator }
    ensures stopped { result.goes_on ≡ false }
    ensures closed { G.closed gate.now }
{
    let mut gated = allocator.begin(gate);
    for _ in rt.forever() {
        if !gated.goes_on() {
            return gated;
        }
        gated.turn(rt, gate);
    }
    unreachable!()
}

/// Tells the gate what a turn of the flusher did, before which this many batches had been received.
fn tell_of_flusher<R: Wait, G: Gate, D: Disk, K>(
    rt: &R,
    flusher: &Flusher<'_, '_, D, K>,
    received_before: u64,
    gate: &G,
)
    // How many batches were received, where the turn received one.
    ensures flushed { received_before < length flusher.now.end.received
        → G.knows_flushed gate.now (length flusher.now.end.received) }
    ensures idle { length flusher.now.end.received ≤ received_before
        → G.knows_flusher_idle gate.now }
{
    let received = flusher.received();
    if received > received_before {
        gate.has_flushed(rt, received);
    } else {
        gate.flusher_idles(rt);
    }
}

/// Turns while the gate goes on. The first fault, if there was one.
fn flush<R: Wait, G: Gate, D: Disk, K: Notifies<V>, V: Witness>(
    rt: &R,
    flusher: &mut Flusher<'_, '_, D, K>,
    gate: &G,
    witness: &mut V,
) -> Option<KeeperFault>
    // A run that never returns has told it too.
    requires told { G.knows_both_run gate.now }
    ensures turns { FlusherTurns D.state flusher.old None flusher.new result }
    ensures notified { FailureNotified V.is_notified
        flusher.old.writer.is_broken flusher.new.writer.is_broken witness.old witness.new }
    ensures closed { G.closed gate.now }
{
    let mut first = None;
    for _ in rt.forever() {
        if !gate.go_on() {
            break;
        }
        let received = flusher.received();
        first = first.or(flusher.turn(rt, witness).err());
        tell_of_flusher(rt, flusher, received, gate);
    }
    first
}

/// Sends the batch in hand and receives all that was sent, by turns of the flusher. Tells the first
/// fault of all turns, of which one may be there already.
fn drain<'d, 'b, R: Wait, D: Disk, P: Policy + Drop, K: Notifies<V>, V: Witness>(
    rt: &R,
    mut allocator: GatedAllocator<'d, 'b, P>,
    flusher: &mut Flusher<'_, '_, D, K>,
    mut first: Option<KeeperFault>,
    witness: &mut V,
) -> (Allocator<'d, 'b, P>, Option<RunFault>)
    requires closed { allocator.goes_on ≡ false }
    ensures allocator { AllocatorTurns (P.chooses allocator.entry.allocator.policy)
        allocator.entry.allocator result.0 }
    ensures flusher { (last : Option KeeperFault)
        × FlusherTurns D.state flusher.old first flusher.new last
        × (result.1 ≡ option_map (λ (fault : KeeperFault). RunFault.Keeper fault) last) }
    ensures notified { FailureNotified V.is_notified
        flusher.old.writer.is_broken flusher.new.writer.is_broken witness.old witness.new }
    // It takes nothing.
    ensures sends { IsSending allocator.entry.allocator result.0 }
    ensures nothing_in_hand { result.0.hand ≡ [] }
    ensures all_received { length result.0.end.sent ≡ length flusher.new.end.received }
{
    for _ in rt.forever() {
        let is_sent = allocator.send_hand(rt);
        if is_sent && allocator.sent() == flusher.received() {
            return (allocator.drained(flusher), first.map(RunFault::Keeper));
        }
        first = first.or(flusher.turn(rt, witness).err());
    }
    unreachable!()
}

/// What the allocating thread gives back: the part after its turns, or as it was.
type Allocating<'d, 'b, P> = Result<GatedAllocator<'d, 'b, P>, AskingAllocator<'d, 'b, P>>;

#[derive(Drop)]
struct OfPart<'d, 'b, P: Policy + Drop>(Snapshot<AskingAllocator<'d, 'b, P>>);

impl<'d, 'b, P: Policy + Drop> Promise<Allocating<'d, 'b, P>> for OfPart<'d, 'b, P> {
    ghost use Rattle.lift_relay.specs.Pair.{ComesFrom};

    ghost kept_by = { λ p r. ComesFrom (P.chooses p.0.value.policy) p.0.value r };
}

/// Both parts after their turns on two threads, once what was in hand is sent and all that was sent is
/// received. Where no thread could be made, they are as they were.
fn run_both<'x, 'd, 'b, R, G, D, P, K, V>(
    rt: &R,
    allocator: AskingAllocator<'d, 'b, P>,
    mut flusher: Flusher<'d, 'b, D, K>,
    gate: &G,
    witness: &'x mut V,
) -> (
    Flusher<'d, 'b, D, K>,
    (Allocator<'d, 'b, P>, (&'x mut V, Option<RunFault>)),
)
where
    R: Threads + Wait + Sync,
    G: Gate + Sync,
    D: Disk + Drop,
    P: Policy + Drop + Send,
    K: Notifies<V> + Drop,
    V: Witness + Drop,
    ensures same { result.1.1.0.ghost_name ≡ witness.entry.ghost_name }
    ensures ran { IsRun (P.chooses allocator.entry.policy) D.state allocator.entry result.1.0
        flusher.entry result.0 result.1.1.1 }
    ensures notified { FailureNotified V.is_notified flusher.entry.writer.is_broken
        result.0.writer.is_broken witness.entry.now result.1.1.0.now }
    ensures closed { result.1.1.1 ≢ Some (RunFault.Spawn tt) → G.closed gate.now }
{
    let may_run = AtomicBool::new(true);
    let flag = &may_run;
    thread::scope(
        thread::scope_env(),
        rt,
        move |scope| -> (Flusher<D, K>, (Allocator<P>, (&mut V, Option<RunFault>)))
            ensures same { result.1.1.0.ghost_name ≡ witness.entry.ghost_name }
            ensures ran { IsRun (P.chooses allocator.entry.policy) D.state allocator.entry
                result.1.0 flusher.entry result.0 result.1.1.1 }
            ensures notified { FailureNotified V.is_notified flusher.entry.writer.is_broken
                result.0.writer.is_broken witness.entry.now result.1.1.0.now }
            ensures closed { result.1.1.1 ≢ Some (RunFault.Spawn tt) → G.closed gate.entry.now }
        {
            let promise = OfPart(Snapshot::of(&allocator));
            let work = move || -> Allocating<P>
                ensures comes { ComesFrom (P.chooses allocator.entry.policy) allocator.entry result }
                ensures closed { IfOk result (λ _. G.closed gate.entry.now) }
            {
                if flag.load(Ordering::SeqCst) {
                    Ok(allocate(rt, allocator, gate))
                } else {
                    Err(allocator)
                }
            };
            match spawn(scope, promise, work) {
                Ok((child, both)) => {
                    gate.both_run(both);
                    let first = flush(rt, &mut flusher, gate, witness);
                    let ran = match child.join(rt) {
                        Ok(ran) => ran,
                        Err(idle) => allocate(rt, idle, gate),
                    };
                    let (allocator, fault) = drain(rt, ran, &mut flusher, first, witness);
                    (flusher, (allocator, (witness, fault)))
                }
                Err((unmade, no_thread)) => {
                    // The closure alone has the allocator, and hands it back unturned.
                    flag.store(false, Ordering::SeqCst);
                    match unmade() {
                        // (never: the flag is down, so it has not run; its gate was told nothing)
                        Ok(ran) => {
                            let (allocator, fault) = drain(rt, ran, &mut flusher, None, witness);
                            (flusher, (allocator, (witness, fault)))
                        }
                        Err(idle) => {
                            let fault = Some(RunFault::Spawn(no_thread));
                            (flusher, (idle.back(no_thread), (witness, fault)))
                        }
                    }
                }
            }
        },
    )
}

/// Runs both parts of one `split` while the gate goes on: the allocator's turns on a thread of its
/// own, the flusher's on this one. Each tells the gate after its turns how far it is, and waits
/// there. Once both have stopped, what is in hand is sent, and all that was sent is received and
/// made safe.
///
/// It is generic in the key of its parts. So it can have the flusher's seats answer by turns alone,
/// each of which ends, or waits for a batch, with nothing answered that isn't safe.
///
/// A device fault doesn't end it: the flusher's first is the answer, of which the witness is
/// notified in the very turn, and what was received from then on was answered Unknown. `Spawn`
/// where the thread couldn't be started; then it returns at once.
pub fn run<'d, 'b, R, G, D, P, K, V>(
    rt: &R,
    allocator: &mut Allocator<'d, 'b, P>,
    flusher: &mut Flusher<'d, 'b, D, K>,
    gate: &G,
    witness: &mut V,
) -> Option<RunFault>
where
    R: Threads + Wait + Sync,
    G: Gate + Sync,
    D: Disk + Drop,
    P: Policy + Drop + Send,
    K: Notifies<V> + Drop,
    V: Witness + Drop,
    requires of_one { AreOfOne allocator.old flusher.old }
    ensures refused { result ≡ Some (RunFault.Spawn tt)
        → (allocator.new ≡ allocator.old) × (flusher.new ≡ flusher.old) }
    ensures ran { result ≢ Some (RunFault.Spawn tt)
        → HaveRun (P.chooses allocator.old.policy) D.state allocator.old allocator.new flusher.old
        flusher.new result }
    // The witness was notified that the device failed, once, where it did first in the run; else it
    // is as it was.
    ensures notified { FailureNotified V.is_notified
        flusher.old.writer.is_broken flusher.new.writer.is_broken witness.old witness.new }
    // It ends only once the gate has said not to go on, or where no thread could be made.
    ensures closed { result ≢ Some (RunFault.Spawn tt) → G.closed gate.now }
    ensures broken { (fault : KeeperFault) → result ≡ Some (RunFault.Keeper fault)
        → flusher.new.writer.is_broken ≡ true }
    // They can be joined, or run again.
    ensures stay { AreSameParts allocator.old allocator.new flusher.old flusher.new }
    // What was received, and then what the line holds, is what was sent; after a run it holds
    // nothing.
    ensures queued { Queued allocator.new.end flusher.new.end }
    ensures received { result ≢ Some (RunFault.Spawn tt)
        → allocator.new.end.sent ≡ flusher.new.end.received }
    // Whatever has happened before, the group's history goes on by just the batches that the run
    // received.
    ensures history { (base : RegisterState) (safe : List Entry) (given : List Taken)
        → History base (group_after flusher.old) safe given
        → GoesOnTo flusher.old flusher.new base safe given }
{
    flushes_are_steps::<D>();
    turns_preserve_parts::<D, P>();
    let (witness, fault) = with_both(
        allocator,
        flusher,
        witness,
        |flusher: Flusher<D, K>, given: (Allocator<P>, &mut V)| -> (
            Flusher<D, K>,
            (Allocator<P>, (&mut V, Option<RunFault>)),
        )
            ensures same { result.1.1.0.ghost_name ≡ given.entry.1.ghost_name }
            ensures ran { IsRun (P.chooses given.entry.0.policy) D.state given.entry.0 result.1.0
                flusher.entry result.0 result.1.1.1 }
            ensures notified { FailureNotified V.is_notified flusher.entry.writer.is_broken
                result.0.writer.is_broken given.entry.1.now result.1.1.0.now }
            ensures closed { result.1.1.1 ≢ Some (RunFault.Spawn tt) → G.closed gate.entry.now }
        {
            let (allocator, witness) = given;
            run_both(rt, AskingAllocator::new(allocator), flusher, gate, witness)
        },
    );
    let _same = &*witness;
    flusher.compare(allocator);
    fault
}
