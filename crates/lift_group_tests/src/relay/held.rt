//! Both parts on two threads, and the kiosks on a third: the device holds the first sync of the first
//! batch until the policy was asked for the second one, or fails it after so many looks.
ghost use Rattle.std.specs.Prelude.{◌≡◌};
ghost use Rattle.lift_disk.specs.Outcomes.{state_of};

use crate::gate::Below;
use crate::groups::{call, formatted, group, place};
use crate::relays::Relay;
use crate::terminals::{Terminals, Who, open};
use lift_base::{Dir, Letter, Reply};
use lift_building::Building;
use lift_clerk::{Clerk, begin_over};
use lift_cost::NewCall;
use lift_desk::DeskParts;
use lift_disk::{Disk, DiskFault, MemDisk};
use lift_keeper::Keeper;
use lift_policy::{Eligible, Etd, Policy, View};
use std::alloc::Global;
use std::process::Abort;
use std::sync::Wait;
use std::sync::atomic::{AtomicU64, Ordering};
use std::thread;
use std::thread::Threads;

/// The looks of a kiosk, and those of a sync that is held.
const LIMIT: u64 = 20_000_000;

/// What the threads see of one another.
#[derive(Drop)]
struct Shared {
    /// How often the policy was asked.
    asked: AtomicU64,
    /// 1 where the next sync is to be held, and where one was.
    armed: AtomicU64,
    held: AtomicU64,
}

impl Shared {
    fn new() -> Self {
        Shared {
            asked: AtomicU64::new(0),
            armed: AtomicU64::new(0),
            held: AtomicU64::new(0),
        }
    }

    /// Waits until the policy was asked so often, for this many looks. Whether it was.
    fn was_asked(&self, times: u64) -> bool {
        for _ in 0..LIMIT {
            if self.asked.load(Ordering::SeqCst) >= times {
                return true;
            }
            thread::yield_now();
        }
        false
    }

    /// Holds a sync, if it is armed, until the policy was asked twice. True where it wasn't within
    /// this many looks.
    fn is_held_in_vain(&self) -> bool {
        if self.armed.swap(0, Ordering::SeqCst) != 1 {
            return false;
        }
        self.held.store(1, Ordering::SeqCst);
        !self.was_asked(2)
    }
}

/// Names cars as `Etd` does, and counts how often it was asked.
#[derive(Drop)]
struct Counting<'a> {
    shared: &'a Shared,
}

impl<'a> Policy for Counting<'a> {
    ghost use Rattle.lift_policy.specs.Choices.{IsEtdChoice};

    ghost chooses = { λ _. IsEtdChoice };

    fn choose(
        &self,
        building: &Building,
        view: &View,
        call: NewCall,
        eligible: Eligible,
    ) -> Letter {
        self.shared.asked.fetch_add(1, Ordering::SeqCst);
        Etd.choose(building, view, call, eligible)
    }

    ghost only_members = { λ policy plan view call eligible car h. h.member };
}

/// Once armed it holds the next sync of a device in memory until a policy was asked twice, and
/// fails it after this many looks.
#[derive(Drop)]
struct Holding<'a> {
    inner: MemDisk,
    shared: &'a Shared,
}

impl<'a> Disk for Holding<'a> {
    ghost use Rattle.std.specs.Prelude.{refl};
    ghost use Rattle.std.proofs.Common.{inl};
    ghost use Rattle.lift_disk.specs.Memory.{no_other};
    ghost use Rattle.lift_disk.specs.Outcomes.{state_of};

    ghost state = { λ d. record (state_of d.inner) { is_inert = ⊥ } };

    ghost whole = { λ d _. refl };

    ghost counts_now = { λ d _ t left le now. inl now };

    ghost only_now = { λ d _ left since.
        no_other d.inner.history.first d.inner.history.calls (state_of d.inner).image
        d.inner.sectors.loose.items left since };

    ghost may_lose = { λ d _. d.inner.sectors.kept };

    fn sectors(&self) -> u32 {
        self.inner.sectors()
    }

    fn read(&mut self, sector: u32, buffer: &mut [u8; 512]) -> Result<(), DiskFault> {
        self.inner.read(sector, buffer)
    }

    fn write(&mut self, sector: u32, bytes: &[u8; 512]) -> Result<(), DiskFault> {
        self.inner.write(sector, bytes)
    }

    fn sync(&mut self) -> Result<(), DiskFault> {
        if self.shared.is_held_in_vain() {
            self.inner.spoil(None);
            return Err(DiskFault);
        }
        self.inner.sync()
    }
}

/// Both parts of a clerk that the test runs.
type Parts<'d, 'b, 's, 'p> = Relay<'d, 'b, Holding<'s>, Counting<'p>>;

/// Both cars say where they are, in one batch each of both parts.
fn placed<R: Wait>(rt: &R, terminals: &mut Terminals, relay: &mut Parts) -> bool {
    terminals.ask(Who::CarA, 0, place(0, Dir::Up))
        & terminals.ask(Who::CarB, 0, place(9, Dir::Down))
        & (relay.allocate(rt).taken == 2)
        & relay.flush(rt).is_ok()
}

/// The second kiosk asks once the policy was asked for the call of the first. Its terminal is the
/// lower one, so that the scan which asked the policy is past it: its call is of another batch.
/// Both hear, and the gate is closed. Whether each heard a letter.
fn both_call(terminals: &mut Terminals, shared: &Shared, gate: &Below) -> bool {
    let _ = terminals.ask(Who::Kiosk1, 1, call(2));
    let _ = shared.was_asked(1);
    let _ = terminals.ask(Who::Kiosk0, 1, call(5));
    let first = terminals.wait_for(Who::Kiosk1, LIMIT);
    let second = terminals.wait_for(Who::Kiosk0, LIMIT);
    gate.add(1);
    matches!(first, Some(Reply::Car(_))) & matches!(second, Some(Reply::Car(_)))
}

/// The gate is open beside the kiosks: both hear a car, three batches went through, a sync was held
/// and none failed.
fn runs_beside<R: Threads + Wait + Sync>(
    rt: &R,
    terminals: &mut Terminals,
    relay: &mut Parts,
    shared: &Shared,
) -> bool {
    let gate = Below::new(1);
    let (has_letters, fault) = thread::join(
        rt,
        || both_call(terminals, shared, &gate),
        || relay.run(rt, &gate),
    );
    has_letters
        & fault.is_none()
        & (shared.held.load(Ordering::SeqCst) == 1)
        & relay.has_moved(3, 3, false)
        & gate.was_told_of(3)
}

/// Whether both parts come through that, and both calls are open at the end.
fn is_decided<R: Threads + Wait + Abort + Sync>(rt: &R, alloc: Global) -> bool {
    let building = group(rt, alloc);
    let shared = Shared::new();
    let DeskParts { desk, seats, clerk } = open(rt, alloc);
    let mut terminals = Terminals::of(&desk, seats);
    let device = Holding {
        inner: formatted(rt, alloc, &building).into_inner(),
        shared: &shared,
    };
    let keeper = Keeper::open(device, &building).ok().expect(rt, "refused");
    let clerk = begin_over(&desk, clerk, keeper, Counting { shared: &shared });
    let mut relay = Relay::of(rt, alloc, clerk);
    let is_placed = placed(rt, &mut terminals, &mut relay);
    shared.armed.store(1, Ordering::SeqCst);
    let runs = runs_beside(rt, &mut terminals, &mut relay, &shared);
    let clerk = relay.joined(rt);
    is_placed & runs & (clerk.keeper().register().open_count() == 2)
}

#[test]
fn second_batch_is_decided_while_the_first_is_synced(rt: HostRuntime) {
    assert!(rt; is_decided(&rt, rt.alloc()));
}
