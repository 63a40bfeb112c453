//! Tests: a call is decided, and the last connection that counts ends, while the device holds the
//! sync of a call.
ghost use Rattle.std.specs.Prelude.{◌≡◌, []};

use crate::serve::group::{demo, formatted, opened};
use crate::serve::serving::served;
use crate::serve::words::{Words, is_set};
use lift_base::Letter;
use lift_building::Building;
use lift_cost::NewCall;
use lift_disk::{Disk, DiskFault, MemDisk};
use lift_policy::{Eligible, Etd, Policy, View};
use std::alloc::Global;
use std::net::{Net, TcpListener, TcpStream};
use std::process::Abort;
use std::sync::Wait;
use std::sync::atomic::Ordering;
use std::thread::Threads;
use std::time::Clock;

/// Kiosk 1 calls, and kiosk 0, of which another connection is refused meanwhile, once the sync for that
/// call is held. Both hear, and are gone.
const BOTH_CALL: &str = "\
3+
4+
3>KIOSK 1
3<READY 0
4>KIOSK 0
4<READY 0
1+
1>KIOSK 0
1<BUSY
1-
3>CALL 1 1
3s
4>CALL 1 2
3<CAR B
4<CAR A
3-
4-
";

/// Kiosk 0 calls, and the sync for its call is held when the last connection that counts ends, by when it
/// would have made all of its looks without their rests. The sync is released after that, and the kiosk has
/// called once more; it hears the letter for its first call, and is closed then: the second one isn't read.
const ONE_CALLS: &str = "\
3+
4+
3>KIOSK 0
3<READY 0
3>CALL 1 2
3s
0h
4-
0c
3>CALL 2 1
0r
3<CAR A
3x
";

/// Holds the first sync after a call until it is released, as by a second call. True where it
/// wasn't.
fn is_held_in_vain(words: &Words) -> bool {
    if words.asked.load(Ordering::SeqCst) == 0 || words.held.swap(1, Ordering::SeqCst) == 1 {
        return false;
    }
    !is_set(&words.released)
}

/// Names cars as `Etd` does, and counts how often it was asked. The second time releases the sync.
#[derive(Drop)]
struct Counting<'a> {
    words: &'a Words,
}

impl<'a> Policy for Counting<'a> {
    ghost use Rattle.lift_policy.specs.Choices.{IsEtdChoice};

    ghost chooses = { λ _. IsEtdChoice };

    fn choose(
        &self,
        building: &Building,
        view: &View,
        call: NewCall,
        eligible: Eligible,
    ) -> Letter {
        if self.words.asked.fetch_add(1, Ordering::SeqCst) == 1 {
            self.words.released.store(1, Ordering::SeqCst);
        }
        Etd.choose(building, view, call, eligible)
    }

    ghost only_members = { λ policy plan view call eligible car h. h.member };
}

/// A device in memory that holds one sync, and fails it where that was in vain.
#[derive(Drop)]
struct Holding<'a> {
    inner: MemDisk,
    words: &'a Words,
}

impl<'a> Disk for Holding<'a> {
    ghost use Rattle.std.specs.Prelude.{refl};
    ghost use Rattle.std.proofs.Common.{inl};
    ghost use Rattle.lift_disk.specs.Memory.{no_other};
    ghost use Rattle.lift_disk.specs.Outcomes.{state_of};

    ghost state = { λ d. record (state_of d.inner) { is_inert = ⊥ } };

    ghost whole = { λ d _. refl };

    ghost counts_now = { λ d _ t left le now. inl now };

    ghost only_now = { λ d _ left since.
        no_other d.inner.history.first d.inner.history.calls (state_of d.inner).image
        d.inner.sectors.loose.items left since };

    ghost may_lose = { λ d _. d.inner.sectors.kept };

    fn sectors(&self) -> u32 {
        self.inner.sectors()
    }

    fn read(&mut self, sector: u32, buffer: &mut [u8; 512]) -> Result<(), DiskFault> {
        self.inner.read(sector, buffer)
    }

    fn write(&mut self, sector: u32, bytes: &[u8; 512]) -> Result<(), DiskFault> {
        self.inner.write(sector, bytes)
    }

    fn sync(&mut self) -> Result<(), DiskFault> {
        if is_held_in_vain(self.words) {
            self.inner.spoil(None);
            return Err(DiskFault);
        }
        self.inner.sync()
    }
}

/// Serves until this many connections have ended, beside a script: how many calls are open after it.
fn open_after<
    R: Threads + Wait + Clock + Abort + Net<Listener = TcpListener, Stream = TcpStream> + Sync,
>(rt: &R, alloc: Global, sessions: u32, script: &str) -> u32 {
    let words = Words::new();
    let building = demo(rt, alloc);
    let disk = Holding {
        inner: formatted(rt, alloc, &building),
        words: &words,
    };
    let keeper = opened(rt, disk, &building);
    let policy = Counting { words: &words };
    let writer = served(rt, alloc, keeper, policy, sessions, script, &words).expect(
        rt,
        "a fault of serving",
    );
    let is_followed = words.followed.load(Ordering::SeqCst) == 1;
    assert!(rt; is_followed && !writer.is_broken());
    writer.register().open_count()
}

/// A call is decided while a sync is held, and a letter comes after the last end.
#[test]
fn letters_come_while_a_sync_is_held(rt: HostRuntime) {
    for (sessions, script, calls) in [(5, BOTH_CALL, 2), (3, ONE_CALLS, 1)] {
        assert!(rt;
            open_after(&rt, rt.alloc(), sessions, script) == calls,
            "{sessions}"
        );
    }
}
