//! What is made before anybody waits.
//!
//! A clause binds only a call that returns. So all that a serving takes is made by `prepare`, which does;
//! what waits makes nothing of it.

ghost use Rattle.std.specs.Prelude.{◌≡◌, [], IfOk, IfErr};
ghost use Rattle.lift_parts.specs.Parts.{AreOfOne};
ghost use Rattle.lift_serve.specs.Ready.{IsFullLobby, IsNewGroup};

pub(crate) mod connections;
pub(crate) mod hall;
pub(crate) mod seating;
pub(crate) mod shortages;
pub(crate) mod terms;

use crate::pace::{Pace, Pager};
use crate::present::{PresentCars, ServedPolicy};
use crate::relaying::Parts;
use crate::socket::Listening;
use connections::Connections;
use hall::Hall;
use lift_base::MOST_CARS;
use lift_building::Building;
use lift_clerk::Clerk;
use lift_desk::{Desk, DeskParts};
use lift_disk::Disk;
use lift_keeper::{Keeper, Writer};
use lift_memory::Memory;
use lift_policy::{Dispatching, Policy};
use lift_relay::{Allocator, Flusher, Witness, split_for};
use seating::{Lobby, lobby_at, new_pagers};
use std::alloc::Global;
use std::sync::Mutex;
use terms::ServingTerms;

/// Where a group is served: a desk, where its sessions rest, and which cars are present. Whoever has a
/// group prepared lends a place for one.
#[derive(Drop)]
pub struct Room {
    desk: Desk,
    pagers: Vec<Pager>,
    present: PresentCars,
}

/// A group that is to be served: both parts of a clerk at a new desk, and what their serving takes. It
/// can't be let go, and only `serve` and whoever has a `K` take it. So whoever waits with it can serve at
/// its socket no other group, with no other policy, and no other number of connections.
pub struct ReadyGroup<'d, 'b, D: Disk + Drop, P: Policy + Drop, K: Drop> {
    allocator: Allocator<'d, 'b, ServedPolicy<'d, P>>,
    flusher: Flusher<'d, 'b, D, K>,
    lobby: Lobby<'d>,
    room: &'d Room,
    building: &'b Building,
    bound: ServingTerms,
    ghost of_one: { AreOfOne allocator flusher },
    ghost of_building: { building.now ≡ flusher.writer.plan },
}

impl<'d, 'b, D: Disk + Drop, P: Policy + Drop, K: Drop> ReadyGroup<'d, 'b, D, P, K> {
    /// Its serving begins, with who is notified that the device fails.
    #[inline(never)]
    pub(crate) fn begun<V: Witness + Drop>(
        self,
        alloc: Global,
        witness: V,
    ) -> (Parts<'d, 'b, D, ServedPolicy<'d, P>, K, V>, Hall<'d, 'b>)
        ensures allocator { result.0.allocator ≡ self.entry.allocator }
        ensures flusher { result.0.flusher ≡ self.entry.flusher }
        ensures witness { result.0.witness ≡ witness }
        ensures own { result.1.building.now ≡ result.0.flusher.writer.plan }
        ensures bound { result.1.bound ≡ self.entry.bound }
    {
        let ReadyGroup {
            allocator,
            flusher,
            lobby,
            room,
            building,
            bound,
        } = self;
        let hall = Hall {
            building,
            bound,
            lobby: Mutex::new(lobby),
            present: &room.present,
            pace: Pace::new(room.pagers.as_slice()),
            connections: Mutex::new(Connections::new(alloc)),
        };
        let parts = Parts {
            allocator,
            flusher,
            witness,
        };
        (parts, hall)
    }

    /// The writer of a group that nobody serves, as it is, for the key.
    #[inline(never)]
    pub fn unserved(self, key: K) -> Writer<'b, D>
        ensures { result ≡ self.entry.flusher.writer }
    {
        let ReadyGroup {
            allocator: _,
            flusher,
            lobby: _,
            room: _,
            building: _,
            bound: _,
        } = self;
        flusher.into_writer(key)
    }
}

/// Makes all that it takes to serve the keeper's building at this socket with this policy, until so many
/// connections have ended. The desk stands in `place`. The keeper comes back as it was where memory ran
/// out.
#[inline(never)]
pub fn prepare<'d, 'b: 'd, D: Disk + Drop, P: Policy + Drop, K: Drop>(
    alloc: Global,
    place: &'d mut Option<Room>,
    listening: Listening,
    sessions: u32,
    keeper: Keeper<'b, D>,
    policy: Dispatching<P>,
) -> Result<ReadyGroup<'d, 'b, D, P, K>, (Keeper<'b, D>, Memory)>
    requires { keeper.state.batch ≡ [] }
    // Both parts of a clerk at a new desk, over this keeper and with this policy.
    ensures group { IfOk result
        (λ group. IsNewGroup D.state policy keeper.entry group.allocator group.flusher) }
    // All seats of that desk wait in the lobby, with what the keeper's register knows of their terminals.
    ensures lobby { IfOk result
        (λ group. IsFullLobby keeper.entry.state.register group.flusher.desk group.lobby) }
    ensures terms { IfOk result
        (λ group. group.bound ≡ record { listener = listening; sessions = sessions }) }
    ensures refused { IfErr result (λ back. back.0 ≡ keeper.entry) }
{
    let building = keeper.building();
    let terminals = MOST_CARS + usize::from(building.kiosks());
    let _safe = keeper.safe_register();
    let DeskParts { desk, seats, clerk } = match Desk::open(alloc, terminals) {
        Ok(parts) => parts,
        Err(memory) => return Err((keeper, memory)),
    };
    let pagers = match new_pagers(alloc) {
        Ok(pagers) => pagers,
        Err(memory) => return Err((keeper, memory)),
    };
    let room: &'d Room = place.insert(Room {
        desk,
        pagers,
        present: PresentCars::new(),
    });
    let policy = ServedPolicy::new(policy, &room.present);
    let lobby = lobby_at(&room.desk, room.pagers.as_slice(), seats, keeper.register());
    match split_for(alloc, Clerk::new(&room.desk, clerk, keeper, policy)) {
        Ok((allocator, flusher)) => Ok(ReadyGroup {
            allocator,
            flusher,
            lobby,
            room,
            building,
            bound: ServingTerms::new(listening, sessions),
        }),
        Err((clerk, memory)) => {
            let (_seat, keeper, _policy) = clerk.into_parts();
            Err((keeper, memory))
        }
    }
}
