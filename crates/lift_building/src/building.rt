//! A building, once it is read.

ghost use Rattle.std.specs.Prelude.{◌≡◌, ◌≢◌, ◌<◌, ◌≤◌, ◌↔◌, ℕ, List, true, length, Ok, IfOk};
ghost use Rattle.std.specs.Prelude.{IfErr};
ghost use Rattle.lift_base.specs.History.{IsWithinLimits};
ghost use Rattle.toml.specs.View.{view};
ghost use Rattle.lift_building.specs.Plan.{Plan, HasLimits, IsBuilding, flight_ms, serves_floor};
ghost use Rattle.lift_building.specs.Plan.{places_of, kiosk_floor_of, shape_of};
ghost use Rattle.lift_building.specs.Reading.{plan_in};
ghost use Rattle.lift_building.specs.Arrivals.{arrivals_of, AreArrivals};
ghost use Rattle.lift_building.specs.Layout.{layout_view};
ghost use Rattle.lift_building.specs.Describes.{IsTextOf};
ghost use Rattle.lift_building.specs.Gives.{Gives, IsFaultOf, IsFirstFault};

use crate::detour::first_detour;
use crate::fault::BuildingFault;
use crate::layout::Layout;
use crate::reading::layout_in;
use crate::refused::document_of;
use arrayvec::ArrayVec;
use lift_base::{
    Floor, Halt, LEAST_HALF, Letter, MOST_CARS, MOST_FLOORS, MOST_HALTS, MOST_KIOSKS, MOST_PLACES,
    Position, Shape,
};
use std::alloc::Global;
use std::marker::Model;
use toml::Value;

/// What a document describes, before the search for detours.
fn layout_of(document: &Value) -> Result<Layout, BuildingFault>
    ensures given { Gives layout_view result (plan_in (view document.now)) }
    ensures limits { IfOk result (λ layout. HasLimits (layout_view layout)) }
    ensures no_memory { IfErr result (λ fault.
        (text : List ℕ) → fault ≢ BuildingFault.Memory text) }
{
    layout_in(document)
}

fn floor_at(number: usize) -> Floor
    requires { number < MOST_FLOORS }
    ensures { result ≡ number }
{
    Floor::new(number as u8).unwrap_or_default()
}

/// The fault of a flight that a stop on the way would make shorter.
fn detour(i: usize, j: usize, k: usize) -> BuildingFault
    requires from { i < MOST_FLOORS }
    requires by { j < MOST_FLOORS }
    requires to { k < MOST_FLOORS }
    ensures { result ≡ BuildingFault.Detour i j k }
{
    BuildingFault::Detour(floor_at(i), floor_at(j), floor_at(k))
}

/// A building: its floors, its cars and kiosks, and the times of its flights.
#[derive(Drop)]
pub struct Building {
    layout: Layout,
}

impl Model for Building {
    ghost use Rattle.lift_building.specs.Plan.{Plan, IsBuilding};
    ghost use Rattle.lift_building.specs.Layout.{layout_view};

    ghost Value = { Plan };

    ghost view = { λ b. layout_view b.layout };

    ghost invariant = { λ b. IsBuilding (layout_view b.layout) };
}

/// The building that a document describes, or its first fault. This takes no memory.
fn building_in(document: &Value) -> Result<Building, BuildingFault>
    ensures found { IfOk result (λ building.
        (plan_in (view document.now) ≡ Ok building) × IsBuilding building) }
    // A building's document is not refused.
    ensures taken { (plan : Plan) → plan_in (view document.now) ≡ Ok plan → IsBuilding plan
        → result ≡ Ok plan }
    ensures first { IfErr result (IsFaultOf (plan_in (view document.now))) }
    ensures no_memory { IfErr result (λ fault.
        (text : List ℕ) → fault ≢ BuildingFault.Memory text) }
{
    let layout = layout_of(document)?;
    match first_detour(&layout) {
        None => Ok(Building { layout }),
        Some((i, j, k)) => Err(detour(i, j, k)),
    }
}

impl Building {
    /// The building that a TOML text describes, or the first fault of the text in the order in
    /// which it is read: `floors`, `door_ms`, `kiosks`, `flight`, `cars`, and last the detours.
    ///
    /// # Errors
    /// `Memory` where no memory was left for the text's document; else the text's first fault.
    #[tactic(auto, using(crate::specs::lemmas::Again::text_is))]
    pub fn read(alloc: Global, text: &str) -> Result<Self, BuildingFault>
        // What is read is what the text says, and it is a building.
        ensures found { IfOk result (λ building. IsTextOf text.now building × IsBuilding building) }
        // A building's text is refused for want of memory alone.
        ensures only { (plan : Plan) → IsTextOf text.now plan → IsBuilding plan
            → IfErr result (λ fault. fault ≡ BuildingFault.Memory text.now) }
        // Want of memory is that of reading this very text.
        ensures memory { IfErr result (λ fault.
            (other : List ℕ) → fault ≡ BuildingFault.Memory other → other ≡ text.now) }
        // Each other fault is the first one of the text.
        ensures first { IfErr result (λ fault. fault ≢ BuildingFault.Memory text.now
            → IsFirstFault text.now fault) }
    {
        let document = document_of(alloc, text)?;
        building_in(&document)
    }

    /// The number of floors, 2 to 64.
    pub fn floors(&self) -> u8
        ensures value { result ≡ self.now.floors }
        ensures limit { (2 ≤ result) × (result ≤ MOST_FLOORS) }
        ensures lawful { IsBuilding self.now }
    {
        self.layout.floors as u8
    }

    /// The number of cars, 1 to 16.
    pub fn cars(&self) -> u8
        ensures value { result ≡ length self.now.cars }
        ensures limit { (1 ≤ result) × (result ≤ MOST_CARS) }
        ensures lawful { IsBuilding self.now }
    {
        self.layout.cars.len() as u8
    }

    /// The number of kiosks, 1 to 47.
    pub fn kiosks(&self) -> u8
        ensures value { result ≡ length self.now.kiosks }
        ensures limit { (1 ≤ result) × (result ≤ MOST_KIOSKS) }
        ensures lawful { IsBuilding self.now }
    {
        self.layout.kiosks.len() as u8
    }

    /// How long a stop takes before the next flight, 0 to 60,000 ms.
    pub fn door_ms(&self) -> u32
        ensures value { result ≡ self.now.door_ms }
        ensures limit { result ≤ 60000 }
        ensures lawful { IsBuilding self.now }
    {
        self.layout.door_ms
    }

    /// The time from leaving floor i to standing at floor j, at most 600,000 ms; 0 where the
    /// building lacks one of them.
    #[tactic(auto, using(crate::specs::lemmas::Times::flight_short))]
    pub fn flight(&self, i: Floor, j: Floor) -> u32
        ensures value { result ≡ flight_ms self.now i j }
        ensures limit { result ≤ 600000 }
        ensures lawful { IsBuilding self.now }
    {
        self.layout.flight(i.get() as usize, j.get() as usize)
    }

    /// Whether the building has this car and this floor, and the car serves it.
    #[tactic(auto, using(crate::specs::lemmas::Getters::serves_within))]
    pub fn serves(&self, car: Letter, floor: Floor) -> bool
        ensures value { result ≡ serves_floor self.now car floor }
        ensures within { result ≡ true → (car < length self.now.cars) × (floor < self.now.floors) }
        ensures lawful { IsBuilding self.now }
    {
        self.layout.serves(car.get() as usize, floor.get() as usize)
    }

    /// How many persons the car takes at a time, 1 to 32; 0 where the building lacks it.
    #[tactic(auto, using(crate::specs::lemmas::Getters::places_short, crate::specs::lemmas::Getters::places_there))]
    pub fn places(&self, car: Letter) -> u8
        ensures value { result ≡ places_of self.now car }
        ensures there { (1 ≤ result) ↔ (car < length self.now.cars) }
        ensures limit { result ≤ MOST_PLACES }
        ensures lawful { IsBuilding self.now }
    {
        self.layout.places(car.get() as usize)
    }

    /// The floor at which the kiosk with this index stands.
    pub fn kiosk_floor(&self, kiosk: u8) -> Floor
        requires { kiosk < length self.now.kiosks }
        ensures value { result ≡ kiosk_floor_of self.now kiosk }
        ensures within { result < self.now.floors }
        ensures lawful { IsBuilding self.now }
    {
        self.layout.kiosks[kiosk as usize]
    }

    /// The shape of a journal for this building, with so many sectors in half of its disk.
    #[tactic(auto, using(crate::specs::lemmas::Getters::shape_within))]
    pub fn shape(&self, half: u32) -> Shape
        ensures value { result ≡ shape_of self.now half }
        ensures limits { LEAST_HALF ≤ half → half ≤ 1000000 → IsWithinLimits result }
        ensures lawful { IsBuilding self.now }
    {
        Shape {
            floors: self.floors(),
            cars: self.cars(),
            kiosks: self.kiosks(),
            half,
        }
    }

    /// When a car that leaves the position's floor now reaches each halt, in order.
    pub fn arrivals(&self, position: Position, halts: &[Halt]) -> ArrayVec<u64, MOST_HALTS>
        requires { length halts.now ≤ MOST_HALTS }
        ensures value { result.items ≡ arrivals_of self.now position.floor halts.now }
        ensures laws { AreArrivals self.now position.floor halts.now result.items }
        ensures lawful { IsBuilding self.now }
    {
        let door_ms = u64::from(self.door_ms());
        let mut arrivals = ArrayVec::new();
        let mut floor = position.floor;
        let mut leaves = 0u64;
        for halt in halts {
            let arrives = leaves + u64::from(self.flight(floor, halt.floor));
            arrivals.push(arrives);
            floor = halt.floor;
            leaves = arrives + door_ms;
        }
        arrivals
    }
}
