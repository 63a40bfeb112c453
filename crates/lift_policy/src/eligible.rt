//! Which cars may take a call.
ghost use Rattle.std.specs.Prelude.{◌≡◌, ◌↔◌, ◌<◌, ◌≤◌, ◌==◌, [], ◌∷◌, if◌then◌else◌, length, filter};
ghost use Rattle.std.specs.Prelude.{IfSome, IsNone};
ghost use Rattle.std.specs.Option.{option_to_list};
ghost use Rattle.lift_policy.specs.Eligible.{can_take, is_eligible, eligible_cars, AreLetters};
ghost use Rattle.lift_policy.specs.Eligible.{AreEligible};
ghost use Rattle.lift_policy.specs.Present.{is_in, present_first};

use crate::presence::CarSet;
use crate::view::View;
use arrayvec::ArrayVec;
use lift_base::{Letter, MOST_CARS};
use lift_building::Building;
use lift_cost::NewCall;
use lift_register::{Register, persons};
use std::marker::Model;

/// Whether the car serves both floors, and has places for the party beside the persons of its open
/// calls.
pub(crate) fn can_take(building: &Building, register: &Register, call: NewCall, car: Letter) -> bool
    ensures { result ≡ can_take building.now register.now call car }
{
    building.serves(car, call.from)
        && building.serves(car, call.to)
        && persons(register.open_rows(car)) + u32::from(call.party.get())
            <= u32::from(building.places(car))
}

/// The cars that may take a call: one at least, by rising letter.
#[derive(Drop)]
pub struct Eligible {
    letters: ArrayVec<Letter, MOST_CARS>,
}

impl Model for Eligible {
    ghost use Rattle.std.specs.Prelude.{ℕ, List};
    ghost use Rattle.lift_policy.specs.Eligible.{AreLetters};

    ghost Value = { List ℕ };

    ghost view = { λ e. e.letters.items };

    ghost invariant = { λ e. AreLetters e.letters.items };
}

impl Eligible {
    /// The cars that may take a call now; none where there is no such car.
    #[tactic(auto, using(crate::specs::lemmas::Verdicts::are_eligible))]
    pub fn among(building: &Building, view: &View, call: NewCall) -> Option<Self>
        ensures some { IfSome result (λ eligible.
            eligible ≡ eligible_cars building.now view.now call) }
        ensures none { IsNone result ↔ (eligible_cars building.now view.now call ≡ []) }
        // So a policy may be asked of them.
        ensures each { IfSome result (AreEligible building.now view.now call) }
    {
        let letters = letters_among(building, view, &call);
        if letters.is_empty() {
            None
        } else {
            Some(Eligible { letters })
        }
    }

    /// The letters, each above those before it.
    pub fn letters(&self) -> &[Letter]
        ensures value { result.now ≡ self.now }
        ensures lawful { AreLetters self.now }
        ensures limit { length result.now ≤ MOST_CARS }
    {
        self.letters.as_slice()
    }

    /// Those that are present; where none of them is, all.
    #[tactic(auto, using(crate::specs::lemmas::Present::are_letters))]
    pub(crate) fn present_first(self, present: &CarSet) -> Eligible
        ensures { result ≡ present_first present.now self }
    {
        let found = present_among(self.letters(), present);
        if found.is_empty() {
            return self;
        }
        Eligible { letters: found }
    }
}

/// Those of some cars that are present.
fn present_among(letters: &[Letter], present: &CarSet) -> ArrayVec<Letter, MOST_CARS>
    requires { length letters.now ≤ MOST_CARS }
    ensures { result.items ≡ filter (is_in present.now) letters.now }
{
    let mut found = ArrayVec::new();
    for car in letters {
        if present.has(*car) {
            found.push(*car);
        }
    }
    found
}

/// The car with this index, where it may take a call.
fn eligible_at(building: &Building, view: &View, call: &NewCall, index: u8) -> Option<Letter>
    requires { index < MOST_CARS }
    ensures { option_to_list result
        ≡ (if is_eligible building.now view.now call.now index then index ∷ [] else []) }
{
    let car = Letter::new(index)?;
    if view.is_eligible(building, *call, car) {
        Some(car)
    } else {
        None
    }
}

/// The cars that may take a call, by rising letter.
fn letters_among(building: &Building, view: &View, call: &NewCall) -> ArrayVec<Letter, MOST_CARS>
    ensures { result.items ≡ eligible_cars building.now view.now call.now }
{
    let mut letters = ArrayVec::new();
    for index in 0..building.cars() {
        match eligible_at(building, view, call, index) {
            Some(car) => letters.push(car),
            None => {}
        }
    }
    letters
}
