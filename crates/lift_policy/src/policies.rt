//! The three policies, and one of them.
ghost use Rattle.std.specs.Prelude.{ℕ, ◌≡◌, ◌≢◌, ◌<◌, List, Contains, IfSome, IfNone, length};
ghost use Rattle.lift_building.specs.Plan.{Plan};
ghost use Rattle.lift_cost.specs.declared.call.NewCall.{NewCall as Call};
ghost use Rattle.lift_policy.specs.View.{ViewState, IsViewIn};
ghost use Rattle.lift_policy.specs.Choices.{IsFirstLeast, cost_at, total_cost_at, wait_at, open_at};
ghost use Rattle.lift_policy.specs.Choices.{IsEtdChoice, IsFewestOpen, IsShortestWait};
ghost use Rattle.lift_policy.specs.Choices.{IsShipped, IsShipped-member, policy_name};
ghost use Rattle.lift_policy.specs.declared.policies.Shipped.{Shipped as ShippedValue};
ghost use Rattle.lift_policy.specs.Least.{IsFirstLeastAt};

use crate::eligible::Eligible;
use crate::policy::Policy;
use crate::view::View;
use crate::waits::wait_of;
use arrayvec::ArrayVec;
use lift_base::{Letter, MOST_CARS};
use lift_building::Building;
use lift_cost::{NewCall, cost_of};
use lift_register::persons;

/// Picks the car at which the call adds least to the times of all persons, its own party with them.
#[derive(Clone, Copy)]
pub struct Etd;

/// Picks the car whose open calls are for the fewest persons.
#[derive(Clone, Copy)]
pub struct FewestOpen;

/// Picks the car that is first where the passengers wait.
#[derive(Clone, Copy)]
pub struct ShortestWait;

/// One of the three policies.
#[derive(Clone, Copy)]
pub enum Shipped {
    /// The least total cost.
    Etd(Etd),
    /// The fewest persons with open calls.
    FewestOpen(FewestOpen),
    /// The earliest arrival at the call's floor.
    ShortestWait(ShortestWait),
}

impl Shipped {
    /// The policy of a name: `etd`, `fewest` or `wait`.
    pub fn named(name: &str) -> Option<Shipped>
        ensures some { IfSome result (λ policy. name.now ≡ policy_name policy) }
        ensures none { IfNone result ((policy : ShippedValue) → name.now ≢ policy_name policy) }
    {
        if name == "etd" {
            Some(Shipped::Etd(Etd))
        } else if name == "fewest" {
            Some(Shipped::FewestOpen(FewestOpen))
        } else if name == "wait" {
            Some(Shipped::ShortestWait(ShortestWait))
        } else {
            None
        }
    }
}

/// What a policy measures of each eligible car, to pick the least.
trait Measure {
    ghost measures: { Self → Plan → ViewState → Call → ℕ → ℕ };

    fn measure(&self, building: &Building, view: &View, call: &NewCall, car: Letter) -> u64
        requires possible { IsViewIn building.now view.now }
        requires from { call.now.from < building.now.floors }
        requires to { call.now.to < building.now.floors }
        ensures { result ≡ measures self.now building.now view.now call.now car };
}

/// The place of the first least number.
fn first_least(numbers: &[u64]) -> usize
    requires { 0 < length numbers.now }
    ensures { IsFirstLeastAt numbers.now (length numbers.now) result }
{
    let mut best = 0;
    for i in 1..numbers.len() {
        if numbers[i] < numbers[best] {
            best = i;
        }
    }
    best
}

/// The car that measures least; of several such, the one with the lowest letter.
fn pick<M: Measure>(
    policy: &M,
    building: &Building,
    view: &View,
    call: &NewCall,
    eligible: &Eligible,
) -> Letter
    requires possible { IsViewIn building.now view.now }
    requires from { call.now.from < building.now.floors }
    requires to { call.now.to < building.now.floors }
    ensures { IsFirstLeast (M.measures policy.now building.now view.now call.now) eligible.now
        result }
{
    let letters = eligible.letters();
    if let [only] = letters {
        return *only;
    }
    let mut measures = ArrayVec::<u64, MOST_CARS>::new();
    for car in letters {
        measures.push(policy.measure(building, view, call, *car));
    }
    letters[first_least(&measures)]
}

impl Etd {
    /// What a call would add to the times in ms of all persons of a car, its own party with them;
    /// none before the car has reported where it is.
    pub fn cost(building: &Building, view: &View, call: &NewCall, car: Letter) -> Option<u64>
        requires possible { IsViewIn building.now view.now }
        requires from { call.now.from < building.now.floors }
        requires to { call.now.to < building.now.floors }
        ensures { result ≡ cost_at building.now view.now call.now car }
    {
        let _lawful = building.floors();
        match view.schedule(car) {
            Some(schedule) => Some(cost_of(building, schedule, *call)),
            None => None,
        }
    }
}

impl Measure for Etd {
    ghost measures = { λ _. total_cost_at };

    fn measure(&self, building: &Building, view: &View, call: &NewCall, car: Letter) -> u64 {
        Etd::cost(building, view, call, car).unwrap_or(0)
    }
}

impl Measure for FewestOpen {
    ghost measures = { λ _ _ view _. open_at view };

    fn measure(&self, _building: &Building, view: &View, _call: &NewCall, car: Letter) -> u64 {
        u64::from(persons(view.open_rows(car)))
    }
}

impl Measure for ShortestWait {
    ghost measures = { λ _. wait_at };

    fn measure(&self, building: &Building, view: &View, call: &NewCall, car: Letter) -> u64 {
        match view.schedule(car) {
            Some(schedule) => wait_of(building, schedule, call),
            None => 0,
        }
    }
}

impl Policy for Etd {
    ghost chooses = { λ _. IsEtdChoice };

    fn choose(&self, building: &Building, view: &View, call: NewCall, among: Eligible) -> Letter {
        pick(self, building, view, &call, &among)
    }

    ghost only_members = { λ policy plan view call eligible car h. h.member };
}

impl Policy for FewestOpen {
    ghost chooses = { λ _. IsFewestOpen };

    fn choose(&self, building: &Building, view: &View, call: NewCall, among: Eligible) -> Letter {
        pick(self, building, view, &call, &among)
    }

    ghost only_members = { λ policy plan view call eligible car h. h.member };
}

impl Policy for ShortestWait {
    ghost chooses = { λ _. IsShortestWait };

    fn choose(&self, building: &Building, view: &View, call: NewCall, among: Eligible) -> Letter {
        pick(self, building, view, &call, &among)
    }

    ghost only_members = { λ policy plan view call eligible car h. h.member };
}

impl Policy for Shipped {
    ghost chooses = { IsShipped };

    fn choose(&self, building: &Building, view: &View, call: NewCall, among: Eligible) -> Letter {
        match self {
            Shipped::Etd(policy) => policy.choose(building, view, call, among),
            Shipped::FewestOpen(policy) => policy.choose(building, view, call, among),
            Shipped::ShortestWait(policy) => policy.choose(building, view, call, among),
        }
    }

    ghost only_members = { IsShipped-member };
}
