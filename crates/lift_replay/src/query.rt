//! What a line may ask to be shown: the stop list of a car, what a call would cost, or the open
//! calls. How it is spelled, what it names of the building, and what it shows.

ghost use Rattle.std.specs.Prelude.{◌≡◌, ◌<◌, ◌++◌, ◌∷◌, ◌↔◌, length, true, IsTrue, OnOk, codes};
ghost use Rattle.std.specs.Prelude.{string_bytes};
ghost use Rattle.lift_base.specs.lemmas.Texts.{texts};
ghost use Rattle.lift_building.specs.Plan.{kiosk_floor_of};
ghost use Rattle.lift_policy.specs.Step.{view_of};
ghost use Rattle.lift_policy.specs.View.{IsViewIn};
ghost use Rattle.lift_policy.specs.Eligible.{is_eligible, eligible_cars};
ghost use Rattle.lift_policy.specs.Choices.{total_cost_at};
ghost use Rattle.lift_replay.specs.Report.{cost_text, halt_text};
ghost use Rattle.lift_replay.specs.Query.{AreReadAsQuery, IsKnownQuery, query_word, query_text};
ghost use Rattle.lift_replay.specs.Query.{all_text, stops_text, between_text};
ghost use Rattle.lift_replay.specs.Query.{costs_text, shown_text};

use crate::parsing::{floor_of, kiosk_of};
use crate::refused::{NoMemory, add, add_char};
use crate::report::{push_cost, push_fault, push_halt, push_letter, push_refused, push_rows};
use lift_base::text::{letter_of_word, party_of_words};
use lift_base::{Floor, Halt, Letter, Party, Reason};
use lift_building::Building;
use lift_cost::NewCall;
use lift_disk::FuseDisk;
use lift_keeper::Keeper;
use lift_policy::{Eligible, Etd, View};

/// The fault in place of what would show more than is safe: the journal is broken.
const BROKEN: u8 = 5;

/// What a line asks to be shown.
#[derive(Clone, Copy, PartialEq, Eq)]
pub enum Query {
    /// The stop list of a car.
    Stops {
        car: Letter,
    },
    /// What a call from a kiosk would cost each eligible car.
    Cost {
        kiosk: u8,
        floor: Floor,
        party: Party,
    },
    /// The open calls.
    Rows,
}

fn stops_of(words: &[&str]) -> Option<Query>
    ensures { AreReadAsQuery (codes "stops" ∷ texts words.now) result }
{
    let [car] = words else { return None };
    let car = letter_of_word(car)?;
    Some(Query::Stops { car })
}

fn cost_of(words: &[&str]) -> Option<Query>
    ensures { AreReadAsQuery (codes "cost" ∷ texts words.now) result }
{
    let [kiosk, floor, party @ ..] = words else {
        return None;
    };
    Some(Query::Cost {
        kiosk: kiosk_of(kiosk)?,
        floor: floor_of(floor)?,
        party: party_of_words(party)?,
    })
}

fn rows_of(words: &[&str]) -> Option<Query>
    ensures { AreReadAsQuery (codes "rows" ∷ texts words.now) result }
{
    if words.is_empty() {
        Some(Query::Rows)
    } else {
        None
    }
}

/// What a line's words ask to be shown, by the first one.
pub fn query_of(first: &str, others: &[&str]) -> Option<Query>
    ensures { AreReadAsQuery (first.now ∷ texts others.now) result }
{
    match first {
        "stops" => stops_of(others),
        "cost" => cost_of(others),
        "rows" => rows_of(others),
        _ => None,
    }
}

/// Halts in their order, or that there are none.
fn push_halts(report: &mut String, halts: &[Halt]) -> Result<(), NoMemory>
    ensures { OnOk result (string_bytes report.new ≡ string_bytes report.old
        ++ all_text halt_text halts.now) }
{
    if halts.is_empty() {
        return add(report, " -");
    }
    for halt in halts {
        push_halt(report, halt)?;
    }
    Ok(())
}

/// The stop list of a car, if it has reported where it is.
fn push_stops(report: &mut String, view: &View, car: Letter) -> Result<(), NoMemory>
    ensures { OnOk result (string_bytes report.new ≡ string_bytes report.old
        ++ stops_text view.now car) }
{
    add(report, "stops ")?;
    push_letter(report, car)?;
    match view.schedule(car) {
        None => add(report, " unplaced")?,
        Some(schedule) => push_halts(report, &schedule.halts())?,
    }
    add_char(report, '\n')
}

/// A call from a floor of the building, and the view by which the building's cars may take it.
#[derive(Drop)]
struct Offer<'a> {
    building: &'a Building,
    view: &'a View<'a>,
    call: &'a NewCall,
    ghost from: { call.now.from < building.now.floors },
}

impl<'a> Offer<'a> {
    /// What the call would cost a car that may take it.
    fn push_cost_of(&self, report: &mut String, car: Letter) -> Result<(), NoMemory>
        requires possible { IsViewIn self.now.building.now self.now.view.now }
        requires to { self.now.call.now.to < self.now.building.now.floors }
        requires eligible { is_eligible self.now.building.now self.now.view.now self.now.call.now car
            ≡ true }
        ensures { OnOk result (string_bytes report.new ≡ string_bytes report.old ++ cost_text car
            (total_cost_at self.now.building.now self.now.view.now self.now.call.now car)) }
    {
        match Etd::cost(self.building, self.view, self.call, car) {
            Some(cost) => push_cost(report, car, cost),
            None => unreachable!(),
        }
    }

    /// What the call would cost each car that may take it, or that there is none.
    fn push_costs(&self, report: &mut String) -> Result<(), NoMemory>
        requires possible { IsViewIn self.now.building.now self.now.view.now }
        requires to { self.now.call.now.to < self.now.building.now.floors }
        ensures { OnOk result (string_bytes report.new ≡ string_bytes report.old ++ all_text
            (λ car. cost_text car
            (total_cost_at self.now.building.now self.now.view.now self.now.call.now car))
            (eligible_cars self.now.building.now self.now.view.now self.now.call.now)) }
    {
        match Eligible::among(self.building, self.view, *self.call) {
            None => add(report, " -"),
            Some(eligible) => {
                for car in eligible.letters() {
                    self.push_cost_of(report, *car)?;
                }
                Ok(())
            }
        }
    }

    /// The costs, or the cause for which the call would be refused wherever the cars are.
    fn push_between(&self, report: &mut String) -> Result<(), NoMemory>
        requires { IsViewIn self.now.building.now self.now.view.now }
        ensures { OnOk result (string_bytes report.new ≡ string_bytes report.old
            ++ between_text self.now.building.now self.now.view.now self.now.call.now) }
    {
        if self.call.to.get() >= self.building.floors() {
            push_refused(report, Reason::NoSuchFloor)
        } else if self.call.to == self.call.from {
            push_refused(report, Reason::SameFloor)
        } else {
            self.push_costs(report)
        }
    }

    /// The line of what the call would cost.
    fn push_line(&self, report: &mut String) -> Result<(), NoMemory>
        requires { IsViewIn self.now.building.now self.now.view.now }
        ensures { OnOk result (string_bytes report.new ≡ string_bytes report.old
            ++ costs_text self.now.building.now self.now.view.now self.now.call.now) }
    {
        add(report, "cost")?;
        self.push_between(report)?;
        add_char(report, '\n')
    }
}

impl Query {
    /// Whether the building has the car or the kiosk that it names, if it names one.
    pub fn is_known(&self, building: &Building) -> bool
        ensures { IsTrue result ↔ IsKnownQuery building.now self.now }
    {
        match *self {
            Query::Stops { car } => car.get() < building.cars(),
            Query::Cost { kiosk, .. } => kiosk < building.kiosks(),
            Query::Rows => true,
        }
    }

    /// The word that it begins with.
    fn word(&self) -> &'static str
        ensures { result.now ≡ query_word self.now }
    {
        match *self {
            Query::Stops { .. } => "stops",
            Query::Cost { .. } => "cost",
            Query::Rows => "rows",
        }
    }

    /// What it shows of a group in a building.
    fn push(&self, report: &mut String, building: &Building, view: &View) -> Result<(), NoMemory>
        requires known { IsKnownQuery building.now self.now }
        requires possible { IsViewIn building.now view.now }
        ensures { OnOk result (string_bytes report.new ≡ string_bytes report.old
            ++ query_text building.now view.now self.now) }
    {
        match *self {
            Query::Stops { car } => push_stops(report, view, car),
            Query::Cost {
                kiosk,
                floor,
                party,
            } => {
                let from = building.kiosk_floor(kiosk);
                let call = NewCall {
                    from,
                    to: floor,
                    party,
                };
                let offer = Offer {
                    building,
                    view,
                    call: &call,
                };
                offer.push_line(report)
            }
            Query::Rows => push_rows(report, view.register()),
        }
    }

    /// What it shows of the calls that a keeper in the building has, or the fault of a broken
    /// journal: what it would show then isn't known to be safe.
    pub fn push_shown(
        &self,
        report: &mut String,
        building: &Building,
        keeper: &Keeper<'_, FuseDisk>,
    ) -> Result<(), NoMemory>
        requires known { IsKnownQuery building.now self.now }
        requires plan { keeper.now.writer.plan ≡ building.now }
        ensures { OnOk result (string_bytes report.new ≡ string_bytes report.old
            ++ shown_text keeper.now.writer.is_broken building.now (view_of keeper.now.state)
            self.now) }
    {
        if keeper.is_broken() {
            return push_fault(report, self.word(), BROKEN);
        }
        let _possible = keeper.register();
        self.push(report, building, &keeper.view())
    }
}
