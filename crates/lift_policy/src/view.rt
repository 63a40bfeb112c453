//! What a policy sees.
ghost use Rattle.std.specs.Prelude.{◌≡◌, ◌≤◌, length, option_map};
ghost use Rattle.lift_base.specs.declared.travel.Position.{Position as PositionValue};
ghost use Rattle.lift_register.specs.Register.{rows_of};
ghost use Rattle.lift_policy.specs.View.{position_of, positions_of, AreSchedulesOf};
ghost use Rattle.lift_policy.specs.Eligible.{is_eligible};

use crate::eligible::can_take;
use lift_base::{Letter, MOST_CARS, MOST_ROWS, Position, Row};
use lift_building::Building;
use lift_cost::NewCall;
use lift_register::Register;
use lift_stops::Schedule;
use std::marker::Model;

/// What a policy sees: the open calls, and for each placed car its schedule of them.
#[derive(Drop)]
pub struct View<'a> {
    register: &'a Register,
    schedules: &'a [Option<Schedule>; MOST_CARS],
}

impl<'a> Model for View<'a> {
    ghost use Rattle.lift_policy.specs.View.{ViewState, positions_of, AreSchedulesOf};

    ghost Value = { ViewState };

    ghost view = { λ v. record {
      register = v.register.now;
      positions = positions_of v.schedules.now;
    } };

    ghost invariant = { λ v. AreSchedulesOf v.register.now v.schedules.now };
}

impl<'a> View<'a> {
    /// The schedules are those of the cars that have reported where they are, each with its car's
    /// open calls.
    pub fn new(register: &'a Register, schedules: &'a [Option<Schedule>; MOST_CARS]) -> Self
        requires { AreSchedulesOf register.now schedules.now }
        ensures { result ≡ record {
          register = register.now;
          positions = positions_of schedules.now;
        } }
    {
        View {
            register,
            schedules,
        }
    }

    /// The register that it shows: the open calls of all cars, and what each terminal was last
    /// answered.
    pub fn register(&self) -> &Register
        ensures { result.now ≡ self.now.register }
    {
        self.register
    }

    /// The open calls of a car, in order of allotment.
    pub fn open_rows(&self, car: Letter) -> &[Row]
        ensures value { result.now ≡ rows_of self.now.register car }
        ensures limit { length result.now ≤ MOST_ROWS }
    {
        let register = self.register;
        register.open_rows(car)
    }

    /// The schedule of a car, none before it has reported where it is.
    pub fn schedule(&self, car: Letter) -> Option<&Schedule>
        ensures { option_map (λ s. s.now) result
            ≡ option_map (λ (p : PositionValue).
            record { position = p; rows = rows_of self.now.register car })
            (position_of self.now.positions car) }
    {
        let schedules = self.schedules;
        match schedules.get(usize::from(car.get())) {
            Some(schedule) => schedule.as_ref(),
            None => None,
        }
    }

    /// Where a car is, none before it has reported that.
    pub fn position(&self, car: Letter) -> Option<Position>
        ensures { result ≡ position_of self.now.positions car }
    {
        let schedule = self.schedule(car)?;
        Some(schedule.position())
    }

    /// Whether a car may take a call: it has reported where it is, serves both floors, and has
    /// places for the party.
    pub fn is_eligible(&self, building: &Building, call: NewCall, car: Letter) -> bool
        ensures { result ≡ is_eligible building.now self.now call car }
    {
        self.position(car).is_some() && can_take(building, self.register, call, car)
    }
}
