//! One car with its calls: its halts, when it is there, and what calls cost, each by all ways that
//! there are.
ghost use Rattle.std.specs.Prelude.{◌≡◌, ◌<◌, ◌≤◌, length, true};
ghost use Rattle.lift_cost.specs.Calls.{AreWithin};

use crate::cases::{Came, call_of, floor_of, place_of, position_of};
use arrayvec::ArrayVec;
use lift_base::{Halt, Pass, Position, Row, Stop};
use lift_building::Building;
use lift_cost::{
    NewCall, cost_of, degradation, degradation_of, etd, etd_of, total_cost, waiting_row,
};
use lift_stops::{Schedule, next_stop, pass_of, stop_list, stop_of};

/// Where the car is and its calls, in two forms.
#[derive(Drop)]
pub(crate) struct Trip {
    position: Position,
    rows: ArrayVec<Row, 32>,
    schedule: Schedule,
}

/// A halt as `1:0`.
fn halt_of(word: &str) -> Option<Halt> {
    let (pass, floor) = word.split_once(':')?;
    let pass = match pass {
        "1" => Pass::First,
        "2" => Pass::Second,
        "3" => Pass::Third,
        _ => return None,
    };
    Some(Halt {
        pass,
        floor: floor_of(floor)?,
    })
}

fn is_within(floors: u8, row: &Row) -> bool
    ensures { result ≡ true → (row.now.from < floors) × (row.now.to < floors) }
{
    row.from.get() < floors && row.to.get() < floors
}

/// Whether a building with this many floors has those of the calls.
pub(crate) fn are_within(floors: u8, rows: &[Row]) -> bool
    ensures { result ≡ true → AreWithin floors rows.now }
{
    for row in rows {
        if !is_within(floors, row) {
            return false;
        }
    }
    true
}

/// The total cost and the degradation of a new call from nothing; none where a floor or a place is
/// missing.
pub(crate) fn plain_costs(
    building: &Building,
    position: &Position,
    rows: &[Row],
    call: &NewCall,
) -> Option<(u64, u64)> {
    let floors = building.floors();
    if position.floor.get() >= floors || call.from.get() >= floors || call.to.get() >= floors {
        return None;
    }
    if rows.len() > 32 || !are_within(floors, rows) {
        return None;
    }
    let cost = total_cost(building, *position, rows, *call);
    Some((cost, degradation(building, *position, rows, *call)))
}

/// The same, read from a schedule.
pub(crate) fn costs_in(
    building: &Building,
    schedule: &Schedule,
    call: &NewCall,
) -> Option<(u64, u64)> {
    let floors = building.floors();
    let position = schedule.position();
    if position.floor.get() >= floors || call.from.get() >= floors || call.to.get() >= floors {
        return None;
    }
    if schedule.rows().len() > 32 || !are_within(floors, schedule.rows()) {
        return None;
    }
    let cost = cost_of(building, schedule, *call);
    Some((cost, degradation_of(building, schedule, *call)))
}

/// A schedule with these calls, newly made; none where they are too many.
pub(crate) fn schedule_with(position: Position, rows: &[Row]) -> Option<Schedule> {
    let mut schedule = Schedule::new(position);
    for row in rows {
        if schedule.rows().len() > 32 {
            return None;
        }
        schedule.insert(*row);
    }
    Some(schedule)
}

/// The calls that are open after a stop.
pub(crate) fn rows_after(rows: &[Row], stop: &Stop) -> ArrayVec<Row, 32> {
    let mut left = ArrayVec::new();
    for row in rows {
        if let Some(row) = row.after(*stop) {
            let _ = left.try_push(row);
        }
    }
    left
}

fn push_numbers(numbers: &[u64], came: &mut Came) {
    for number in numbers {
        came.word(*number);
    }
}

impl Trip {
    /// The car is there, without calls.
    pub(crate) fn at(position: &Position) -> Self {
        Trip {
            position: *position,
            rows: ArrayVec::new(),
            schedule: Schedule::new(*position),
        }
    }

    /// `car waiting 0 5 x2` and `car aboard 0 5`: one call more.
    fn insert(&mut self, call: &NewCall, aboard: bool) -> Option<()> {
        let row = &Row {
            aboard,
            ..waiting_row(call)
        };
        if self.rows.len() >= 32 || self.schedule.rows().len() > 32 {
            return None;
        }
        self.rows.push(*row);
        self.schedule.insert(*row);
        Some(())
    }

    /// `car stops 0 up`: passengers leave and board, and the car is there.
    fn serve(&mut self, stop: &Stop) {
        self.schedule.serve(*stop);
        self.rows = rows_after(&self.rows, stop);
        self.position = Position {
            floor: stop.floor,
            dir: stop.dir,
        };
    }

    /// `car moves 7 up`: its calls stay.
    fn replace_position(&mut self, position: &Position) {
        self.position = *position;
        self.schedule.replace_position(*position);
    }

    /// `car halts`: by a list made from nothing, by the schedule, and by one newly made.
    fn halts(&self, came: &mut Came) -> Option<()> {
        let halts = stop_list(&self.rows, self.position);
        let anew = schedule_with(self.position, &self.rows)?;
        came.both_ways(self.schedule.halts() == halts);
        came.both_ways(anew.halts() == halts);
        came.halts(&halts);
        Some(())
    }

    /// `car halts-with 9 5`: with one call more.
    fn halts_with(&self, call: &NewCall, came: &mut Came) -> Option<()> {
        if self.schedule.rows().len() > 32 {
            return None;
        }
        came.halts(&self.schedule.halts_with(&waiting_row(call)));
        Some(())
    }

    /// `car calls`: how many of its calls wait, and how many are aboard.
    fn calls(&self, came: &mut Came) {
        let mut aboard = 0usize;
        for row in &self.rows {
            aboard = aboard.saturating_add(usize::from(row.aboard));
        }
        came.both_ways(self.schedule.rows() == self.rows.as_slice());
        came.word(self.rows.len().saturating_sub(aboard));
        came.word("waiting,");
        came.word(aboard);
        came.word("aboard");
    }

    /// `car arrivals`: when it is at each of its halts, in ms; `car arrivals 1:0 1:5`: at these.
    fn arrivals(&self, building: &Building, words: &[&str], came: &mut Came) -> Option<()> {
        let mut halts = stop_list(&self.rows, self.position);
        if !words.is_empty() {
            halts.clear();
        }
        for word in words {
            let _ = halts.try_push(halt_of(word)?);
        }
        push_numbers(&building.arrivals(self.position, &halts), came);
        Some(())
    }

    /// `car cost 0 3 x2`: the total cost of a new call, and how much of it is the delay of other
    /// passengers, in ms.
    fn cost(&self, building: &Building, call: &NewCall, came: &mut Came) -> Option<()> {
        let (cost, delay) = plain_costs(building, &self.position, &self.rows, call)?;
        came.both_ways(costs_in(building, &self.schedule, call) == Some((cost, delay)));
        push_numbers(&[cost, delay], came);
        Some(())
    }

    /// `car times`: until each of its calls' passengers are where they go, in ms, in order of
    /// allotment.
    fn times(&self, building: &Building, came: &mut Came) {
        for row in &self.rows {
            let time = etd(building, self.position, &self.rows, row);
            came.both_ways(etd_of(building, &self.schedule, row) == time);
            came.word(time);
        }
    }

    pub(crate) fn answer(
        &mut self,
        building: &Building,
        words: &[&str],
        came: &mut Came,
    ) -> Option<()> {
        let (verb, behind) = words.split_first()?;
        match *verb {
            "at" => *self = Trip::at(&position_of(behind)?),
            "waiting" => self.insert(&call_of(behind)?, false)?,
            "aboard" => self.insert(&call_of(behind)?, true)?,
            "stops" => {
                let (floor, dir) = place_of(behind)?;
                self.serve(&Stop { floor, dir });
            }
            "moves" => self.replace_position(&position_of(behind)?),
            _ => return self.asked(building, words, came),
        }
        Some(())
    }

    /// What is asked of the car. Its next stop, the pass of a call and the stop of a halt are
    /// answered here.
    fn asked(&self, building: &Building, words: &[&str], came: &mut Came) -> Option<()> {
        match words {
            ["halts"] => self.halts(came)?,
            ["halts-with", call @ ..] => self.halts_with(&call_of(call)?, came)?,
            ["next"] => {
                let next = next_stop(&self.rows, self.position);
                came.both_ways(self.schedule.next_stop() == next);
                came.stop(next);
            }
            ["pass", call @ ..] => {
                let row = waiting_row(&call_of(call)?);
                came.word(pass_of(&row, self.position).number());
            }
            ["stop-of", halt] => came.stop(Some(stop_of(halt_of(halt)?, self.position))),
            ["position"] => {
                let position = self.schedule.position();
                came.both_ways(position == self.position);
                came.place(position.floor, position.dir);
            }
            ["calls"] => self.calls(came),
            ["arrivals", halts @ ..] => self.arrivals(building, halts, came)?,
            ["cost", call @ ..] => self.cost(building, &call_of(call)?, came)?,
            ["times"] => self.times(building, came),
            _ => return None,
        }
        Some(())
    }
}
