//! What a line may have a terminal ask: a car where it is or that it has made a stop, a kiosk a
//! call. How it is spelled, what it names of the building, and the command that it is.

ghost use Rattle.std.specs.Prelude.{◌≡◌, ◌<◌, ◌+◌, ◌∷◌, ◌↔◌, length, IsTrue, codes};
ghost use Rattle.lift_base.specs.lemmas.Texts.{texts};
ghost use Rattle.lift_replay.specs.Ask.{AreReadAsAsk, IsKnownAsk, asked_command};

use crate::parsing::{at_of, floor_of, kiosk_of};
use lift_base::text::{letter_of_word, number_of_word, party_of_words};
use lift_base::{
    Body, FIRST_KIOSK, Floor, Letter, MOST_CARS, Number, Party, Position, Stop, Terminal,
};
use lift_building::Building;
use lift_policy::Command;

/// What a line has a terminal ask.
#[derive(Clone, Copy, PartialEq, Eq)]
pub enum ScriptAsk {
    /// The car asks Place, with number 0.
    Place {
        car: Letter,
        position: Position,
    },
    /// The kiosk, 0 to 46, asks Call.
    Call {
        kiosk: u8,
        number: Number,
        floor: Floor,
        party: Party,
    },
    /// The car asks Stop.
    Stop {
        car: Letter,
        number: Number,
        stop: Stop,
    },
}

fn place_of(words: &[&str]) -> Option<ScriptAsk>
    ensures { AreReadAsAsk (codes "place" ∷ texts words.now) result }
{
    let [car, floor, dir] = words else {
        return None;
    };
    let car = letter_of_word(car)?;
    let (floor, dir) = at_of(floor, dir)?;
    let position = Position { floor, dir };
    Some(ScriptAsk::Place { car, position })
}

fn call_of(words: &[&str]) -> Option<ScriptAsk>
    ensures { AreReadAsAsk (codes "call" ∷ texts words.now) result }
{
    let [kiosk, number, floor, party @ ..] = words else {
        return None;
    };
    Some(ScriptAsk::Call {
        kiosk: kiosk_of(kiosk)?,
        number: number_of_word(number)?,
        floor: floor_of(floor)?,
        party: party_of_words(party)?,
    })
}

fn stop_of(words: &[&str]) -> Option<ScriptAsk>
    ensures { AreReadAsAsk (codes "stop" ∷ texts words.now) result }
{
    let [car, number, floor, dir] = words else {
        return None;
    };
    let car = letter_of_word(car)?;
    let number = number_of_word(number)?;
    let (floor, dir) = at_of(floor, dir)?;
    let stop = Stop { floor, dir };
    Some(ScriptAsk::Stop { car, number, stop })
}

/// What a line's words have a terminal ask, by the first one.
pub fn ask_of(first: &str, others: &[&str]) -> Option<ScriptAsk>
    ensures { AreReadAsAsk (first.now ∷ texts others.now) result }
{
    match first {
        "place" => place_of(others),
        "call" => call_of(others),
        "stop" => stop_of(others),
        _ => None,
    }
}

/// The terminal of a kiosk of the building.
fn terminal_of(building: &Building, kiosk: u8) -> Terminal
    requires { kiosk < length building.now.kiosks }
    ensures { result ≡ FIRST_KIOSK + kiosk }
{
    let _limit = building.kiosks();
    match Terminal::of_kiosk(kiosk) {
        Some(terminal) => terminal,
        None => unreachable!(),
    }
}

impl ScriptAsk {
    /// Whether the building has the car or the kiosk that asks.
    pub fn is_known(&self, building: &Building) -> bool
        ensures { IsTrue result ↔ IsKnownAsk building.now self.now }
    {
        match *self {
            ScriptAsk::Place { car, .. } => car.get() < building.cars(),
            ScriptAsk::Stop { car, .. } => car.get() < building.cars(),
            ScriptAsk::Call { kiosk, .. } => kiosk < building.kiosks(),
        }
    }

    /// The command that a terminal of the building asks.
    pub fn command(&self, building: &Building) -> Command
        requires { IsKnownAsk building.now self.now }
        ensures asked { result ≡ asked_command self.now }
        ensures inside { result.terminal < MOST_CARS + length building.now.kiosks }
    {
        match *self {
            ScriptAsk::Place { car, position } => Command {
                terminal: Terminal::of_car(car),
                number: Number::default(),
                body: Body::Place(position.floor, position.dir),
            },
            ScriptAsk::Stop { car, number, stop } => Command {
                terminal: Terminal::of_car(car),
                number,
                body: Body::Stop(stop.floor, stop.dir),
            },
            ScriptAsk::Call {
                kiosk,
                number,
                floor,
                party,
            } => Command {
                terminal: terminal_of(building, kiosk),
                number,
                body: Body::Call(floor, party),
            },
        }
    }
}
