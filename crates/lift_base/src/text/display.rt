//! How letters, directions, terminals and answers are printed.

ghost use Rattle.std.specs.Prelude.{Some};
ghost use Rattle.std.specs.Fmt.{DisplaysOnOk};
ghost use Rattle.lift_base.specs.Text.{letter_text, dir_text, terminal_text, next_text, reply_text};

use crate::checked::{Letter, Terminal};
use crate::command::Reply;
use crate::limits::FIRST_KIOSK;
use crate::travel::{Dir, Stop};
use std::fmt;

impl fmt::Display for Letter {
    ghost output = { λ car. Some (letter_text car) };

    fn fmt<W: fmt::Write>(&self, f: &mut fmt::Formatter<W>) -> fmt::Result {
        let letter = (b'A' + self.get()) as char;
        write!(f, "{letter}")
    }
}

impl fmt::Display for Dir {
    ghost output = { λ dir. Some (dir_text dir) };

    fn fmt<W: fmt::Write>(&self, f: &mut fmt::Formatter<W>) -> fmt::Result {
        match *self {
            Dir::Up => write!(f, "up"),
            Dir::Down => write!(f, "down"),
        }
    }
}

/// Cars are written A to P, kiosks K0 to K46.
impl fmt::Display for Terminal {
    ghost output = { λ terminal. Some (terminal_text terminal) };

    fn fmt<W: fmt::Write>(&self, f: &mut fmt::Formatter<W>) -> fmt::Result {
        let index = self.get();
        if index < FIRST_KIOSK {
            let letter = (b'A' + index) as char;
            write!(f, "{letter}")
        } else {
            let kiosk = index - FIRST_KIOSK;
            write!(f, "K{kiosk}")
        }
    }
}

/// The next stop of a car, as it is answered.
fn write_next<W: fmt::Write>(next: &Option<Stop>, f: &mut fmt::Formatter<W>) -> fmt::Result
    ensures { DisplaysOnOk W.write_str_gives f.old result (Some (next_text next.now)) f.new }
{
    match next {
        None => write!(f, "IDLE"),
        Some(stop) => {
            let floor = stop.floor.get();
            let dir = stop.dir;
            write!(f, "NEXT {floor} {dir}")
        }
    }
}

impl fmt::Display for Reply {
    ghost output = { λ reply. Some (reply_text reply) };

    fn fmt<W: fmt::Write>(&self, f: &mut fmt::Formatter<W>) -> fmt::Result {
        match self {
            Reply::Car(car) => {
                let car = *car;
                write!(f, "CAR {car}")
            }
            Reply::Stopped(next) => write_next(next, f),
            Reply::Placed(next) => write_next(next, f),
            Reply::Refused(reason) => {
                let number = reason.number();
                write!(f, "NO {number}")
            }
            Reply::Unknown => write!(f, "UNKNOWN"),
        }
    }
}
