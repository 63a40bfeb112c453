//! Sessions of kiosks.
ghost use Rattle.std.specs.Prelude.{◌≡◌};

use crate::scenes::AMPLE;
use crate::served::{only_seat, open};
use lift_base::Number;
use lift_base::text::{Counted, Watched};
use lift_desk::DeskParts;
use lift_kiosk::{DeskPort, LastLetter, Yield, session};
use std::alloc::Global;

/// Letters, refusals, lines that are none, repeats, and answers that come late.
const LINES: &str = "
case a letter, a floor in no building, a line that is none, a refusal, and a line that is cut off
reply car A
reply refused 2
kiosk CALL 1 5|CALL 2 64|HELLO|CALL 2 0|CALL 2 8
wrote READY 0|CAR A|NO 1|BAD|NO 2|
ended closed 1 A
asked 1 call 5
asked 2 call 0
all
case the largest number of a call is known to be in
reply car A
reply refused 4
begins 16777215 A
kiosk CALL 16777215 5|CALL 1 5|CALL 16777216 5|
wrote READY 16777215 A|CAR A|NO 4|BAD|
ended closed 16777215 A
case 26 lines that are none, and then one that gets its car
reply car P
kiosk | | CALL 1 5|CALL  1 5|CALL 1 5 |call 1 5|CALL 01 5|CALL 1 05|CALL +1 5|CALL -1 5|CALL 1|CALL 1 5 0|CALL 1 5 16|CALL 1 5 1 1|CALL 1 64 16|CALL 16777216 5|CALL 4294967297 5|CALL 1 1000|CALL 1 5\r\r|CALL 1 5\0|~|CALL 1 é|PLACE 0 up|................................................................|.................................................................|CALL 1 5                                                         |CALL 1 5|
wrote READY 0|BAD|BAD|BAD|BAD|BAD|BAD|BAD|BAD|BAD|BAD|BAD|BAD|BAD|BAD|BAD|BAD|BAD|BAD|BAD|BAD|BAD|BAD|BAD|BAD|BAD|BAD|CAR P|
ended closed 1 P
asked 1 call 5
all
case a repeated call gets its letter, and the last one stays
reply car C
reply car C
reply car D
begins 5 B
kiosk CALL 4 3|CALL 5 3 2|CALL 6 2 3|
wrote READY 5 B|CAR C|CAR C|CAR D|
ended closed 6 D
asked 4 call 3
asked 5 call 3 2
asked 6 call 2 3
all
case no answer in time; the session after the turn brings it in
reply car A
idle 5
lines 10
looks 1
reads 1000
kiosk CALL 1 5|CALL 1 5|
wrote READY 0|LATE|
ended late 0
kiosk CALL 1 5|CALL 1 5|
wrote LATE|
ended late 0
turn
kiosk 
wrote READY 1 A|
ended closed 1 A
case a line that ends as others do
reply car B
kiosk CALL 1 5\r|
wrote READY 0|CAR B|
ended closed 1 B
case nobody knows
reply unknown
kiosk CALL 9 63 15|
wrote READY 0|UNKNOWN|
ended closed 0
case an old number
reply refused 4
kiosk CALL 0 0 2|
wrote READY 0|NO 4|
ended closed 0
case a floor that is not served
reply refused 11
kiosk CALL 7 8|
wrote READY 0|NO 11|
ended closed 0
case the highest floor that is a line
reply unknown
kiosk CALL 1 999 15|
wrote READY 0|NO 1|
ended closed 0
";

pub(crate) fn lines() -> &'static str {
    LINES
}

/// Whether a session over a desk's own port, whose clerk doesn't turn, writes this, and the port
/// after it.
fn unanswered<'d>(alloc: Global, port: DeskPort<'d>, wanted: &[u8]) -> (bool, DeskPort<'d>)
    ensures { result.1.desk ≡ port.entry.desk }
{
    let mut port = port;
    let mut writer = Watched::new(Vec::new(alloc));
    let mut reader = Counted::new(b"HELLO\nCALL 1 5\n".as_slice());
    let last = LastLetter {
        number: Number::default(),
        letter: None,
    };
    let _late = session(&mut reader, &mut writer, &mut port, last, AMPLE);
    (writer.into_inner().as_slice() == wanted, port)
}

/// The seat of a session serves the next one, which finds the ask that waits.
#[test]
fn seats_serve_again(rt: HostRuntime) {
    let DeskParts {
        desk,
        mut seats,
        clerk: _,
    } = open(rt.alloc()).ok().expect(&rt, "memory");
    let seat = only_seat(&desk, &mut seats);
    let port = DeskPort::new(&desk, seat, Yield);
    let (is_first, port) = unanswered(rt.alloc(), port, b"READY 0\nBAD\nLATE\n");
    let seat = port.into_seat();
    let is_pending = seat.pending() == Number::new(1);
    let (is_second, _port) = unanswered(rt.alloc(), DeskPort::new(&desk, seat, Yield), b"LATE\n");
    assert!(rt; is_first && is_pending && is_second);
}
