//! Sessions of cars.

/// Places, stops, refusals, lines that are none, repeats, and answers that come late.
const LINES: &str = "
case a place, stops, refusals and a floor in no building
reply placed 0 up
reply stopped 63 down
reply stopped
reply refused 4
reply placed
car PLACE 0 up|STOP 1 0 up\r|STOP 2 63 down|STOP 3 64 up|PLACE 999 down|STOP 1 0 up|PLACE 9 down|STOP 9 1 up
wrote READY 0|NEXT 0 up|NEXT 63 down|IDLE|NO 1|NO 1|NO 4|IDLE|
ended closed 2
asked 0 place 0 up
asked 1 stop 0 up
asked 2 stop 63 down
asked 1 stop 0 up
asked 0 place 9 down
all
case a stop that is repeated leaves the last number, and so does Unknown
reply stopped
reply stopped
reply unknown
begins 7
car STOP 7 1 up|STOP 8 2 up|STOP 9 3 up|
wrote READY 7|IDLE|IDLE|UNKNOWN|
ended closed 8
case 15 lines that are none, and nothing is asked
begins 16777215
car PLACE 0|PLACE 0 left|PLACE 0 Up|PLACE 00 up|PLACE 1000 up|PLACE 1 0 up|STOP 0 up|STOP 16777216 0 up|STOP 01 0 up|STOP 1 0 up |STOP 1 0 up now|STOP 1 0  up|CALL 1 5|stop 1 0 up|^(|
wrote READY 16777215|BAD|BAD|BAD|BAD|BAD|BAD|BAD|BAD|BAD|BAD|BAD|BAD|BAD|BAD|BAD|
ended closed 16777215
all
case no answer in time; the session after the turn brings it in, and greets with its number
reply stopped
idle 5
lines 10
looks 1
reads 1000
begins 3
car STOP 4 1 up|STOP 4 1 up|
wrote READY 3|LATE|
ended late 3
car STOP 4 1 up|STOP 4 1 up|
wrote LATE|
ended late 3
turn
car 
wrote READY 4|
ended closed 4
";

pub(crate) fn lines() -> &'static str {
    LINES
}
