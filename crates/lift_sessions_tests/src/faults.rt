//! Sessions whose reader or writer fails or never ends, and sessions that come to a limit. A kiosk has
//! two calls, and a line that is none between them; a car is told its stop at floor 0, and is idle
//! after it.

/// A reader that fails at one of its calls: the lines before it were answered. The text comes again
/// and again.
const READS: &str = "
case a reader of a kiosk that fails after 0 to 8 calls
each 0 9
reply car A
reply car A
endless
gives #
kiosk CALL 1 5|HELLO|CALL 2 6|
wrote READY 0|
ended read 0
case a reader of a kiosk that fails after 9 to 14 calls
each 9 15
reply car A
reply car A
endless
gives #
kiosk CALL 1 5|HELLO|CALL 2 6|
wrote READY 0|CAR A|
ended read 1 A
case a reader of a kiosk that fails after 15 to 23 calls
each 15 24
reply car A
reply car A
endless
gives #
kiosk CALL 1 5|HELLO|CALL 2 6|
wrote READY 0|CAR A|BAD|
ended read 1 A
case a reader of a kiosk that fails after 24 to 29 calls
each 24 30
reply car A
reply car A
endless
gives #
kiosk CALL 1 5|HELLO|CALL 2 6|
wrote READY 0|CAR A|BAD|CAR A|
ended read 2 A
case a reader of a car that fails after 0 to 10 calls
each 0 11
reply placed 0 up
reply stopped
endless
gives #
car PLACE 0 up|HELLO|STOP 1 0 up|
wrote READY 0|
ended read 0
case a reader of a car that fails after 11 to 16 calls
each 11 17
reply placed 0 up
reply stopped
endless
gives #
car PLACE 0 up|HELLO|STOP 1 0 up|
wrote READY 0|NEXT 0 up|
ended read 0
case a reader of a car that fails after 17 to 28 calls
each 17 29
reply placed 0 up
reply stopped
endless
gives #
car PLACE 0 up|HELLO|STOP 1 0 up|
wrote READY 0|NEXT 0 up|BAD|
ended read 0
case a reader of a car that fails after 29 to 34 calls
each 29 35
reply placed 0 up
reply stopped
endless
gives #
car PLACE 0 up|HELLO|STOP 1 0 up|
wrote READY 0|NEXT 0 up|BAD|IDLE|
ended read 1
";

pub(crate) fn reads() -> &'static str {
    READS
}

/// A writer that fails, or takes nothing more, after so many bytes: these were written, and what was
/// heard counts.
const WRITES: &str = "
case a writer of a kiosk that takes nothing after 0 to 7 bytes
each 0 8
reply car A
reply car A
takes #
kiosk CALL 1 5|HELLO|CALL 2 6|
wrote READY 0|CAR A|BAD|CAR A|
ended write 0
case a writer of a kiosk that fails after 0 to 7 bytes
each 0 8
reply car A
reply car A
takes #
fails
kiosk CALL 1 5|HELLO|CALL 2 6|
wrote READY 0|CAR A|BAD|CAR A|
ended write 0
case a writer of a kiosk that takes nothing after 8 to 17 bytes
each 8 18
reply car A
reply car A
takes #
kiosk CALL 1 5|HELLO|CALL 2 6|
wrote READY 0|CAR A|BAD|CAR A|
ended write 1 A
case a writer of a kiosk that fails after 8 to 17 bytes
each 8 18
reply car A
reply car A
takes #
fails
kiosk CALL 1 5|HELLO|CALL 2 6|
wrote READY 0|CAR A|BAD|CAR A|
ended write 1 A
case a writer of a kiosk that takes nothing after 18 to 23 bytes
each 18 24
reply car A
reply car A
takes #
kiosk CALL 1 5|HELLO|CALL 2 6|
wrote READY 0|CAR A|BAD|CAR A|
ended write 2 A
case a writer of a kiosk that fails after 18 to 23 bytes
each 18 24
reply car A
reply car A
takes #
fails
kiosk CALL 1 5|HELLO|CALL 2 6|
wrote READY 0|CAR A|BAD|CAR A|
ended write 2 A
case a writer of a car that takes nothing after 0 to 21 bytes
each 0 22
reply placed 0 up
reply stopped
takes #
car PLACE 0 up|HELLO|STOP 1 0 up|
wrote READY 0|NEXT 0 up|BAD|IDLE|
ended write 0
case a writer of a car that fails after 0 to 21 bytes
each 0 22
reply placed 0 up
reply stopped
takes #
fails
car PLACE 0 up|HELLO|STOP 1 0 up|
wrote READY 0|NEXT 0 up|BAD|IDLE|
ended write 0
case a writer of a car that takes nothing after 22 to 26 bytes
each 22 27
reply placed 0 up
reply stopped
takes #
car PLACE 0 up|HELLO|STOP 1 0 up|
wrote READY 0|NEXT 0 up|BAD|IDLE|
ended write 1
case a writer of a car that fails after 22 to 26 bytes
each 22 27
reply placed 0 up
reply stopped
takes #
fails
car PLACE 0 up|HELLO|STOP 1 0 up|
wrote READY 0|NEXT 0 up|BAD|IDLE|
ended write 1
";

pub(crate) fn writes() -> &'static str {
    WRITES
}

/// So many lines, and so many calls of the reader.
const LIMITS: &str = "
case a kiosk with 0 lines and 100 calls
reply car A
reply car A
lines 0
reads 100
kiosk CALL 1 5|HELLO|CALL 2 6|
wrote READY 0|
ended limit 0
case a kiosk with 1 lines and 100 calls
reply car A
reply car A
lines 1
reads 100
kiosk CALL 1 5|HELLO|CALL 2 6|
wrote READY 0|CAR A|
ended limit 1 A
case a kiosk with 3 lines and 24 calls
reply car A
reply car A
lines 3
reads 24
kiosk CALL 1 5|HELLO|CALL 2 6|
wrote READY 0|CAR A|BAD|CAR A|
ended limit 2 A
case a kiosk with 4 lines and 24 calls
reply car A
reply car A
lines 4
reads 24
kiosk CALL 1 5|HELLO|CALL 2 6|
wrote READY 0|CAR A|BAD|CAR A|
ended limit 2 A
case a kiosk with 4 lines and 25 calls
reply car A
reply car A
lines 4
reads 25
kiosk CALL 1 5|HELLO|CALL 2 6|
wrote READY 0|CAR A|BAD|CAR A|
ended closed 2 A
case a kiosk with 4 lines and 23 calls
reply car A
reply car A
lines 4
reads 23
kiosk CALL 1 5|HELLO|CALL 2 6|
wrote READY 0|CAR A|BAD|
ended limit 1 A
case a kiosk with 4 lines and 8 calls
reply car A
reply car A
lines 4
reads 8
kiosk CALL 1 5|HELLO|CALL 2 6|
wrote READY 0|
ended limit 0
case a kiosk with 4 lines and 0 calls
reply car A
reply car A
lines 4
reads 0
kiosk CALL 1 5|HELLO|CALL 2 6|
wrote READY 0|
ended limit 0
case a car with 0 lines and 100 calls
reply placed 0 up
reply stopped
lines 0
reads 100
car PLACE 0 up|HELLO|STOP 1 0 up|
wrote READY 0|
ended limit 0
case a car with 1 lines and 100 calls
reply placed 0 up
reply stopped
lines 1
reads 100
car PLACE 0 up|HELLO|STOP 1 0 up|
wrote READY 0|NEXT 0 up|
ended limit 0
case a car with 3 lines and 29 calls
reply placed 0 up
reply stopped
lines 3
reads 29
car PLACE 0 up|HELLO|STOP 1 0 up|
wrote READY 0|NEXT 0 up|BAD|IDLE|
ended limit 1
case a car with 4 lines and 29 calls
reply placed 0 up
reply stopped
lines 4
reads 29
car PLACE 0 up|HELLO|STOP 1 0 up|
wrote READY 0|NEXT 0 up|BAD|IDLE|
ended limit 1
case a car with 4 lines and 30 calls
reply placed 0 up
reply stopped
lines 4
reads 30
car PLACE 0 up|HELLO|STOP 1 0 up|
wrote READY 0|NEXT 0 up|BAD|IDLE|
ended closed 1
case a car with 4 lines and 28 calls
reply placed 0 up
reply stopped
lines 4
reads 28
car PLACE 0 up|HELLO|STOP 1 0 up|
wrote READY 0|NEXT 0 up|BAD|
ended limit 0
";

pub(crate) fn limits() -> &'static str {
    LIMITS
}

/// The text of each reader comes again and again, and a limit ends the session.
const ENDLESS: &str = "
case a line without an end
kiosk #
wrote READY 0|
ended limit 0
case lines without end
lines 3
looks 2
reads 100
kiosk |
wrote READY 0|BAD|BAD|BAD|
ended limit 0
case a car's line without an end
lines 3
looks 2
reads 100
car #
wrote READY 0|
ended limit 0
case its lines without end
lines 3
looks 2
reads 100
car |
wrote READY 0|BAD|BAD|BAD|
ended limit 0
case commands without end
reply placed 0 up
reply stopped
lines 3
looks 2
reads 100
car PLACE 0 up|
wrote READY 0|NEXT 0 up|IDLE|UNKNOWN|
ended limit 0
";

pub(crate) fn endless() -> &'static str {
    ENDLESS
}

/// A long line, and a seat whose turns run out.
const LONG: &str = "
case a session takes a line of a million bytes as one
reply car A
reply car A
filled 900000
kiosk |CALL 1 5|
wrote READY 0|BAD|CAR A|
ended closed 1 A
case after 1,048,575 asks no turn is left, for lines of kiosks and for lines of cars
used 1048575
kiosk HELLO|CALL 1 64|CALL 1 5|CALL 1 5|
wrote READY 0|BAD|NO 1|SPENT|
ended spent 0
car HELLO|PLACE 64 up|STOP 1 5 up|STOP 1 5 up|
wrote READY 0|BAD|NO 1|SPENT|
ended spent 0
";

pub(crate) fn long() -> &'static str {
    LONG
}
