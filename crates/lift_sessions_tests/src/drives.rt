//! Drives of cars.

/// Stops, refusals, limits, and an answer that comes late. A drive has two looks for each answer, and
/// nine asks where its case says no other number.
const TRIPS: &str = "
case the car takes its passengers at floor 0 to floor 5, and goes to each stop before it reports it
reply placed 0 up
reply stopped 5 up
reply stopped
reply placed
lines 4
drive
ended limit 2
asked 0 place 0 up
asked 1 stop 0 up
asked 2 stop 5 up
asked 0 place 5 up
halt 1 0 up
halt 2 5 up
all
stands 5
case a refusal ends a drive at once
reply placed 3 down
reply refused 11
begins 4
drive
ended refused 4 11
asked 0 place 0 up
asked 5 stop 3 down
halt 1 3 down
all
stands 3
case and so does Unknown
reply placed 3 down
reply unknown
begins 4
drive
ended unknown 4
asked 0 place 0 up
asked 5 stop 3 down
halt 1 3 down
all
stands 3
case also of a place
reply unknown
reply unknown
drive
ended unknown 0
asked 0 place 0 up
all
stands 0
case a drive ends where no number is left for its next stop
reply placed 3 down
reply stopped 3 down
begins 16777214
drive
ended limit 16777215
asked 0 place 0 up
asked 16777215 stop 3 down
halt 1 3 down
halt 2 3 down
all
stands 3
case likewise for its first stop
reply placed 3 down
reply unknown
begins 16777215
drive
ended limit 16777215
asked 0 place 0 up
halt 1 3 down
all
stands 3
case and after all asks that it may make
reply placed 3 down
reply stopped 3 down
lines 2
drive
ended limit 1
asked 0 place 0 up
asked 1 stop 3 down
halt 1 3 down
halt 2 3 down
all
stands 3
case an answer to another command names no stop
reply car A
reply placed
lines 2
drive
ended limit 0
asked 0 place 0 up
asked 0 place 0 up
all
stands 0
case no ask
reply unknown
reply unknown
lines 0
drive
ended limit 0
all
stands 0
case no answer in time; the next drive brings it in, and does not go to its stop
reply stopped 7 up
reply placed
idle 2
ask 3 stop 1 up
put 1
begins 2
lines 1
drive
ended late 2
drive
ended limit 3
asked 3 stop 1 up
asked 0 place 1 up
all
stands 1
";

pub(crate) fn trips() -> &'static str {
    TRIPS
}
