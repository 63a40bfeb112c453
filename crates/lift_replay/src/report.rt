//! The lines of a report.

ghost use Rattle.std.specs.Prelude.{◌≡◌, ◌++◌, ◌∷◌, [], OnOk, codes, decimal, string_bytes};
ghost use Rattle.lift_base.specs.declared.command.Reply.TheVariants.{Car, Refused};
ghost use Rattle.lift_base.specs.Text.{letter_text, terminal_text, next_text, reply_text};
ghost use Rattle.lift_replay.specs.Report.{status_text, party_text, row_text, rows_text, car_text};
ghost use Rattle.lift_replay.specs.Report.{register_text, halt_text, told_text, heard_text};
ghost use Rattle.lift_replay.specs.Report.{cut_text, turn_text, cost_text, bad_text};
ghost use Rattle.lift_replay.specs.Report.{fault_text, refused_text, building_text, floors_text};

use crate::refused::{NoMemory, add, add_char};
use itoa::Buffer;
use lift_base::{
    Dir, FIRST_KIOSK, Floor, Halt, Letter, MOST_CARS, Number, Party, Reason, Reply, Row, Stop,
    Terminal,
};
use lift_building::BuildingFault;
use lift_register::Register;

/// Adds a number of any length, without a formatter.
#[inline(never)]
fn push_long(report: &mut String, number: u64) -> Result<(), NoMemory>
    ensures { OnOk result (string_bytes report.new ≡ string_bytes report.old ++ decimal number) }
{
    add(report, Buffer::new().format(number))
}

/// Adds a number. A turn reports several, and most of them have one digit: that is added without a
/// call.
#[inline(always)]
fn push_number(report: &mut String, number: u64) -> Result<(), NoMemory>
    ensures { OnOk result (string_bytes report.new ≡ string_bytes report.old ++ decimal number) }
{
    if number < 10 {
        return add_char(report, (b'0' + number as u8) as char);
    }
    push_long(report, number)
}

/// Adds the name of a terminal.
#[inline(always)]
fn push_terminal(report: &mut String, terminal: Terminal) -> Result<(), NoMemory>
    ensures { OnOk result (string_bytes report.new ≡ string_bytes report.old
        ++ terminal_text terminal) }
{
    let index = terminal.get();
    if index < FIRST_KIOSK {
        add_char(report, (b'A' + index) as char)
    } else {
        add_char(report, 'K')?;
        push_number(report, u64::from(index - FIRST_KIOSK))
    }
}

/// Adds the letter of a car.
pub(crate) fn push_letter(report: &mut String, car: Letter) -> Result<(), NoMemory>
    ensures { OnOk result (string_bytes report.new ≡ string_bytes report.old ++ letter_text car) }
{
    add_char(report, (b'A' + car.get()) as char)
}

/// Ends a terminal's line with the car that a call was given.
fn push_car(report: &mut String, car: Letter) -> Result<(), NoMemory>
    ensures { OnOk result (string_bytes report.new ≡ string_bytes report.old
        ++ (32 ∷ reply_text (Car car) ++ 10 ∷ [])) }
{
    add(report, " CAR ")?;
    push_letter(report, car)?;
    add_char(report, '\n')
}

/// Ends a terminal's line with the next stop of a car.
fn push_next(report: &mut String, next: Option<Stop>) -> Result<(), NoMemory>
    ensures { OnOk result (string_bytes report.new ≡ string_bytes report.old
        ++ (32 ∷ next_text next ++ 10 ∷ [])) }
{
    match next {
        None => add(report, " IDLE\n"),
        Some(Stop { floor, dir }) => {
            add(report, " NEXT ")?;
            push_number(report, u64::from(floor.get()))?;
            match dir {
                Dir::Up => add(report, " up\n"),
                Dir::Down => add(report, " down\n"),
            }
        }
    }
}

/// Ends a terminal's line with why a command is refused.
fn push_refusal(report: &mut String, reason: Reason) -> Result<(), NoMemory>
    ensures { OnOk result (string_bytes report.new ≡ string_bytes report.old
        ++ (32 ∷ reply_text (Refused reason) ++ 10 ∷ [])) }
{
    add(report, " NO ")?;
    push_number(report, u64::from(reason.number()))?;
    add_char(report, '\n')
}

/// Ends a terminal's line with an answer: a space before it, and a line feed. Each text has what
/// stands beside it, since a piece more costs as much as a longer one.
fn push_reply(report: &mut String, reply: Reply) -> Result<(), NoMemory>
    ensures { OnOk result (string_bytes report.new ≡ string_bytes report.old
        ++ (32 ∷ reply_text reply ++ 10 ∷ [])) }
{
    match reply {
        Reply::Car(car) => push_car(report, car),
        Reply::Stopped(next) | Reply::Placed(next) => push_next(report, next),
        Reply::Refused(reason) => push_refusal(report, reason),
        Reply::Unknown => add(report, " UNKNOWN\n"),
    }
}

fn status_word(aboard: bool) -> &'static str
    ensures { result.now ≡ status_text aboard }
{
    if aboard { "aboard" } else { "waiting" }
}

/// Adds the party, where it is more than one person.
fn push_party(report: &mut String, party: Party) -> Result<(), NoMemory>
    ensures { OnOk result (string_bytes report.new ≡ string_bytes report.old ++ party_text party) }
{
    let persons = party.get();
    if persons > 1 {
        add(report, " x")?;
        push_number(report, u64::from(persons))
    } else {
        Ok(())
    }
}

/// Adds whose call it is: its car, its kiosk and its number.
fn push_call(report: &mut String, row: &Row) -> Result<(), NoMemory>
    ensures { OnOk result (string_bytes report.new ≡ string_bytes report.old
        ++ (letter_text row.now.car ++ 32 ∷ terminal_text row.now.kiosk ++ 32
        ∷ decimal row.now.number)) }
{
    push_letter(report, row.car)?;
    add_char(report, ' ')?;
    push_terminal(report, row.kiosk)?;
    add_char(report, ' ')?;
    push_number(report, u64::from(row.number.get()))
}

/// Adds from where to where it goes, and whether it is aboard.
fn push_way(report: &mut String, row: &Row) -> Result<(), NoMemory>
    ensures { OnOk result (string_bytes report.new ≡ string_bytes report.old
        ++ (32 ∷ decimal row.now.from ++ 32 ∷ decimal row.now.to ++ 32
        ∷ status_text row.now.aboard)) }
{
    add_char(report, ' ')?;
    push_number(report, u64::from(row.from.get()))?;
    add_char(report, ' ')?;
    push_number(report, u64::from(row.to.get()))?;
    add_char(report, ' ')?;
    add(report, status_word(row.aboard))
}

/// Adds the line of an open call.
pub fn push_row(report: &mut String, row: &Row) -> Result<(), NoMemory>
    ensures { OnOk result (string_bytes report.new ≡ string_bytes report.old ++ row_text row.now) }
{
    push_call(report, row)?;
    push_way(report, row)?;
    push_party(report, row.party)?;
    add_char(report, '\n')
}

/// Adds the head of the open calls.
pub fn push_rows_head(report: &mut String, calls: usize, done: u32) -> Result<(), NoMemory>
    ensures { OnOk result (string_bytes report.new ≡ string_bytes report.old
        ++ rows_text calls done) }
{
    add(report, "rows ")?;
    push_number(report, calls as u64)?;
    add_char(report, ' ')?;
    push_number(report, u64::from(done))?;
    add_char(report, '\n')
}

/// Adds the open calls of a car, a line each.
fn push_rows_of(report: &mut String, register: &Register, car: Letter) -> Result<(), NoMemory>
    ensures { OnOk result (string_bytes report.new ≡ string_bytes report.old
        ++ car_text register.now car) }
{
    for row in register.open_rows(car) {
        push_row(report, row)?;
    }
    Ok(())
}

/// Adds the open calls by rising car, with their number and that of the done ones before them.
pub fn push_rows(report: &mut String, register: &Register) -> Result<(), NoMemory>
    ensures { OnOk result (string_bytes report.new ≡ string_bytes report.old
        ++ register_text register.now) }
{
    push_rows_head(report, register.open_count() as usize, register.done())?;
    for index in 0..MOST_CARS as u8 {
        match Letter::new(index) {
            Some(car) => push_rows_of(report, register, car)?,
            None => unreachable!(),
        }
    }
    Ok(())
}

/// Adds a halt to the line of a stop list.
pub fn push_halt(report: &mut String, halt: &Halt) -> Result<(), NoMemory>
    ensures { OnOk result (string_bytes report.new ≡ string_bytes report.old
        ++ halt_text halt.now) }
{
    add_char(report, ' ')?;
    push_number(report, u64::from(halt.pass.number()))?;
    add_char(report, ':')?;
    push_number(report, u64::from(halt.floor.get()))
}

/// Adds what a terminal heard.
#[inline(always)]
pub fn push_heard(
    report: &mut String,
    terminal: Terminal,
    number: Number,
    reply: Reply,
) -> Result<(), NoMemory>
    ensures { OnOk result (string_bytes report.new ≡ string_bytes report.old
        ++ heard_text terminal number reply) }
{
    push_terminal(report, terminal)?;
    add_char(report, ' ')?;
    push_number(report, u64::from(number.get()))?;
    push_reply(report, reply)
}

/// Adds that a terminal still waits.
pub fn push_waiting(report: &mut String, terminal: Terminal, number: Number) -> Result<(), NoMemory>
    ensures { OnOk result (string_bytes report.new ≡ string_bytes report.old
        ++ told_text terminal number (codes "WAITING")) }
{
    push_terminal(report, terminal)?;
    add_char(report, ' ')?;
    push_number(report, u64::from(number.get()))?;
    add(report, " WAITING\n")
}

/// Adds that a terminal has no turn left to ask with.
pub fn push_spent(report: &mut String, terminal: Terminal, number: Number) -> Result<(), NoMemory>
    ensures { OnOk result (string_bytes report.new ≡ string_bytes report.old
        ++ told_text terminal number (codes "SPENT")) }
{
    push_terminal(report, terminal)?;
    add_char(report, ' ')?;
    push_number(report, u64::from(number.get()))?;
    add(report, " SPENT\n")
}

/// Adds how many calls are open once the power has come back.
pub fn push_cut(report: &mut String, calls: u32) -> Result<(), NoMemory>
    ensures { OnOk result (string_bytes report.new ≡ string_bytes report.old ++ cut_text calls) }
{
    add(report, "cut ")?;
    push_number(report, u64::from(calls))?;
    add_char(report, '\n')
}

/// Adds what a turn took and accepted.
pub fn push_turn(report: &mut String, taken: usize, accepted: usize) -> Result<(), NoMemory>
    ensures { OnOk result (string_bytes report.new ≡ string_bytes report.old
        ++ turn_text taken accepted) }
{
    add(report, "turn ")?;
    push_number(report, taken as u64)?;
    add_char(report, ' ')?;
    push_number(report, accepted as u64)?;
    add_char(report, '\n')
}

/// Adds what a call would cost a car to the line of costs.
pub fn push_cost(report: &mut String, car: Letter, cost: u64) -> Result<(), NoMemory>
    ensures { OnOk result (string_bytes report.new ≡ string_bytes report.old
        ++ cost_text car cost) }
{
    add_char(report, ' ')?;
    push_letter(report, car)?;
    add_char(report, '=')?;
    push_number(report, cost)
}

/// Adds that a line is malformed.
pub fn push_bad(report: &mut String, line: usize) -> Result<(), NoMemory>
    ensures { OnOk result (string_bytes report.new ≡ string_bytes report.old ++ bad_text line) }
{
    add(report, "BAD ")?;
    push_number(report, line as u64)?;
    add_char(report, '\n')
}

/// Adds the fault in place of what a line shows: of a turn, or of one that would show what isn't
/// safe.
pub fn push_fault(report: &mut String, line: &str, fault: u8) -> Result<(), NoMemory>
    ensures { OnOk result (string_bytes report.new ≡ string_bytes report.old
        ++ fault_text line.now fault) }
{
    add(report, line)?;
    add(report, " FAULT ")?;
    push_number(report, u64::from(fault))?;
    add_char(report, '\n')
}

/// Adds to the line of costs why there are none.
pub fn push_refused(report: &mut String, reason: Reason) -> Result<(), NoMemory>
    ensures { OnOk result (string_bytes report.new ≡ string_bytes report.old
        ++ refused_text reason) }
{
    add(report, " NO ")?;
    push_number(report, u64::from(reason.number()))
}

/// Adds why a text is no building.
pub fn push_building_fault(report: &mut String, fault: &BuildingFault) -> Result<(), NoMemory>
    ensures { OnOk result (string_bytes report.new ≡ string_bytes report.old
        ++ building_text fault.now) }
{
    add(report, "BUILDING ")?;
    push_number(report, u64::from(fault.number()))?;
    if let BuildingFault::Detour(from, by, to) = fault {
        push_detour(report, *from, *by, *to)?;
    }
    add_char(report, '\n')
}

fn push_detour(report: &mut String, from: Floor, by: Floor, to: Floor) -> Result<(), NoMemory>
    ensures { OnOk result (string_bytes report.new ≡ string_bytes report.old
        ++ floors_text (BuildingFault.Detour from by to)) }
{
    add_char(report, ' ')?;
    push_number(report, u64::from(from.get()))?;
    add_char(report, ' ')?;
    push_number(report, u64::from(by.get()))?;
    add_char(report, ' ')?;
    push_number(report, u64::from(to.get()))
}
