//! The order of the records in a chain.
ghost use Rattle.std.specs.Prelude.{◌≡◌, ◌↔◌, IsTrue, Some, None};
ghost use Rattle.lift_base.specs.declared.history.Last.{Last as LastCommand};
ghost use Rattle.lift_base.specs.declared.history.Record.TheVariants.{Row as RowRecord, Last as LastRecord};
ghost use Rattle.lift_journal.specs.Order.{IsEntry, MayFollow, IsInOrderAfter};
ghost use Rattle.lift_journal.specs.Order.{last_record_after, MayEnd};

use lift_base::{Record, Row, Terminal};

fn is_entry(content: &Record) -> bool
    ensures { IsTrue result ↔ IsEntry content.now }
{
    match *content {
        Record::Entry(_) => true,
        Record::Row(_) | Record::Last { .. } | Record::Done { .. } => false,
    }
}

fn may_follow_row(last: Row, next: &Record) -> bool
    ensures { IsTrue result ↔ MayFollow (Some (RowRecord last)) next.now }
{
    match *next {
        Record::Row(row) => last.car.get() <= row.car.get(),
        Record::Last { .. } | Record::Done { .. } => true,
        Record::Entry(_) => false,
    }
}

fn may_follow_last(terminal: Terminal, next: &Record) -> bool
    ensures { (last : LastCommand) → IsTrue result ↔ MayFollow (Some (LastRecord terminal last)) next.now }
{
    match *next {
        Record::Last {
            terminal: other,
            ..
        } => terminal.get() < other.get(),
        Record::Done { .. } => true,
        Record::Row(_) | Record::Entry(_) => false,
    }
}

/// Whether a record may stand right after that one.
#[inline(never)]
fn may_stand_after(last: &Record, next: &Record) -> bool
    ensures { IsTrue result ↔ MayFollow (Some last.now) next.now }
{
    match *last {
        Record::Row(row) => may_follow_row(row, next),
        Record::Last { terminal, .. } => may_follow_last(terminal, next),
        Record::Entry(_) | Record::Done { .. } => is_entry(next),
    }
}

/// The same. Most records are entries after entries.
fn may_come_next(last: &Record, next: &Record) -> bool
    ensures { IsTrue result ↔ MayFollow (Some last.now) next.now }
{
    is_entry(last) && is_entry(next) || may_stand_after(last, next)
}

fn may_follow(last: &Option<Record>, next: &Record) -> bool
    ensures { IsTrue result ↔ MayFollow last.now next.now }
{
    match last {
        None => true,
        Some(last) => may_stand_after(last, next),
    }
}

/// Whether these records may stand in this order, whatever stands before them.
#[inline(never)]
fn is_in_order(records: &[Record]) -> bool
    ensures { IsTrue result ↔ IsInOrderAfter None records.now }
{
    for k in 1..records.len() {
        if !may_come_next(&records[k - 1], &records[k]) {
            return false;
        }
    }
    true
}

/// Goes on after these records, if they may stand in this order after that one.
pub fn pass_records(last: &mut Option<Record>, records: &[Record]) -> bool
    ensures ordered { IsTrue result ↔ IsInOrderAfter last.old records.now }
    ensures passed { IsTrue result → last.new ≡ last_record_after last.old records.now }
{
    if records.is_empty() {
        return true;
    }
    if !may_follow(last, &records[0]) || !is_in_order(records) {
        return false;
    }
    *last = Some(records[records.len() - 1]);
    true
}

/// Whether a chain may end after this record.
pub fn may_end(last: &Option<Record>) -> bool
    ensures { IsTrue result ↔ MayEnd last.now }
{
    !matches!(*last, Some(Record::Row(_) | Record::Last { .. }))
}
