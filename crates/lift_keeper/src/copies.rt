//! Registers copied, and batches taken into them.

ghost use Rattle.std.specs.Prelude.{◌≡◌, length, All, map};
ghost use Rattle.lift_base.specs.declared.history.Entry.{Entry as EntryValue};
ghost use Rattle.lift_base.specs.declared.history.Record.TheVariants.{Entry as EntryRecord};
ghost use Rattle.lift_base.specs.Records.{IsLawful};
ghost use Rattle.lift_register.specs.Prelude.{register_of, FitFrom, BelongsTo, IsBalanced};
ghost use Rattle.lift_register.specs.Prelude.{IsWellFormed};
ghost use Rattle.lift_journal.specs.Order.{IsEntry};

use arrayvec::ArrayVec;
use lift_base::{Entry, LEAST_HALF, MOST_ENTRIES, Record, push_some};
use lift_building::Building;
use lift_register::Register;

/// Another register with the same calls, last commands and count.
pub fn copy_of(building: &Building, register: &Register) -> Register
    requires belongs { BelongsTo building.now register.now }
    requires balanced { IsBalanced register.now }
    ensures value { result ≡ register.now }
    ensures lawful { IsWellFormed result }
{
    let mut copy = Register::empty(building.shape(LEAST_HALF));
    for place in 0..register.base_len() {
        copy.apply_base(building, &register.base_record(place));
    }
    copy
}

/// Takes these entries into a register, one after another.
pub fn apply_all(register: &mut Register, building: &Building, entries: &[Entry])
    requires fits { FitFrom building.now register.old entries.now }
    requires balanced { IsBalanced register.old }
    requires belongs { BelongsTo building.now register.old }
    ensures value { register.new ≡ register_of register.old entries.now }
    ensures lawful { IsWellFormed register.new }
    ensures balanced { IsBalanced register.new }
    ensures belongs { BelongsTo building.now register.new }
{
    let _done = register.done();
    for entry in entries {
        register.apply(building, entry);
    }
}

/// The records that keep these entries, in the place of others.
pub fn put_records(
    batch: &ArrayVec<Entry, MOST_ENTRIES>,
    records: &mut ArrayVec<Record, MOST_ENTRIES>,
)
    requires lawful { All (λ (e : EntryValue). IsLawful (EntryRecord e)) batch.now.items }
    ensures kept { records.new.items ≡ map EntryRecord batch.now.items }
    ensures length { length records.new.items ≡ length batch.now.items }
    ensures lawful { All IsLawful records.new.items }
    ensures entries { All IsEntry records.new.items }
{
    records.clear();
    for place in 0..batch.len() {
        push_some(records, Some(Record::Entry(batch[place])));
    }
}
