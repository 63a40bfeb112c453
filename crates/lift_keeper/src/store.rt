//! A batch is made safe: by a checkpoint, where it lacks room, and an append.

ghost use Rattle.std.specs.Prelude.{◌≡◌, ◌≤◌, ◌+◌, List, length, map, All, false, IfErr, OnOk};
ghost use Rattle.std.specs.Prelude.{OnErr};
ghost use Rattle.lift_base.specs.declared.history.Entry.{Entry as EntryValue};
ghost use Rattle.lift_base.specs.declared.history.Record.TheVariants.{Entry as EntryRecord};
ghost use Rattle.lift_base.specs.Records.{IsLawful};
ghost use Rattle.lift_building.specs.Plan.{Plan};
ghost use Rattle.lift_disk.specs.Disk.{LeavesOnly, RunsOn};
ghost use Rattle.lift_register.specs.Prelude.{register_of, FitFrom};
ghost use Rattle.lift_journal.specs.Answers.{BreaksByFault};
ghost use Rattle.lift_journal.specs.Layout.{body_size};
ghost use Rattle.lift_journal.specs.Order.{IsEntry};
ghost use Rattle.lift_journal.specs.Steps.{Makes};
ghost use Rattle.lift_journal.specs.Armed.{AnswersAsArmed};
ghost use Rattle.lift_keeper.specs.Images.{IsImageOf, IsInDoubt};
ghost use Rattle.lift_keeper.specs.Writer.{HoldsRegister, Guards, FailsInCheckpoint, IsFailedCommit};
ghost use Rattle.lift_keeper.specs.Writer.{room_call_count};
ghost use Rattle.lift_keeper.specs.Writer.{room_write_count, room_used, room_second};

use arrayvec::ArrayVec;
use lift_base::{MOST_ENTRIES, Record};
use lift_disk::Disk;
use lift_journal::{Journal, JournalFault};
use lift_register::Register;

/// Makes room for a batch of this many records, by a checkpoint of the register where the journal
/// lacks it.
fn make_room<D: Disk>(
    journal: &mut Journal<D>,
    register: &Register,
    count: usize,
) -> Result<(), JournalFault>
    requires whole { journal.old.is_broken ≡ false }
    ensures any_moment { (plan : Plan)
        → Guards plan journal.old.shape journal.old.is_in_second_half journal.old.used register.now
        (D.state journal.old.device)
        → LeavesOnly (D.state journal.old.device) (D.state journal.new.device)
        (IsImageOf plan register.now) }
    ensures keeps { OnOk result ((plan : Plan)
        → Guards plan journal.old.shape journal.old.is_in_second_half journal.old.used register.now
        (D.state journal.old.device)
        → (D.state journal.new.device).is_honest
        → HoldsRegister plan journal.new.shape journal.new.is_in_second_half journal.new.used register.now
        (D.state journal.new.device)) }
    ensures room { OnOk result (journal.new.used + body_size count + 2 ≤ journal.new.shape.half) }
    ensures used { OnOk result (journal.new.used
        ≡ room_used register.now journal.old.used journal.old.shape.half count) }
    ensures second { OnOk result (journal.new.is_in_second_half
        ≡ room_second journal.old.is_in_second_half journal.old.used journal.old.shape.half count) }
    ensures runs { RunsOn (D.state journal.old.device) (D.state journal.new.device) }
    ensures made { Makes result
        (room_call_count register.now journal.old.used journal.old.shape.half count)
        (room_write_count register.now journal.old.used journal.old.shape.half count)
        (D.state journal.old.device) (D.state journal.new.device) }
    ensures armed { AnswersAsArmed result (D.state journal.old.device) (D.state journal.new.device) }
    ensures fails { OnErr result ((plan : Plan)
        → Guards plan journal.old.shape journal.old.is_in_second_half journal.old.used register.now
        (D.state journal.old.device)
        → (D.state journal.old.device).is_honest → (D.state journal.old.device).is_inert
        → FailsInCheckpoint plan journal.old.shape.half journal.old.is_in_second_half
        journal.old.used
        register.now (D.state journal.old.device) (D.state journal.new.device)) }
    ensures breaks { BreaksByFault D.state journal.old journal.new result }
    ensures causes { IfErr result (λ fault. fault ≡ JournalFault.Disk) }
{
    if journal.room(count) {
        return Ok(());
    }
    journal.replace(register)
}

/// Makes a batch safe after what the journal holds. A crash at any moment leaves the register from
/// before, or the one with the batch.
pub fn store<D: Disk>(
    journal: &mut Journal<D>,
    register: &Register,
    records: &ArrayVec<Record, MOST_ENTRIES>,
) -> Result<(), JournalFault>
    requires whole { journal.old.is_broken ≡ false }
    requires some { 1 ≤ length records.now.items }
    requires lawful { All IsLawful records.now.items }
    requires entries { All IsEntry records.now.items }
    ensures any_moment { (plan : Plan) (batch : List EntryValue)
        → records.now.items ≡ map EntryRecord batch → FitFrom plan register.now batch
        → Guards plan journal.old.shape journal.old.is_in_second_half journal.old.used register.now
        (D.state journal.old.device)
        → LeavesOnly (D.state journal.old.device) (D.state journal.new.device)
        (IsInDoubt plan register.now batch) }
    ensures keeps { OnOk result ((plan : Plan) (batch : List EntryValue)
        → records.now.items ≡ map EntryRecord batch → FitFrom plan register.now batch
        → Guards plan journal.old.shape journal.old.is_in_second_half journal.old.used register.now
        (D.state journal.old.device)
        → (D.state journal.new.device).is_honest
        → HoldsRegister plan journal.new.shape journal.new.is_in_second_half journal.new.used
        (register_of register.now batch) (D.state journal.new.device)) }
    ensures used { OnOk result (journal.new.used
        ≡ room_used register.now journal.old.used journal.old.shape.half (length records.now.items)
        + (body_size (length records.now.items) + 1)) }
    ensures second { OnOk result (journal.new.is_in_second_half
        ≡ room_second journal.old.is_in_second_half journal.old.used journal.old.shape.half
        (length records.now.items)) }
    ensures runs { RunsOn (D.state journal.old.device) (D.state journal.new.device) }
    ensures made { Makes result
        (room_call_count register.now journal.old.used journal.old.shape.half (length records.now.items)
        + (body_size (length records.now.items) + 4))
        (room_write_count register.now journal.old.used journal.old.shape.half (length records.now.items)
        + (body_size (length records.now.items) + 2))
        (D.state journal.old.device) (D.state journal.new.device) }
    ensures armed { AnswersAsArmed result (D.state journal.old.device) (D.state journal.new.device) }
    ensures fails { OnErr result ((plan : Plan) (batch : List EntryValue)
        → records.now.items ≡ map EntryRecord batch → FitFrom plan register.now batch
        → Guards plan journal.old.shape journal.old.is_in_second_half journal.old.used register.now
        (D.state journal.old.device)
        → (D.state journal.old.device).is_honest → (D.state journal.old.device).is_inert
        → IsFailedCommit plan journal.old.shape.half journal.old.is_in_second_half journal.old.used
        register.now batch (D.state journal.old.device) (D.state journal.new.device)) }
    ensures breaks { BreaksByFault D.state journal.old journal.new result }
    ensures causes { IfErr result (λ fault. fault ≡ JournalFault.Disk) }
{
    make_room(journal, register, records.len())?;
    journal.append(records)
}
