//! Where a formatted device goes on: it is synced and read here, and never written.
ghost use Rattle.std.specs.Prelude.{ℕ, ◌≡◌, ◌⊎◌, ◌≤◌, ◌<◌, ◌+◌, ◌-◌, ◌*◌, ◌++◌, [], ◌∷◌, IsErrOf};
ghost use Rattle.std.specs.Prelude.{IfOk, IfErr, OnOk, OnErr, List};
ghost use Rattle.lift_base.specs.declared.history.Shape.{Shape as ShapeValue};
ghost use Rattle.lift_base.specs.History.{IsWithinLimits};
ghost use Rattle.lift_disk.specs.Disk.{IsSynced, Image, MayLeave};
ghost use Rattle.lift_journal.specs.Layout.{Batch, Holds, IsStamped, start_of};
ghost use Rattle.lift_journal.specs.Journal.{HasNextPlace, StandsAt};
ghost use Rattle.lift_journal.specs.Steps.{Examines};
ghost use Rattle.lift_journal.specs.Walk.{IsDamagedAt};
ghost use Rattle.lift_journal.specs.Opening.{RefusedFor, FixesImage};
ghost use Rattle.lift_journal.specs.ChainStep.{IsOfChain, IsOfStamp};
ghost use Rattle.lift_journal.specs.Found.{FindsPlace};
ghost use Rattle.lift_journal.specs.Visits.{TakesAll, HasTaken, TakesBefore, ShownBefore};
ghost use Rattle.lift_disk.specs.Trace.Access.{Read};
ghost use Rattle.lift_journal.specs.Calls.{reads_from};
ghost use Rattle.lift_journal.specs.RefusedOpening.{StampAfter, EndsInHalf, RefusedAfter};

use crate::fault::JournalFault;
use crate::reads::{read_mark, read_sector, sync_device};
use crate::stamp::read_stamp;
use crate::visitor::Visitor;
use crate::walk::walk;
use lift_base::Shape;
use lift_disk::Disk;

/// Where the next batch goes.
#[derive(Clone, Copy)]
pub struct Place {
    pub shape: Shape,
    /// The first sector of the picked half.
    pub start: u32,
    /// The closing gate.
    pub gate: u32,
    /// The number of the next batch.
    pub number: u32,
}

/// The shape of a synced device.
fn read_shape<D: Disk>(disk: &mut D) -> Result<Shape, JournalFault>
    ensures examines { Examines result (D.state disk.old) (D.state disk.new) }
    ensures causes { IfErr result (λ fault. IsOfStamp fault) }
    ensures stamped { IfOk result (λ shape.
        IsWithinLimits shape × (2 * shape.half + 2 ≤ (D.state disk.old).size)
        × ((D.state disk.old).is_honest → IsSynced (D.state disk.old)
        → IsStamped shape (D.state disk.old).image)) }
    ensures not_formatted { IsErrOf result JournalFault.NotFormatted → (D.state disk.old).is_honest
        → IsSynced (D.state disk.old)
        → (shape : ShapeValue) → IsStamped shape (D.state disk.old).image → ⊥ }
    ensures read { OnOk result ((D.state disk.new).trace ≡ (D.state disk.old).trace ++ Read 1
        ∷ []) }
    ensures behind { IfErr result (λ fault.
        StampAfter fault (D.state disk.old) (D.state disk.new)) }
{
    if disk.sectors() < 2 {
        return Err(JournalFault::NotFormatted);
    }
    let mut stamp = [0; 512];
    let Ok(()) = read_sector(disk, 1, &mut stamp) else {
        return Err(JournalFault::Disk);
    };
    match read_stamp(&stamp) {
        Some(shape) if disk.sectors() >= 2 * shape.half + 2 => Ok(shape),
        _ => Err(JournalFault::NotFormatted),
    }
}

/// The place of a synced device of this shape. Each batch is shown to the visitor.
fn place_of<D: Disk, V: Visitor>(
    disk: &mut D,
    shape: Shape,
    visitor: &mut V,
) -> Result<Place, JournalFault>
    requires within { IsWithinLimits shape }
    requires room { 2 * shape.half + 2 ≤ (D.state disk.old).size }
    ensures examines { Examines result (D.state disk.old) (D.state disk.new) }
    ensures causes { IfErr result (λ fault. IsOfChain fault) }
    ensures shape { IfOk result (λ place. place.shape ≡ shape) }
    ensures place { IfOk result (λ place.
        HasNextPlace (D.state disk.new).size place.shape place.start place.gate place.number) }
    ensures stands { IfOk result (λ place. (D.state disk.old).is_honest
        → IsSynced (D.state disk.old) → IsStamped shape (D.state disk.old).image
        → StandsAt place.shape place.start place.gate place.number (D.state disk.new)) }
    ensures damaged { (s : _) → IsErrOf result (JournalFault.Damaged s)
        → (D.state disk.old).is_honest → IsSynced (D.state disk.old)
        → IsDamagedAt (D.state disk.old).image (start_of shape.half (D.state disk.old).image)
        (start_of shape.half (D.state disk.old).image + shape.half) s }
    ensures read { IfOk result (λ place.
        (D.state disk.new).trace ≡ (D.state disk.old).trace ++ Read 0
        ∷ reads_from place.start (place.gate - place.start + 1)) }
    ensures behind { IfErr result (λ fault. (fault ≡ JournalFault.Disk)
        × ((D.state disk.new).trace ≡ (D.state disk.old).trace)
        ⊎ EndsInHalf fault (Read 0 ∷ []) ((D.state disk.old).is_honest
        × IsSynced (D.state disk.old)) (D.state disk.old).image (D.state disk.old)
        (D.state disk.new)) }
    ensures shown { IfOk result (λ place. (D.state disk.old).is_honest
        → IsSynced (D.state disk.old) → (batches : List Batch)
        → Holds place.shape batches (D.state disk.old).image
        → TakesAll V.takes visitor.old batches visitor.new) }
    ensures shown_some { HasTaken V.takes 1000000 visitor.old visitor.new }
    ensures shown_before { IfErr result (λ fault. ((fault ≡ JournalFault.Disk)
        × ((D.state disk.new).trace ≡ (D.state disk.old).trace) × (visitor.new ≡ visitor.old))
        ⊎ ((D.state disk.old).is_honest → IsSynced (D.state disk.old)
        → TakesBefore V.takes fault (Read 0 ∷ []) (start_of shape.half (D.state disk.old).image)
        (start_of shape.half (D.state disk.old).image + shape.half) (D.state disk.old).image
        (D.state disk.old) (D.state disk.new) visitor.old visitor.new)) }
{
    let Ok(is_in_second_half) = read_mark(disk, 0) else {
        return Err(JournalFault::Disk);
    };
    let start = if is_in_second_half { shape.half + 2 } else { 2 };
    match walk(disk, start, start + shape.half, visitor) {
        Ok(front) => Ok(Place {
            shape,
            start,
            gate: front.gate,
            number: front.number,
        }),
        Err(fault) => Err(fault),
    }
}

/// Syncs a device and finds its place. Each batch before it is shown to the visitor.
pub fn find_place<D: Disk, V: Visitor>(disk: &mut D, visitor: &mut V) -> Result<Place, JournalFault>
    ensures examines { Examines result (D.state disk.old) (D.state disk.new) }
    ensures finds { IfOk result (λ place. FindsPlace place (D.state disk.old) (D.state disk.new)) }
    ensures refused { IfErr result (λ fault.
        RefusedFor fault (D.state disk.old) (D.state disk.new)) }
    ensures fixed { OnErr result (((D.state disk.new).trace ≡ (D.state disk.old).trace)
        ⊎ ((D.state disk.old).is_honest → FixesImage (D.state disk.old) (D.state disk.new))) }
    ensures behind { IfErr result (λ fault.
        RefusedAfter fault (D.state disk.old) (D.state disk.new)) }
    ensures shown { IfOk result (λ place. (D.state disk.old).is_honest → (batches : List Batch)
        → Holds place.shape batches (D.state disk.new).image
        → TakesAll V.takes visitor.old batches visitor.new) }
    ensures shown_some { HasTaken V.takes 1000000 visitor.old visitor.new }
    ensures shown_before { IfErr result (λ fault. ShownBefore V.takes fault
        (D.state disk.old) (D.state disk.new) visitor.old visitor.new) }
{
    if sync_device(disk).is_err() {
        return Err(JournalFault::Disk);
    }
    let shape = match read_shape(disk) {
        Ok(shape) => shape,
        Err(fault) => return Err(fault),
    };
    place_of(disk, shape, visitor)
}
