//! The stamp: what says that a device is formatted, and for which installation.
ghost use Rattle.std.specs.Prelude.{◌≡◌, ◌≢◌, IfSome, IfNone};
ghost use Rattle.lift_base.specs.declared.history.Shape.{Shape as ShapeValue};
ghost use Rattle.lift_base.specs.History.{IsWithinLimits};
ghost use Rattle.lift_journal.specs.Layout.{filled, stamp_bytes};

use byteorder::{BigEndian, ByteOrder};
use lift_base::Shape;

/// The stamp of this shape.
pub fn stamp_of(shape: &Shape) -> [u8; 512]
    ensures { result ≡ filled 1 (stamp_bytes shape.now) }
{
    let mut sectors = [0; 4];
    BigEndian::write_u32(&mut sectors, shape.half);
    let [a, b, c, d] = sectors;
    let mut stamp = [0; 512];
    stamp[..16].copy_from_slice(&[
        0x4C,
        0x49,
        0x46,
        0x54,
        0x4A,
        0x52,
        0x4E,
        0x4C,
        shape.floors,
        shape.cars,
        shape.kiosks,
        0,
        a,
        b,
        c,
        d,
    ]);
    stamp
}

/// The shape that a stamp spells, if it spells one.
pub fn read_stamp(stamp: &[u8; 512]) -> Option<Shape>
    ensures some { IfSome result (λ shape.
        IsWithinLimits shape × (stamp.now ≡ filled 1 (stamp_bytes shape))) }
    ensures none { IfNone result ((shape : ShapeValue) → IsWithinLimits shape
        → stamp.now ≢ filled 1 (stamp_bytes shape)) }
{
    let shape = Shape {
        floors: stamp[8],
        cars: stamp[9],
        kiosks: stamp[10],
        half: BigEndian::read_u32(&stamp[12..16]),
    };
    if shape.is_within_limits() && stamp_of(&shape) == *stamp {
        Some(shape)
    } else {
        None
    }
}
