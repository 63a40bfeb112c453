//! What is said over a connection, whatever that is made of.

ghost use Rattle.std.specs.Prelude.{length};
ghost use Rattle.lift_base.specs.Output.{sink_of};
ghost use Rattle.lift_kiosk.specs.Lines.{source_of};
ghost use Rattle.lift_serve.specs.Connections.{Attends, new_sink, new_source};

use crate::attending::{Attendance, attend};
use crate::prepared::connections::Ticket;
use crate::prepared::hall::Hall;
use crate::reading::OpenReader;
use crate::waking::WakingWriter;
use lift_base::text::{Counted, Watched};
use std::io::{Read, Write};
use std::sync::Wait;
use std::time::Clock;

/// Attends to whoever is read and written so. Nothing else is read, and nothing else written: reader
/// and writer come back as that left them.
pub(crate) fn speak<'d, 's, R: Wait + Clock, I: Read + Drop, O: Write + Drop>(
    rt: &R,
    hall: &'s Hall<'d, '_>,
    ticket: Ticket,
    reader: I,
    writer: O,
) -> (
    Attendance<'d>,
    Counted<OpenReader<'s, I>>,
    Watched<WakingWriter<'s, O>>,
)
    ensures { Attends (length hall.now.building.now.cars) (length hall.now.building.now.kiosks) result.0
        (new_source (I.remaining reader))
        (source_of (λ r. I.remaining r.reader) result.1)
        (new_sink (O.contents writer))
        (sink_of (λ w. O.contents w.writer) result.2) }
{
    let mut reader = Counted::new(OpenReader::new(reader, &hall.bound));
    let mut writer = Watched::new(WakingWriter::new(writer, &hall.pace));
    let attended = attend(
        rt,
        hall.lobby(),
        ticket,
        &hall.pace,
        hall.present,
        hall.building,
        &mut reader,
        &mut writer,
    );
    (attended, reader, writer)
}
