//! What sessions of cars do follows from what comes to them.

ghost use Rattle.lift_kiosk.specs.Determined.{LineDetermines, LinesDetermine, OutcomesAreWritten};
ghost use Rattle.lift_kiosk.specs.Whole.{SessionsDetermine, SessionsAreWritten};
ghost use Rattle.lift_kiosk.specs.Streams.{StreamsAreOfSessions, StreamsDetermine};
ghost use Rattle.lift_car.specs.Lines.{WantsMove, keeps_stop};

use crate::lines::CarLines;
use lift_kiosk::dialects_determine;

/// Sessions of cars are determined: what comes of a line follows from it and from what the port
/// gives for it, so that the same lines and answers of the port lead to the same outcomes and the
/// same last command; what is written for the lines follows from these outcomes. And where the same
/// comes from the port, the reader and the writer, from the first line to the last byte, a session
/// ends alike, knows the same last command, and wrote the same; also where of the reader only its
/// bytes are known, and how its last call went, and not where a line or the session ended.
pub fn sessions_are_determined()
    ensures line { LineDetermines WantsMove }
    ensures lines { LinesDetermine WantsMove keeps_stop }
    ensures written { OutcomesAreWritten WantsMove keeps_stop }
    ensures whole { SessionsDetermine WantsMove keeps_stop }
    ensures streams { StreamsDetermine WantsMove keeps_stop }
    ensures text { SessionsAreWritten WantsMove keeps_stop }
    ensures own { StreamsAreOfSessions WantsMove keeps_stop }
{
    dialects_determine::<CarLines>();
}
