//! What sessions do follows from what comes to them.

ghost use Rattle.lift_kiosk.specs.Determined.{AsksForOneThing, LineDetermines, LinesDetermine};
ghost use Rattle.lift_kiosk.specs.Determined.{OutcomesAreWritten};
ghost use Rattle.lift_kiosk.specs.Whole.{SessionsDetermine, SessionsAreWritten};
ghost use Rattle.lift_kiosk.specs.Streams.{StreamsAreOfSessions, StreamsDetermine};
ghost use Rattle.lift_kiosk.specs.Kiosk.{WantsCall, keeps_letter};

use crate::dialect::Dialect;
use crate::kiosk::Kiosk;

/// Sessions in which a line asks for one thing at most are determined: what comes of a line follows
/// from it and from what the port gives for it, so that the same lines and answers of the port lead
/// to the same outcomes and the same last command; what is written for the lines follows from these
/// outcomes. And where the same comes from the port, the reader and the writer, from the first line
/// to the last byte, a session ends alike, knows the same last command, and wrote the same; also
/// where of the reader only its bytes are known, and how its last call went, and not where a line
/// or the session ended. These bytes are what came of the reader, what is written is what the writer
/// took, and the port's answers are those that it heard.
pub fn dialects_determine<T: Dialect>()
    ensures line { AsksForOneThing T.wants → LineDetermines T.wants }
    ensures lines { AsksForOneThing T.wants → LinesDetermine T.wants T.keeps }
    ensures written { AsksForOneThing T.wants → OutcomesAreWritten T.wants T.keeps }
    ensures whole { AsksForOneThing T.wants → SessionsDetermine T.wants T.keeps }
    ensures streams { AsksForOneThing T.wants → StreamsDetermine T.wants T.keeps }
    ensures text { AsksForOneThing T.wants → SessionsAreWritten T.wants T.keeps }
    ensures own { StreamsAreOfSessions T.wants T.keeps }
{}

/// Sessions of kiosks are determined, as `dialects_determine` says.
pub fn sessions_are_determined()
    ensures line { LineDetermines WantsCall }
    ensures lines { LinesDetermine WantsCall keeps_letter }
    ensures written { OutcomesAreWritten WantsCall keeps_letter }
    ensures whole { SessionsDetermine WantsCall keeps_letter }
    ensures streams { StreamsDetermine WantsCall keeps_letter }
    ensures text { SessionsAreWritten WantsCall keeps_letter }
    ensures own { StreamsAreOfSessions WantsCall keeps_letter }
{
    dialects_determine::<Kiosk>();
}
