//! A report in pieces, so that the writer isn't called for each line.

ghost use Rattle.std.specs.Prelude.{◌≡◌, ◌<◌, ◌++◌, List, ℕ, [], length, take, string_bytes};
ghost use Rattle.std.specs.Prelude.{OnOk, OnErr, IfErr};
ghost use Rattle.std.specs.Io.KnownBytes.{Appends};
ghost use Rattle.lift_replay.specs.Writing.{FailsAtLast, TakesSomeEachCall, gone_in};

use lift_base::text::{Outflow, WriteFault, put_all};

/// A piece is written once it has this many bytes.
const PIECE_BYTES: usize = 32_768;

/// Writes a piece of whole lines, and empties it, also where the writer doesn't take all of it.
pub fn put_piece<W: Outflow>(writer: &mut W, piece: &mut String) -> Result<(), WriteFault>
    ensures ok { OnOk result
        (Appends (gone_in W.sent writer.old) (gone_in W.sent writer.new) (string_bytes piece.old)) }
    ensures front { IfErr result (λ fault.
        Appends (gone_in W.sent writer.old) (gone_in W.sent writer.new)
        (take fault.written (string_bytes piece.old))) }
    ensures emptied { string_bytes piece.new ≡ [] }
    ensures each_call { OnOk result (TakesSomeEachCall W.gives writer.old writer.new) }
    ensures failed { OnErr result (FailsAtLast W.gives writer.old writer.new) }
    ensures idle { string_bytes piece.old ≡ [] → writer.new ≡ writer.old }
{
    let end = put_all(writer, piece.as_bytes());
    piece.clear();
    end
}

/// Writes a piece of whole lines, and empties it, if it is large enough.
pub fn put_large_piece<W: Outflow>(writer: &mut W, piece: &mut String) -> Result<(), WriteFault>
    ensures ok { OnOk result ((written : List ℕ)
        × Appends (gone_in W.sent writer.old) (gone_in W.sent writer.new) written
        × (string_bytes piece.old ≡ written ++ string_bytes piece.new)) }
    ensures front { IfErr result (λ fault.
        Appends (gone_in W.sent writer.old) (gone_in W.sent writer.new)
        (take fault.written (string_bytes piece.old))) }
    ensures small { OnOk result (length (string_bytes piece.new) < 32768) }
    ensures emptied { OnErr result (string_bytes piece.new ≡ []) }
    ensures each_call { OnOk result (TakesSomeEachCall W.gives writer.old writer.new) }
    ensures failed { OnErr result (FailsAtLast W.gives writer.old writer.new) }
{
    if piece.len() < PIECE_BYTES {
        return Ok(());
    }
    put_piece(writer, piece)
}
