//! What is written, up to the byte.

ghost use Rattle.std.specs.Prelude.{◌≡◌, ◌<◌, ◌≤◌, ◌+◌, ◌++◌, ℕ, Bool, List, Option, length, take};
ghost use Rattle.std.specs.Prelude.{true, false, [], OnOk, OnErr, IfErr, IfSome, IfNone, ⊤};
ghost use Rattle.std.specs.declared.io.Error.{Error};
ghost use Rattle.std.specs.Io.KnownBytes.{Appends, Keeps};
ghost use Rattle.lift_base.specs.Output.{OutputTally, Takes, TakesPrefix, TakesOnce, FlushesOnce};
ghost use Rattle.lift_base.specs.Output.{WroteAll, WroteUpToFault, flushed_by, sent_by, sent_of};
ghost use Rattle.lift_base.specs.Output.{sink_of, taken};

use crate::count::ProofCount;
use crate::proof_bytes::{Portion, ProofBytes};
use std::io;
use std::io::Write;
use std::marker::Model;

/// A writer whose calls and flushes are told: each step from one state to the next is one of them.
pub trait Outlet: Write {
    ghost gives: { Self → List ℕ → Option ℕ → Self → Type 0 };

    ghost flushes: { Self → Bool → Self → Type 0 };

    // a flush was refused by this error
    ghost refuses: { Self → Error → Self → Type 0 };

    /// One call of the writer: how many bytes it took, none where it failed.
    fn take(&mut self, bytes: &[u8]) -> Option<usize>
        ensures gives { gives self.old bytes.now result self.new }
        ensures bound { IfSome result (λ count. count ≤ length bytes.now) }
        ensures bytes { IfSome result (λ count.
            Appends (Self.contents self.old) (Self.contents self.new) (take count bytes.now)) }
        ensures keeps { IfNone result (Keeps (Self.contents self.old) (Self.contents self.new)) };

    /// One flush of the writer.
    fn flush_once(&mut self) -> io::Result<()>
        ensures flushed { OnOk result (flushes self.old true self.new) }
        ensures failed { OnErr result (flushes self.old false self.new) }
        ensures refused { IfErr result (λ error. refuses self.old error self.new) }
        ensures bytes { Keeps (Self.contents self.old) (Self.contents self.new) };
}

impl<W: Write> Outlet for W {
    ghost gives = { λ _ _ _ _. ⊤ };

    ghost flushes = { λ _ _ _. ⊤ };

    ghost refuses = { λ _ _ _. ⊤ };

    fn take(&mut self, bytes: &[u8]) -> Option<usize> {
        match self.write(bytes) {
            Ok(count) => Some(count),
            Err(_) => None,
        }
    }

    fn flush_once(&mut self) -> io::Result<()> {
        self.flush()
    }
}

/// A writer whose calls and flushes are told, and counted by what they came to.
pub trait Outflow {
    // what is in it, where it says that
    ghost contents: { Self → Option (List ℕ) };

    // how often it failed, which bytes it took, and how many of these it passed on
    ghost sent: { Self → OutputTally };

    ghost gives: { Self → List ℕ → Option ℕ → Self → Type 0 };

    ghost flushes: { Self → Bool → Self → Type 0 };

    // a flush was refused by this error
    ghost refuses: { Self → Error → Self → Type 0 };

    /// One call of the writer, for a byte at least: how many bytes it took, none where it failed.
    fn take(&mut self, bytes: &[u8]) -> Option<usize>
        requires { 0 < length bytes.now }
        ensures gives { gives self.old bytes.now result self.new }
        ensures bound { IfSome result (λ count. count ≤ length bytes.now) }
        ensures bytes { IfSome result (λ count.
            Appends (contents self.old) (contents self.new) (take count bytes.now)) }
        ensures keeps { IfNone result (Keeps (contents self.old) (contents self.new)) };

    /// One flush of the writer.
    fn flush_once(&mut self) -> io::Result<()>
        ensures flushed { OnOk result (flushes self.old true self.new) }
        ensures failed { OnErr result (flushes self.old false self.new) }
        ensures refused { IfErr result (λ error. refuses self.old error self.new) }
        ensures bytes { Keeps (contents self.old) (contents self.new) };

    /// A call adds to what was sent, and to the failures, what it came to.
    ghost counts: { (before : Self) (bytes : List ℕ) (answer : Option ℕ) (after : Self)
        → gives before bytes answer after → sent after ≡ sent_by bytes answer (sent before) };

    /// And to what is in the writer, where it says that.
    ghost holds: { (before : Self) (bytes : List ℕ) (answer : Option ℕ) (after : Self)
        → gives before bytes answer after
        → Appends (contents before) (contents after) (taken answer bytes) };

    /// A flush passes on all that was sent, or is a failure.
    ghost counts_flush: { (before : Self) (done : Bool) (after : Self) → flushes before done after
        → sent after ≡ flushed_by done (sent before) };
}

/// A writer took no more.
#[derive(Clone, Copy, PartialEq, Eq)]
pub struct WriteFault {
    /// How many bytes it had taken.
    pub written: usize,
}

/// Writes all of the bytes, or as many as the fault says.
pub fn put_all<W: Outflow>(writer: &mut W, bytes: &[u8]) -> Result<(), WriteFault>
    ensures ok { OnOk result (Appends (W.contents writer.old) (W.contents writer.new) bytes.now) }
    ensures front { IfErr result (λ fault.
        Appends (W.contents writer.old) (W.contents writer.new) (take fault.written bytes.now)) }
    ensures within { IfErr result (λ fault. fault.written < length bytes.now) }
    ensures each { OnOk result ((calls : ℕ)
        × WroteAll W.gives bytes.now 0 calls writer.old writer.new) }
    ensures each_so_far { IfErr result (λ fault. (calls : ℕ)
        × WroteUpToFault W.gives bytes.now fault.written 0 calls writer.old writer.new) }
{
    let mut written = 0usize;
    while written < bytes.len() {
        match writer.take(&bytes[written..]) {
            Some(0) => return Err(WriteFault { written }),
            Some(count) => written += count,
            None => return Err(WriteFault { written }),
        }
    }
    Ok(())
}

/// A writer with what is known of its calls: whether one of them failed or took nothing; and, which
/// only proofs read, how many there were, how many failures, all bytes that were taken, and those
/// before the last flush that didn't fail. The only way to the writer is by a call that counts, so
/// that binds.
#[derive(Drop)]
pub struct Watched<W: Drop> {
    writer: W,
    calls: ProofCount,
    failures: ProofCount,
    gone: ProofBytes,
    flushed: ProofBytes,
    failed: bool,
}

impl<W: Drop> Model for Watched<W> {
    ghost use Rattle.lift_base.specs.Output.{OutputState};

    ghost Value = { OutputState W };

    ghost view = { λ w. record {
      writer = w.writer;
      calls = w.calls.count;
      failures = w.failures.count;
      failed = w.failed;
      gone = w.gone.bytes;
      flushed = w.flushed.bytes;
    } };
}

impl<W: Drop> Watched<W> {
    /// A writer that was not called yet.
    pub fn new(writer: W) -> Self
        ensures { result ≡ record {
          writer = writer;
          calls = 0;
          failures = 0;
          failed = false;
          gone = [];
          flushed = [];
        } }
    {
        Watched {
            writer,
            calls: ProofCount::new(),
            failures: ProofCount::new(),
            gone: ProofBytes::new(),
            flushed: ProofBytes::new(),
            failed: false,
        }
    }

    /// The writer itself.
    pub fn into_inner(self) -> W
        ensures { result ≡ self.writer }
    {
        let Watched {
            writer,
            calls: _,
            failures: _,
            gone: _,
            flushed: _,
            failed: _,
        } = self;
        writer
    }

    /// Whether a call failed or took nothing, or a flush failed.
    pub fn failed(&self) -> bool
        ensures { result ≡ self.now.failed }
    {
        self.failed
    }

    /// One failure more.
    fn fail(&mut self)
        ensures { self.new ≡ record self.old { failures = self.old.failures + 1; failed = true } }
    {
        self.failures = ProofCount::next(&self.failures);
        self.failed = true;
    }
}

impl<W: Outlet + Drop> Outflow for Watched<W> {
    ghost use Rattle.lift_base.specs.lemmas.Counted.{counts_call, counts_flush_of};

    ghost contents = { λ w. W.contents w.writer };

    ghost sent = { λ w. sent_of w };

    ghost gives = { TakesOnce W.gives W.contents };

    ghost flushes = { FlushesOnce W.flushes W.contents };

    ghost refuses = { λ before error after. W.refuses before.writer error after.writer };

    fn take(&mut self, bytes: &[u8]) -> Option<usize> {
        self.calls = ProofCount::next(&self.calls);
        let answer = self.writer.take(bytes);
        match answer {
            Some(0) => self.fail(),
            Some(count) => {
                let portion = Portion {
                    bytes: &bytes[..count],
                };
                self.gone = self.gone.then(&portion);
            }
            None => self.fail(),
        }
        answer
    }

    fn flush_once(&mut self) -> io::Result<()> {
        match self.writer.flush_once() {
            Ok(()) => {
                self.flushed = self.gone.again();
                Ok(())
            }
            Err(error) => {
                self.fail();
                Err(error)
            }
        }
    }

    ghost counts = { λ before bytes answer after once. counts_call before bytes answer after once };

    ghost holds = { λ before bytes answer after once. once.written };

    ghost counts_flush = { λ before done after once. counts_flush_of before done after once };
}

impl<W: Outlet + Drop> Watched<W> {
    /// Writes all of the bytes, or, where a call fails or takes nothing, as many as the fault says.
    pub fn put(&mut self, bytes: &[u8]) -> Result<(), WriteFault>
        ensures ok { OnOk result
            (Takes bytes.now (sink_of W.contents self.old) (sink_of W.contents self.new)) }
        ensures front { IfErr result (λ fault.
            TakesPrefix fault.written bytes.now (sink_of W.contents self.old)
            (sink_of W.contents self.new)) }
        ensures each { OnOk result (WroteAll W.gives bytes.now
            self.old.calls self.new.calls self.old.writer self.new.writer) }
        ensures each_so_far { IfErr result (λ fault. WroteUpToFault W.gives bytes.now fault.written
            self.old.calls self.new.calls self.old.writer self.new.writer) }
    {
        put_all(self, bytes)
    }
}
