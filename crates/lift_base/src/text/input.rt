//! A reader whose calls are counted.

ghost use Rattle.std.specs.Prelude.{◌≡◌, ◌==◌, ◌+◌, ◌≤◌, ◌<◌, ◌++◌, if◌then◌else◌, length, take};
ghost use Rattle.std.specs.Prelude.{true, []};
ghost use Rattle.std.specs.Prelude.{ℕ, List, Option, Some, None, false, OnOk, OnErr, IfOk, IfSome};
ghost use Rattle.std.specs.Prelude.{IfNone, ⊤};
ghost use Rattle.std.specs.Io.KnownBytes.{Consumes, IsAtEnd, Keeps};

use crate::count::ProofCount;
use crate::proof_bytes::{Portion, ProofBytes};
use std::io::Read;
use std::marker::Model;

/// A reader whose calls are told: each step from one state to the next is a call of it.
pub trait Inlet: Read {
    /// A call for as many bytes as these has left them, answered so, and led from one state to the
    /// next.
    ghost gives: { Self → List ℕ → Option ℕ → Self → Type 0 };

    /// One call of the reader: how many bytes came, none where it failed.
    fn fill(&mut self, buffer: &mut [u8]) -> Option<usize>
        ensures gives { gives self.old buffer.new result self.new }
        ensures same_room { length buffer.new ≡ length buffer.old }
        ensures bound { IfSome result (λ count. count ≤ length buffer.new) }
        ensures bytes { IfSome result (λ count.
            Consumes (Self.remaining self.old) (Self.remaining self.new) (take count buffer.new)) }
        ensures end { IfSome result (λ count. count ≡ 0 → 0 < length buffer.new
            → IsAtEnd (Self.remaining self.new)) }
        ensures keeps { IfNone result
            (Keeps (Self.remaining self.old) (Self.remaining self.new)) };
}

impl<R: Read> Inlet for R {
    ghost gives = { λ _ _ _ _. ⊤ };

    fn fill(&mut self, buffer: &mut [u8]) -> Option<usize> {
        match self.read(buffer) {
            Ok(count) => Some(count),
            Err(_) => None,
        }
    }
}

/// A call of the reader failed.
#[derive(Clone, Copy, PartialEq, Eq)]
pub struct ReadFault;

/// A reader with what is known of its calls: whether one of them failed, and whether one of them found
/// the end; and, which only proofs read, how many there were, how many failed, how many found the end,
/// and all bytes that came. The only way to the reader is `read`, so that binds.
#[derive(Drop)]
pub struct Counted<R: Drop> {
    reader: R,
    calls: ProofCount,
    failures: ProofCount,
    ends: ProofCount,
    came: ProofBytes,
    failed: bool,
    ended: bool,
}

impl<R: Drop> Model for Counted<R> {
    ghost use Rattle.lift_base.specs.Input.{InputState};

    ghost Value = { InputState R };

    ghost view = { λ c. record {
      reader = c.reader;
      calls = c.calls.count;
      failures = c.failures.count;
      ends = c.ends.count;
      failed = c.failed;
      ended = c.ended;
      came = c.came.bytes;
    } };
}

impl<R: Drop> Counted<R> {
    /// A reader that was not called yet.
    pub fn new(reader: R) -> Self
        ensures { result ≡ record {
          reader = reader;
          calls = 0;
          failures = 0;
          ends = 0;
          failed = false;
          ended = false;
          came = [];
        } }
    {
        Counted {
            reader,
            calls: ProofCount::new(),
            failures: ProofCount::new(),
            ends: ProofCount::new(),
            came: ProofBytes::new(),
            failed: false,
            ended: false,
        }
    }

    /// Whether a call failed.
    pub fn failed(&self) -> bool
        ensures { result ≡ self.now.failed }
    {
        self.failed
    }
}

impl<R: Inlet + Drop> Counted<R> {
    /// One call of the reader, for the whole buffer. The answer is how many bytes came; 0 into a
    /// buffer with room is the end. A call that fails, also one that was only interrupted, is a
    /// fault.
    pub fn read(&mut self, buffer: &mut [u8]) -> Result<usize, ReadFault>
        ensures calls { self.new.calls ≡ self.old.calls + 1 }
        ensures one { IfOk result (λ count.
            R.gives self.old.reader buffer.new (Some count) self.new.reader) }
        ensures one_err { OnErr result (R.gives self.old.reader buffer.new None self.new.reader) }
        ensures same_room { length buffer.new ≡ length buffer.old }
        ensures gives { IfOk result (λ count. (count ≤ length buffer.new)
            × Consumes (R.remaining self.old.reader) (R.remaining self.new.reader)
            (take count buffer.new)) }
        ensures end { IfOk result (λ count. count ≡ 0 → 0 < length buffer.new
            → IsAtEnd (R.remaining self.new.reader)) }
        ensures ended { IfOk result (λ count. 0 < length buffer.new
            → self.new.ended ≡ (if count == 0 then true else self.old.ended)) }
        ensures roomless { IfOk result (λ count. length buffer.new ≡ 0
            → self.new.ended ≡ self.old.ended) }
        ensures unfailed { OnOk result (self.new.failed ≡ self.old.failed) }
        ensures failures { OnErr result (self.new.failures ≡ self.old.failures + 1) }
        ensures no_failure { OnOk result (self.new.failures ≡ self.old.failures) }
        ensures ends { IfOk result (λ count. 0 < length buffer.new
            → self.new.ends ≡ (if count == 0 then self.old.ends + 1 else self.old.ends)) }
        ensures no_end { IfOk result (λ count. length buffer.new ≡ 0
            → self.new.ends ≡ self.old.ends) }
        ensures unended { OnErr result (self.new.ends ≡ self.old.ends) }
        ensures came { IfOk result (λ count.
            self.new.came ≡ self.old.came ++ take count buffer.new) }
        ensures none_came { OnErr result (self.new.came ≡ self.old.came) }
        ensures failed { OnErr result ((self.new.failed ≡ true)
            × (self.new.ended ≡ self.old.ended)
            × Keeps (R.remaining self.old.reader) (R.remaining self.new.reader)) }
    {
        self.calls = ProofCount::next(&self.calls);
        match self.reader.fill(buffer) {
            Some(count) => {
                let portion = Portion {
                    bytes: &buffer[..count],
                };
                self.came = self.came.then(&portion);
                if count == 0 && !buffer.is_empty() {
                    self.ended = true;
                    self.ends = ProofCount::next(&self.ends);
                }
                Ok(count)
            }
            None => {
                self.failed = true;
                self.failures = ProofCount::next(&self.failures);
                Err(ReadFault)
            }
        }
    }
}
