//! One side of a line: a queue, a pass of it, and how what it tried went.
//!
//! Nothing here knows what the queue is, nor what its pass knows, nor what a try tells. So a try that
//! wasn't made can't be told of, and what one try told can't be told of a later one: each tells of the
//! pass as it was before that very try, and after it.

ghost use Rattle.std.specs.Prelude.{◌≡◌, is_err, is_none, MatchResult, MatchOption};
ghost use Rattle.std.specs.Arc.{arc_value};
ghost use Rattle.lift_parts.specs.Line.{tried, no_tries};

use core::mem::replace_with;
use std::marker::Model;
use std::sync::{Arc, Wait};

/// What takes items in and gives them out, by passes `S`. `M` says what a try comes to.
pub trait TriedBy<S, T, M> {
    // A push, or a pop, may be tried.
    ghost may_push: { Self → S → T → Type 0 };

    ghost may_pop: { Self → S → Type 0 };

    // This item went through: of the pass before it and after it.
    ghost went: { Self → S → T → S → Type 0 };

    // A push was refused, or a pop.
    ghost was_full: { Self → S → S → Type 0 };

    ghost was_empty: { Self → S → S → Type 0 };

    /// Tries once to push an item, which else comes back.
    fn push_by<R: Wait>(&self, rt: &R, pass: &mut S, item: T) -> Result<(), T>
        requires { may_push self.now pass.old item }
        ensures { MatchResult result (λ _. went self.now pass.old item pass.new)
            (λ back. (back ≡ item) × was_full self.now pass.old pass.new) };

    /// Tries once to pop an item.
    fn pop_by<R: Wait>(&self, rt: &R, pass: &mut S) -> Option<T>
        requires { may_pop self.now pass.old }
        ensures { MatchOption result (was_empty self.now pass.old pass.new)
            (λ item. went self.now pass.old item pass.new) };
}

/// Whose passes may meet, by `J`, and part again, by `K`.
pub trait MetBy<S, J, K> {
    // These two may meet.
    ghost may_meet: { Self → S → S → Type 0 };

    // They have met: of both before that, and of both after it.
    ghost met: { Self → S → S → S → S → Type 0 };

    /// A pass takes in another, by which each may learn where the other stands, and parts from it again.
    fn meet_by(&self, pass: &mut S, other: S) -> S
        requires { may_meet self.now pass.old other }
        ensures { met self.now pass.old other pass.new result };
}

/// One side of a line. It alone has the line and the pass, and each of its pushes and pops counts as
/// one try. So none counts that wasn't made, and no other call changes how many there were. (The
/// rule of a queue can't count them: a push that is refused changes no view.)
#[derive(Drop)]
pub struct Side<Q, S> {
    line: Arc<Q>,
    pass: S,
    odd: bool,
    refused: bool,
}

impl<Q, S> Model for Side<Q, S> {
    ghost use Rattle.lift_relay.specs.Side.{SideState};

    ghost Value = { SideState Q S };

    ghost use Rattle.lift_relay.specs.SideInside.{seen};

    ghost view = { seen };
}

impl<Q, S> Side<Q, S> {
    /// The side of a line by this pass, which has tried nothing.
    pub fn new(line: Arc<Q>, pass: S) -> Self
        ensures { result ≡ record { line = arc_value line; pass = pass; tries = no_tries } }
    {
        Side {
            line,
            pass,
            odd: false,
            refused: false,
        }
    }

    /// Tries once to push an item.
    pub fn push<T, M, R: Wait>(&mut self, rt: &R, item: T) -> Result<(), T>
    where
        Q: TriedBy<S, T, M>,
        requires { Q.may_push self.old.line self.old.pass item }
        ensures line { self.new.line ≡ self.old.line }
        ensures pushed { MatchResult result
            (λ _. Q.went self.old.line self.old.pass item self.new.pass)
            (λ back. (back ≡ item) × Q.was_full self.old.line self.old.pass self.new.pass) }
        ensures tries { self.new.tries ≡ tried self.old.tries (is_err result) }
    {
        let pushed = self.line.push_by(rt, &mut self.pass, item);
        self.odd = !self.odd;
        self.refused = pushed.is_err();
        pushed
    }

    /// Tries once to pop an item.
    pub fn pop<T, M, R: Wait>(&mut self, rt: &R) -> Option<T>
    where
        Q: TriedBy<S, T, M>,
        requires { Q.may_pop self.old.line self.old.pass }
        ensures line { self.new.line ≡ self.old.line }
        ensures popped { MatchOption result
            (Q.was_empty self.old.line self.old.pass self.new.pass)
            (λ item. Q.went self.old.line self.old.pass item self.new.pass) }
        ensures tries { self.new.tries ≡ tried self.old.tries (is_none result) }
    {
        let item = self.line.pop_by(rt, &mut self.pass);
        self.odd = !self.odd;
        self.refused = item.is_none();
        item
    }

    /// Its pass meets the other side's, by which each may learn where the other stands. That tries
    /// nothing.
    pub fn meet<J, K>(&mut self, other: &mut Side<Q, S>)
    where
        Q: MetBy<S, J, K>,
        requires { Q.may_meet self.old.line self.old.pass other.old.pass }
        ensures line { (self.new.line ≡ self.old.line) × (other.new.line ≡ other.old.line) }
        ensures met { Q.met
            self.old.line self.old.pass other.old.pass self.new.pass other.new.pass }
        ensures tries { (self.new.tries ≡ self.old.tries) × (other.new.tries ≡ other.old.tries) }
    {
        let line = &*self.line;
        let _mine = replace_with(
            &mut other.pass,
            &mut self.pass,
            |theirs: S, mine: &mut S| -> (S, &mut S)
                requires { Q.may_meet line.now mine.old theirs }
                ensures met { Q.met line.entry.now mine.entry.now theirs result.1.now result.0 }
                ensures same { result.1.ghost_name ≡ mine.entry.ghost_name }
            {
                let theirs = line.meet_by(mine, theirs);
                (theirs, mine)
            },
        );
    }
}
