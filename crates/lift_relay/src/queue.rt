//! How a queue under a rule is tried, whatever its rule is. The queue and its passes are not of this
//! crate: so there is no place here where anything could be kept from one try to the next.

ghost use Rattle.std.specs.Prelude.{◌≡◌, List};
ghost use Rattle.crossbeam_queue.specs.Fifo.{Pushes, Pops, Learns, Held, Merges, Forks};
ghost use Rattle.crossbeam_queue.specs.Passes.{view, IsSamePass, IsPassOf, ruled_capacity};

use crate::side::{MetBy, TriedBy};
use crossbeam_queue::protocol::{Join, Lesson, Outcome, Protocol, Split};
use crossbeam_queue::{Pass, RuledArrayQueue};
use std::sync::Wait;

impl<T, V, P: Protocol<T, V>, M: Outcome<T, V> + Lesson<T, V>> TriedBy<Pass<T, V>, T, M>
    for RuledArrayQueue<T, V, P> {
    ghost may_push = { λ queue pass item. IsPassOf queue pass
        × Pushes P.holds (ruled_capacity queue) pass.id (view pass) item (M.then (view pass) item)
        × Learns P.holds pass.id (view pass) (M.fact (view pass)) };

    ghost may_pop = { λ queue pass. IsPassOf queue pass
        × Pops P.holds pass.id (view pass) (M.then (view pass))
        × Learns P.holds pass.id (view pass) (M.fact (view pass)) };

    ghost went = { λ queue old item new. IsSamePass old new × M.then (view old) item (view new) };

    // At one moment of the try it was full, or empty.
    ghost was_full = { λ queue old new. IsSamePass old new × (view new ≡ view old)
        × Held (ruled_capacity queue) (M.fact (view old)) };

    ghost was_empty = { λ queue old new. IsSamePass old new × (view new ≡ view old)
        × Held 0 (M.fact (view old)) };

    fn push_by<R: Wait>(&self, rt: &R, pass: &mut Pass<T, V>, item: T) -> Result<(), T> {
        self.push_as::<M, R>(rt, pass, item)
    }

    fn pop_by<R: Wait>(&self, rt: &R, pass: &mut Pass<T, V>) -> Option<T> {
        self.pop_as::<M, R>(rt, pass)
    }
}

impl<T, V, P: Protocol<T, V>, J: Join<V>, K: Split<V> + Lesson<T, V>> MetBy<Pass<T, V>, J, K>
    for RuledArrayQueue<T, V, P> {
    ghost may_meet = { λ queue mine theirs. IsPassOf queue mine × IsPassOf queue theirs
        × (let both = J.both (view mine) (view theirs) in
        Merges P.holds mine.id (view mine) theirs.id (view theirs) both J.spent
        × Learns P.holds mine.id both (K.fact both)
        × Forks P.holds mine.id both (K.left both) (K.right both)) };

    ghost met = { λ queue mine theirs now other. let both = J.both (view mine) (view theirs) in
        IsSamePass mine now × IsPassOf queue other × (view now ≡ K.left both)
        × (view other ≡ K.right both) × ((items : List T) × K.fact both items) };

    fn meet_by(&self, pass: &mut Pass<T, V>, other: Pass<T, V>) -> Pass<T, V> {
        self.absorb::<J>(pass, other);
        self.learn_as::<K>(pass);
        self.another::<K>(pass)
    }
}
