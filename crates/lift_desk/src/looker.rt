//! A seat at a table, whose looks are counted by its loads alone.
ghost use Rattle.std.specs.Prelude.{◌≡◌, ◌<◌, ℕ, IfOk, true, false, []};
ghost use mathlib.Core.Option.{none};
ghost use Rattle.atomic_table.specs.Table.{Allows, Joins, Me, Splits, step};
ghost use Rattle.lift_desk.specs.declared.view.View.{View};
ghost use Rattle.lift_desk.specs.Rule.{AreLastWords, blank, opening_view};
ghost use Rattle.lift_desk.specs.Looker.{sits_at, Loads, Stores, IsParted, Joined};

use crate::view::{DeskRule, View};
use atomic_table::{Badge, Join, Play, Seat, Split, Table};
use lift_memory::{Memory, table_of_words};
use std::alloc::Global;
use std::marker::Model;
use std::mem;

/// The word of the last ask.
pub(crate) const ASK: usize = 0;

/// The word of the last answer.
pub(crate) const ANSWER: usize = 1;

pub(crate) type DeskTable = Table<(), View, (), DeskRule, Global>;

/// A seat at a table, or a stand-in for it. It alone has the table's own seat, and each right to look
/// goes with its count of looks and the word that was found last, which only a load of that word
/// changes. At most one seat of a table may ask, and one may answer: so none of these counts a look
/// without a load in that call, or finds another word than that load. And each load counts, and each
/// store is one word more that was stored, but where a seat has the rights of two and compares.
#[derive(Drop)]
pub struct Looker {
    badge: Badge<View>,
}

impl Model for Looker {
    ghost use Rattle.lift_desk.specs.Looker.{LookerState, looker_of, IsOneView};

    ghost Value = { LookerState };

    ghost view = { λ l. looker_of l.badge.table_id l.badge.views };

    ghost invariant = { λ l. IsOneView l.badge.views };
}

impl Looker {
    /// A new table, and the first seat at it, which has all rights and has looked at nothing.
    pub(crate) fn open(alloc: Global) -> Result<(DeskTable, Looker), Memory>
        ensures words { IfOk result (λ made. made.0.shared.table_id.words ≡ 2) }
        ensures seat { IfOk result (λ made.
            made.1 ≡ sits_at made.0.shared.table_id opening_view) }
    {
        let (table, seat) = table_of_words::<(), View, (), DeskRule>(alloc, &[0, 0], &())?;
        let badge = seat.into_badge();
        Ok((table, Looker { badge }))
    }

    /// A stand-in.
    pub(crate) fn blank() -> Looker
        ensures { (result.seated ≡ false) × (result.view ≡ blank) }
    {
        Looker {
            badge: Badge::blank(),
        }
    }

    // The table's own seat, until it is put back.
    fn lift(&mut self) -> Seat<(), View>
        requires { self.old.seated ≡ true }
        ensures { (result.table_id ≡ self.old.table) × (result.me ≡ (self.old.view, [])) }
    {
        mem::replace(&mut self.badge, Badge::blank()).into_seat::<()>()
    }

    /// Loads a word once.
    pub(crate) fn load<M: Play<(), View>>(&mut self, table: &DeskTable, word: usize) -> u64
        requires table { (self.old.table ≡ table.now.shared.table_id)
            × (table.now.shared.table_id.words ≡ 2) }
        requires seated { self.old.seated ≡ true }
        requires word { word < 2 }
        requires keeps { (id : ℕ) → Allows AreLastWords table.now.shared.table_id.slots id
            (self.old.view, []) word (λ n. n)
            (M.then (step table.now.shared.table_id.slots word 0 0 none) (self.old.view, [])) }
        requires counts { (found : ℕ) (after : Me (Unit {0}) View)
            → M.then (step table.now.shared.table_id.slots word 0 0 none) (self.old.view, []) found
            after → Loads word found self.old.view after }
        ensures same { (self.new.seated ≡ true) × (self.new.table ≡ self.old.table) }
        ensures tells { M.then (step table.now.shared.table_id.slots word 0 0 none)
            (self.old.view, []) result (self.new.view, []) }
    {
        let mut seat = self.lift();
        let found = table.shared.load::<M>(&mut seat, word);
        self.badge = seat.into_badge();
        found
    }

    /// Stores a word.
    pub(crate) fn store<M: Play<(), View>>(&mut self, table: &DeskTable, word: usize, value: u64)
        requires table { (self.old.table ≡ table.now.shared.table_id)
            × (table.now.shared.table_id.words ≡ 2) }
        requires seated { self.old.seated ≡ true }
        requires word { word < 2 }
        requires keeps { (id : ℕ) → Allows AreLastWords table.now.shared.table_id.slots id
            (self.old.view, []) word (λ _. value)
            (λ _. M.then (step table.now.shared.table_id.slots word value 0 none)
            (self.old.view, []) value) }
        requires counts { (after : Me (Unit {0}) View)
            → M.then (step table.now.shared.table_id.slots word value 0 none) (self.old.view, [])
            value after → Stores word value self.old.view after }
        ensures same { (self.new.seated ≡ true) × (self.new.table ≡ self.old.table) }
        ensures tells { M.then (step table.now.shared.table_id.slots word value 0 none)
            (self.old.view, []) value (self.new.view, []) }
    {
        let mut seat = self.lift();
        table.shared.store::<M>(&mut seat, word, value);
        self.badge = seat.into_badge();
    }

    /// Parts what the seat knows and may do with a new seat.
    pub(crate) fn split<M: Split<View>>(&mut self, table: &DeskTable) -> Looker
        requires table { (self.old.table ≡ table.now.shared.table_id)
            × (table.now.shared.table_id.words ≡ 2) }
        requires seated { self.old.seated ≡ true }
        requires keeps { (id : ℕ)
            → Splits AreLastWords id self.old.view (M.left self.old.view) (M.right self.old.view) }
        requires counts { IsParted self.old.view (M.left self.old.view) (M.right self.old.view) }
        ensures left { self.new ≡ record self.old { view = M.left self.old.view } }
        ensures right { result ≡ record self.old { view = M.right self.old.view } }
    {
        let mut seat = self.lift();
        let other = table.shared.split_seat::<M>(&mut seat);
        self.badge = seat.into_badge();
        Looker {
            badge: other.into_badge(),
        }
    }

    /// Takes another seat's part in, which is spent.
    pub(crate) fn join<M: Join<View>>(&mut self, table: &DeskTable, other: Looker)
        requires table { (self.old.table ≡ table.now.shared.table_id)
            × (table.now.shared.table_id.words ≡ 2) }
        requires seated { self.old.seated ≡ true }
        requires other { (other.seated ≡ true) × (other.table ≡ self.old.table) }
        requires keeps { (id another : ℕ) → Joins AreLastWords id self.old.view another other.view
            (M.both self.old.view other.view) M.spent }
        requires counts { Joined self.old.view other.view (M.both self.old.view other.view) }
        ensures { self.new ≡ record self.old { view = M.both self.old.view other.view } }
    {
        let mut seat = self.lift();
        let mut other = other;
        table.shared.join_seat::<M>(&mut seat, other.lift());
        self.badge = seat.into_badge();
    }
}
