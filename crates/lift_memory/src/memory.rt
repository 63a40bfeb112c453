//! Want of memory, and the growths that alone answer it.
ghost use Rattle.std.specs.Prelude.{◌≡◌, ◌+◌, ◌≤◌, ◌++◌, [], ◌∷◌, if◌then◌else◌, is_ok};
ghost use Rattle.std.specs.Prelude.{length, vec_len, vec_capacity, IfOk, OnOk};
ghost use Rattle.std.specs.Arc.{arc_value};
ghost use Rattle.lift_memory.specs.Growth.{IsSmall};
ghost use Rattle.atomic_table.specs.Table.{opening};
ghost use Rattle.crossbeam_queue.specs.Fifo.{Pushes, Pops};
ghost use Rattle.crossbeam_queue.specs.Passes.{view, IsPassOf, ruled_capacity};

use atomic_table::{Seat, Table, TableRule};
use crossbeam_queue::protocol::{Outcome, Protocol};
use crossbeam_queue::{Pass, RuledArrayQueue};
use std::alloc::Global;
use std::marker::Model;
use std::sync::Arc;

/// No memory was left: a growth was refused. Only the calls of this file make one, each where its
/// own growth was refused, but for what `two_owners` and `passed_queue` say of themselves. None asks
/// for more than there is already, or 63 items of 16 KiB at most, and none for items that take no
/// room. (The library's error can be made by anybody, so none is made of it.) Nobody can copy one: so
/// each answer uses up a refusal.
#[derive(Drop, PartialEq, Eq)]
pub struct Memory {
    made: (),
}

impl Model for Memory {
    ghost Value = { Unit {0} };

    ghost view = { λ _. tt };

    ghost inverse = { λ _. record { made = tt } };
}

/// An empty list with room for so many, at most as many as there are terminals.
pub fn with_room<T>(alloc: Global, count: usize) -> Result<Vec<T>, Memory>
    requires count { count ≤ 63 }
    requires small { IsSmall T.row }
    ensures items { IfOk result (λ items. items.items ≡ []) }
    ensures len { IfOk result (λ items. vec_len items ≡ 0) }
    ensures capacity { IfOk result (λ items. count ≤ vec_capacity items) }
{
    match Vec::with_capacity(alloc, count) {
        Ok(items) => Ok(items),
        Err(_) => Err(Memory { made: () }),
    }
}

/// Room for one more.
pub fn reserve_one<T>(items: &mut Vec<T>) -> Result<(), Memory>
    requires { IsSmall T.row }
    ensures items { items.new.items ≡ items.old.items }
    ensures len { vec_len items.new ≡ vec_len items.old }
    ensures ok { OnOk result (vec_len items.new + 1 ≤ vec_capacity items.new) }
{
    match items.reserve(1) {
        Ok(()) => Ok(()),
        Err(_) => Err(Memory { made: () }),
    }
}

/// Room for as many more as these are.
pub fn reserve<T>(items: &mut Vec<T>, more: &[T]) -> Result<(), Memory>
    requires { IsSmall T.row }
    ensures items { items.new.items ≡ items.old.items }
    ensures len { vec_len items.new ≡ vec_len items.old }
    ensures ok { OnOk result (vec_len items.new + length more.now ≤ vec_capacity items.new) }
{
    match items.reserve(more.len()) {
        Ok(()) => Ok(()),
        Err(_) => Err(Memory { made: () }),
    }
}

/// One more at the end. A list that is refused it stays as it is.
pub fn push<T: Drop>(items: &mut Vec<T>, item: T) -> Result<(), Memory>
    requires { IsSmall T.row }
    ensures items { items.new.items
        ≡ (if is_ok result then items.old.items ++ item ∷ [] else items.old.items) }
    ensures len { vec_len items.new
        ≡ (if is_ok result then vec_len items.old + 1 else vec_len items.old) }
{
    match items.push(item) {
        Ok(()) => Ok(()),
        Err(_) => Err(Memory { made: () }),
    }
}

/// All of these at the end. A list that is refused them stays as it is.
pub fn push_all<T: Copy>(items: &mut Vec<T>, more: &[T]) -> Result<(), Memory>
    requires { IsSmall T.row }
    ensures items { items.new.items
        ≡ (if is_ok result then items.old.items ++ more.now else items.old.items) }
    ensures len { vec_len items.new
        ≡ (if is_ok result then vec_len items.old + length more.now else vec_len items.old) }
{
    match items.extend_from_slice(more) {
        Ok(()) => Ok(()),
        Err(_) => Err(Memory { made: () }),
    }
}

/// A value, and two that own it. The second is refused only where 2 ^ 63 own it already: that the
/// first is alone isn't proved, so that too is answered as a want of memory.
pub fn two_owners<T: Drop>(alloc: Global, value: T) -> Result<(Arc<T>, Arc<T>), Memory>
    requires { IsSmall T.row }
    ensures { IfOk result (λ owners. (arc_value owners.0 ≡ value) × (arc_value owners.1 ≡ value)) }
{
    let Ok(first) = Arc::new(alloc, value) else {
        return Err(Memory { made: () });
    };
    match Arc::try_clone(&first) {
        Ok(second) => Ok((first, second)),
        Err(_) => Err(Memory { made: () }),
    }
}

/// A table of words without slots, and the first seat at it.
pub fn table_of_words<S, V, K, P: TableRule<S, V, K>>(
    alloc: Global,
    words: &[u64],
    about: &K,
) -> Result<(Table<S, V, K, P, Global>, Seat<S, V>), Memory>
    requires { P.holds about.now (opening words.now [] (P.first about.now)) }
    ensures { IfOk result (λ t. (t.0.shared.table_id.words ≡ length words.now)
        × (t.0.shared.table_id.slots ≡ 0) × (t.1.table_id ≡ t.0.shared.table_id)
        × (t.1.id ≡ 0) × (t.1.me ≡ (P.first about.now, []))
        × (t.0.shared.key ≡ about.now)) }
{
    match Table::of_words(alloc, words, about) {
        Ok(made) => Ok(made),
        Err(_) => Err(Memory { made: () }),
    }
}

/// An empty queue of so much room, through which this item went: pushed by `M`, popped by `N`.
/// Nobody else has the queue yet, so both succeed once its room is there, though that isn't proved:
/// where one failed, that too would be answered as a want of memory.
pub fn passed_queue<T, V, P, M, N>(
    alloc: Global,
    room: usize,
    item: T,
) -> Result<(RuledArrayQueue<T, V, P>, Pass<T, V>), Memory>
where
    T: Drop,
    P: Protocol<T, V>,
    M: Outcome<T, V>,
    N: Outcome<T, V>,
    requires room { (1 ≤ room) × (room ≤ 63) }
    requires small { IsSmall T.row }
    requires rule { P.holds [] (P.first ∷ []) }
    requires pushes { Pushes P.holds room 0 P.first item (M.then P.first item) }
    requires pops { (w : V) → M.then P.first item w → Pops P.holds 0 w (N.then w) }
    ensures queue { IfOk result (λ made. IsPassOf made.0 made.1
        × (ruled_capacity made.0 ≡ room)) }
    ensures went { IfOk result (λ made. (w : V) × (x : T) × M.then P.first item w
        × N.then w x (view made.1)) }
{
    let Ok((queue, mut pass)) = RuledArrayQueue::ruled(alloc, room) else {
        return Err(Memory { made: () });
    };
    let pushed = queue.try_push_as::<M>(&mut pass, item);
    if pushed.is_err() {
        return Err(Memory { made: () });
    }
    match queue.try_pop_as::<N>(&mut pass) {
        Some(_) => Ok((queue, pass)),
        None => Err(Memory { made: () }),
    }
}
