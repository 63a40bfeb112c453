//! Lists of asks and answers by terminal.
ghost use Rattle.std.specs.Prelude.{◌≡◌, ◌≤◌, ◌++◌, ◌+◌, ◌-◌, OnOk, OnErr, length, map, drop};
ghost use Rattle.std.specs.Prelude.{count_by, find, reverse, filter, slice_get, vec_len};
ghost use Rattle.std.specs.Prelude.{vec_capacity};
ghost use Rattle.std.specs.List.{list_any};
ghost use Rattle.lift_memory.specs.Growth.{IsSmall};
ghost use Rattle.lift_world.specs.World.{asks, is_answer_to, is_taken_of};
ghost use Rattle.lift_world.specs.Next.{others, unknown_to};

use crate::event::{Answer, Taken};
use lift_base::Terminal;
use lift_memory::{Memory, push_all, reserve, reserve_one};
use lift_policy::Command;

/// How many of these the terminal asked.
pub fn count_asks(asked: &[Command], terminal: Terminal) -> usize
    ensures { result ≡ count_by (asks terminal) asked.now }
{
    asked.iter().filter(|c| c.terminal == terminal).count()
}

/// How many of these are for the terminal.
pub fn count_answers(answers: &[Answer], terminal: Terminal) -> usize
    ensures { result ≡ count_by (is_answer_to terminal) answers.now }
{
    answers.iter().filter(|a| a.terminal == terminal).count()
}

/// Whether a command of the terminal is among these.
pub fn is_taken(taken: &[Taken], terminal: Terminal) -> bool
    ensures { result ≡ list_any (is_taken_of terminal) taken.now }
{
    taken.iter().any(|c| c.terminal == terminal)
}

/// The last of these that the terminal asked.
pub fn last_ask(asked: &[Command], terminal: Terminal) -> Option<Command>
    ensures { result ≡ find (asks terminal) (reverse asked.now) }
{
    let mut last = None;
    for command in asked {
        if command.terminal == terminal {
            last = Some(*command);
        }
    }
    last
}

/// The first of these that is of the terminal.
pub fn taken_of(taken: &[Taken], terminal: Terminal) -> Option<Taken>
    ensures { result ≡ find (is_taken_of terminal) taken.now }
{
    for command in taken {
        if command.terminal == terminal {
            return Some(*command);
        }
    }
    None
}

/// The answer to the terminal after this many.
pub fn answer_after(answers: &[Answer], terminal: Terminal, heard: usize) -> Option<Answer>
    ensures { result ≡ slice_get (filter (is_answer_to terminal) answers.now) heard }
{
    let mut left = heard;
    for answer in answers {
        if answer.terminal == terminal {
            if left == 0 {
                return Some(*answer);
            }
            left -= 1;
        }
    }
    None
}

/// Those of the terminal go, the others stay in order.
pub fn drop_taken(taken: &mut Vec<Taken>, terminal: Terminal)
    ensures { taken.new.items ≡ others terminal taken.old.items }
{
    taken.retain(|c| c.terminal != terminal);
}

/// Room for one more in each of the two.
pub fn reserve_both<T, U>(first: &mut Vec<T>, second: &mut Vec<U>) -> Result<(), Memory>
    requires { IsSmall T.row × IsSmall U.row }
    ensures items { (first.new.items ≡ first.old.items) × (second.new.items ≡ second.old.items) }
    ensures len { (vec_len first.new ≡ vec_len first.old)
        × (vec_len second.new ≡ vec_len second.old) }
    ensures ok { OnOk result ((vec_len first.new + 1 ≤ vec_capacity first.new)
        × (vec_len second.new + 1 ≤ vec_capacity second.new)) }
{
    reserve_one(first)?;
    reserve_one(second)
}

/// The commands become due with their replies.
pub fn add_due(due: &mut Vec<Taken>, commands: &[Taken]) -> Result<(), Memory>
    ensures ok { OnOk result (due.new.items ≡ due.old.items ++ commands.now) }
    ensures err { OnErr result (due.new.items ≡ due.old.items) }
{
    push_all(due, commands)
}

/// The commands become due, each answered Unknown.
pub fn add_unknown(due: &mut Vec<Taken>, commands: &[Taken]) -> Result<(), Memory>
    ensures ok { OnOk result (due.new.items ≡ due.old.items ++ map unknown_to commands.now) }
    ensures err { OnErr result (due.new.items ≡ due.old.items) }
{
    reserve(due, commands)?;
    for command in commands {
        let Ok(()) = due.push(command.unknown()) else {
            unreachable!()
        };
    }
    Ok(())
}
