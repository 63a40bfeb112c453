//! One scan of the desk's terminals, and what is decided of what it found.

ghost use Rattle.std.specs.Prelude.{◌≡◌, ℕ, suc, ◌<◌, ◌≤◌, ◌+◌, List, [], ◌∷◌, ◌++◌, length};
ghost use Rattle.std.specs.Prelude.{Some, false};
ghost use Rattle.std.specs.Option.{option_to_list};
ghost use Rattle.atomic_table.specs.Seated.{TableId};
ghost use Rattle.lift_clerk.specs.Visits.{command_at};
ghost use Rattle.lift_clerk.specs.Scanning.{ClerkScans, Decides};

use crate::answering::{AnsweringSeat, DueAnswer};
use arrayvec::ArrayVec;
use lift_base::{MOST_ENTRIES, MOST_TERMINALS, Reply, Terminal};
use lift_desk::{Ask, Desk};
use lift_disk::Disk;
use lift_keeper::Keeper;
use lift_policy::{Policy, decisions_preserve};

/// Who looks at the terminals of a desk, one after another, and decides what it finds there.
pub trait DeskScan<T> {
    // What its looks at the first so many terminals made of it, and what they found.
    ghost has_scanned: { List TableId → Self → Self → List T → ℕ → Type 0 };

    /// Looks once at the next terminal, and decides what is asked there.
    fn visit(&mut self, desk: &Desk, terminal: Terminal) -> Option<T>
        requires terminal { terminal < length desk.now }
        requires scanned { (start : Self) × (found : List T)
            × has_scanned desk.now start self.old found terminal }
        ensures { (start : Self) (found : List T) → has_scanned desk.now start self.old found terminal
            → has_scanned desk.now start self.new (found ++ option_to_list result) (suc terminal) };
}

/// Looks once at each terminal, and decides what is asked there, in rising order, each on the state
/// that the earlier ones left. What that made of the scanner, its own relation says.
pub fn scan_desk<T: Default + Drop, S: DeskScan<T>>(
    desk: &Desk,
    scanner: &mut S,
    found: &mut ArrayVec<T, MOST_ENTRIES>,
)
    requires begins { S.has_scanned desk.now scanner.old scanner.old [] 0 }
    ensures { S.has_scanned desk.now scanner.old scanner.new found.new.items (length desk.now) }
{
    found.clear();
    // (at most 63, so that the compiled loop tests no terminal's index)
    for t in 0..desk.len().min(MOST_TERMINALS) {
        let terminal = Terminal::new(t as u8).unwrap();
        if let Some(item) = scanner.visit(desk, terminal) {
            found.push(item);
        }
    }
}

/// What a clerk scans with: its seats, its keeper, and the policy that names cars.
#[derive(Drop)]
pub struct ClerkParts<'b, D: Disk, P: Policy + Drop> {
    pub seat: AnsweringSeat,
    pub keeper: Keeper<'b, D>,
    pub policy: P,
}

impl<'b, D: Disk, P: Policy + Drop> DeskScan<DueAnswer> for ClerkParts<'b, D, P> {
    ghost has_scanned = { λ desk old new answers n. (new.policy ≡ old.policy)
        × ClerkScans (P.chooses old.policy) desk old.seat new.seat old.keeper new.keeper answers
        n };

    // (each turn looks at each terminal)
    #[inline(always)]
    fn visit(&mut self, desk: &Desk, terminal: Terminal) -> Option<DueAnswer> {
        decisions_preserve(&self.policy);
        let ask = self.seat.look(desk, terminal)?;
        let reply = decide(&mut self.keeper, &self.policy, terminal, ask);
        Some(DueAnswer { terminal, reply })
    }
}

/// Decides an ask by the rules. While the keeper is broken it isn't known what becomes of it.
fn decide<D: Disk, P: Policy>(
    keeper: &mut Keeper<'_, D>,
    policy: &P,
    terminal: Terminal,
    ask: Ask,
) -> Reply
    requires room { keeper.old.writer.is_broken ≡ false → length keeper.old.state.batch < MOST_ENTRIES }
    ensures decides { Decides keeper.old.writer.is_broken keeper.old.writer.plan
        (P.chooses policy.now) keeper.old.state
        (command_at terminal (Some ask)) (result ∷ []) keeper.new.state }
    ensures grows { keeper.old.writer.is_broken ≡ false
        → length keeper.new.state.batch ≤ length keeper.old.state.batch + 1 }
    ensures writer { keeper.new.writer ≡ keeper.old.writer }
{
    if keeper.is_broken() {
        Reply::Unknown
    } else {
        keeper.decide(terminal, ask.number, &ask.body, policy)
    }
}
