//! What a line may do to the group's device: set a fuse, or cut the power. How it is spelled, and
//! what it does.

ghost use Rattle.std.specs.Prelude.{◌≡◌, ◌∷◌, IfSome, IfNone, codes};
ghost use Rattle.lift_base.specs.lemmas.Texts.{texts};
ghost use Rattle.lift_disk.specs.declared.outcome.Outcome.{Outcome as Left};
ghost use Rattle.lift_replay.specs.DeviceAction.{AreReadAsAction, DoesToDevice};
ghost use Rattle.lift_replay.specs.DeviceAction.{SayOutcome, cut_by};

use lift_base::text::number_up_to;
use lift_clerk::Clerk;
use lift_disk::{FuseDisk, Outcome};
use lift_policy::Etd;

/// What a line does to the device.
#[derive(Clone, Copy, PartialEq, Eq)]
pub enum DeviceAction {
    /// After this many device calls, at most 1,000,000, every call fails.
    Fuse { calls: u32 },
    /// The power is cut, and comes back: what becomes of the sectors that weren't safe.
    Cut { outcome: Outcome },
}

/// What the last words of a power cut say that it leaves.
fn outcome_of(words: &[&str]) -> Option<Outcome>
    ensures some { IfSome result (SayOutcome (texts words.now)) }
    ensures none { IfNone result ((outcome : Left) → SayOutcome (texts words.now) outcome → ⊥) }
{
    match words {
        [word] => {
            if *word == "keep" {
                Some(Outcome::Keep)
            } else if *word == "lose" {
                Some(Outcome::Lose)
            } else {
                None
            }
        }
        [word, byte] => {
            if *word == "fill" {
                let byte = number_up_to(byte, 255)?;
                Some(Outcome::Fill(byte as u8))
            } else {
                None
            }
        }
        _ => None,
    }
}

fn fuse_of(words: &[&str]) -> Option<DeviceAction>
    ensures { AreReadAsAction (codes "fuse" ∷ texts words.now) result }
{
    let [calls] = words else { return None };
    let calls = number_up_to(calls, 1_000_000)?;
    Some(DeviceAction::Fuse { calls })
}

fn cut_of(words: &[&str]) -> Option<DeviceAction>
    ensures { AreReadAsAction (codes "cut" ∷ texts words.now) result }
{
    let outcome = outcome_of(words)?;
    Some(DeviceAction::Cut { outcome })
}

/// What a line's words do to the device, by the first one.
pub fn device_action_of(first: &str, others: &[&str]) -> Option<DeviceAction>
    ensures { AreReadAsAction (first.now ∷ texts others.now) result }
{
    match first {
        "fuse" => fuse_of(others),
        "cut" => cut_of(others),
        _ => None,
    }
}

impl DeviceAction {
    /// Does it to a clerk's device. The answer is what the power cut makes of the sectors that
    /// weren't safe, if it is one: whoever has the device cuts it.
    pub fn carry_out(&self, clerk: &mut Clerk<'_, '_, FuseDisk, Etd>) -> Option<Outcome>
        ensures does { DoesToDevice self.now clerk.old clerk.new }
        ensures cut { result ≡ cut_by self.now }
    {
        match *self {
            DeviceAction::Fuse { calls } => {
                clerk.arm(calls);
                None
            }
            DeviceAction::Cut { outcome } => Some(outcome),
        }
    }
}
