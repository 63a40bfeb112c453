//! Policies beside the shipped ones.
ghost use Rattle.std.specs.Prelude.{Contains};
ghost use Rattle.lift_cases.specs.Highest.{HighestChoice};

use lift_base::Letter;
use lift_building::Building;
use lift_cost::NewCall;
use lift_policy::{Eligible, Policy, View};

/// The eligible car with the highest letter.
pub(crate) struct Highest;

impl Policy for Highest {
    ghost chooses = { λ _. HighestChoice };

    fn choose(
        &self,
        _building: &Building,
        _view: &View,
        _call: NewCall,
        eligible: Eligible,
    ) -> Letter {
        let letters = eligible.letters();
        letters[letters.len() - 1]
    }

    ghost only_members = { λ policy plan view call eligible car h. h.member };
}

/// A policy that reads the register: the eligible cars in turn.
pub(crate) struct InTurn;

impl Policy for InTurn {
    ghost chooses = { λ _ _ _ _ eligible car. Contains eligible car };

    fn choose(
        &self,
        _building: &Building,
        view: &View,
        _call: NewCall,
        eligible: Eligible,
    ) -> Letter {
        let letters = eligible.letters();
        let register = view.register();
        let calls = (register.done() + register.open_count()) as usize;
        letters[calls % letters.len()]
    }

    ghost only_members = { λ policy plan view call eligible car h. h };
}
