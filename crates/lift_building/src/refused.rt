//! The one parse of a building's text, and the evidence that no memory was left for it.

ghost use Rattle.std.specs.Prelude.{◌≡◌, ◌↔◌, ℕ, List, IsSome, IfSome, IfErr};
ghost use Rattle.toml.specs.Errors.{IsMemory};
ghost use Rattle.toml.specs.View.{view};
ghost use Rattle.lift_building.specs.Reading.{document_of};
ghost use Rattle.lift_building.specs.Gives.{GivesIfRoom};

use crate::fault::BuildingFault;
use crate::proof_text::{CallText, ProofText};
use std::alloc::Global;
use std::marker::Model;
use toml::Value;
use toml::de::Error;

/// Evidence that no memory was left for a text, which only proofs read. Only `of` below makes one,
/// which `document_of` alone calls: of the error of its parse of that text, which was refused a
/// growth. Nobody can copy it: so each answer uses up a refusal.
#[derive(Drop)]
pub struct NoMemory {
    text: ProofText,
}

impl Model for NoMemory {
    ghost use Rattle.std.specs.Prelude.{ℕ, List};

    ghost Value = { List ℕ };

    ghost view = { λ e. e.text.bytes };
}

impl NoMemory {
    /// The evidence, where this is why the parse of the text failed.
    fn of(error: &Error, text: &str) -> Option<Self>
        ensures made { IsSome result ↔ IsMemory error.now }
        ensures text { IfSome result (λ no_memory. no_memory ≡ text.now) }
    {
        if error.is_memory() {
            Some(NoMemory {
                text: ProofText::of(&CallText { text }),
            })
        } else {
            None
        }
    }
}

/// The document that a text spells.
pub(crate) fn document_of(alloc: Global, text: &str) -> Result<Value, BuildingFault>
    ensures given { GivesIfRoom view result (document_of text.now) }
    ensures memory { IfErr result (λ fault.
        (other : List ℕ) → fault ≡ BuildingFault.Memory other → other ≡ text.now) }
{
    match toml::table_from_str(alloc, text) {
        Ok(table) => Ok(Value::Table(table)),
        Err(error) => match NoMemory::of(&error, text) {
            Some(no_memory) => Err(BuildingFault::Memory(no_memory)),
            None => Err(BuildingFault::NotToml),
        },
    }
}
