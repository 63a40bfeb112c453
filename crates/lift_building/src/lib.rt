//! What a building is, read from its text, and how long its cars take.
#![tactic(auto)]

mod building;
mod detour;
mod fault;
mod laws;
mod layout;
mod proof_text;
mod reading;
mod refused;

pub use building::Building;
pub use fault::{BuildingFault, Field};
pub use laws::faults_are_first;
pub use refused::NoMemory;
