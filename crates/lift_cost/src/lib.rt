//! What a call costs the passengers of a car: estimated times to destination, and what a new call
//! adds to them. All times are in ms.
#![tactic(auto)]

mod among;
mod call;
mod cost;
mod laws;
mod scheduled;
mod ways;

pub use among::arrival_at;
pub use call::{NewCall, waiting_row};
pub use cost::{degradation, etd, total_cost};
pub use laws::{arrivals_add_up, nobody_arrives_sooner};
pub use scheduled::{cost_of, degradation_of, etd_of};
