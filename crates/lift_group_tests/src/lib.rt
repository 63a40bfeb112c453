//! Tests of what serves a group: `relay` has both parts of a clerk, by turns and on threads; `sessions`
//! a kiosk and a car whose clerk turns while they wait; `faults` turns and lines of batches that are
//! stopped at each call of the device.
#![tactic(auto)]

#[cfg(test)]
mod deeds;
#[cfg(test)]
mod device;
#[cfg(test)]
mod faults;
#[cfg(test)]
mod gate;
#[cfg(test)]
mod groups;
#[cfg(test)]
mod relay;
#[cfg(test)]
mod relays;
#[cfg(test)]
mod sessions;
#[cfg(test)]
mod tally;
#[cfg(test)]
mod terminals;
