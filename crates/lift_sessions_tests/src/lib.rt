//! Tests of the desk; and tests of the sessions of kiosks and cars, and of drives, over a desk whose
//! clerk is played while the port rests.
#![tactic(auto)]

#[cfg(test)]
mod cars;
#[cfg(test)]
mod desk;
#[cfg(test)]
mod drives;
#[cfg(test)]
mod faults;
#[cfg(test)]
mod kiosks;
#[cfg(test)]
mod recorder;
#[cfg(test)]
mod scenes;
#[cfg(test)]
mod served;
#[cfg(test)]
mod streams;
#[cfg(test)]
mod words;
