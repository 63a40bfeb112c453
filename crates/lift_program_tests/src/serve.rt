//! Tests of `lift_serve`.

mod ahead;
mod callers;
mod group;
mod rests;
mod serving;
mod words;
