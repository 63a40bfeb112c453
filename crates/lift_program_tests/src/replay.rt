//! Tests of `lift_replay`.

mod buildings;
mod reading;
mod streams;
