//! Tests of `lift_relay`: worked turns and runs of both parts, and the kiosks on threads of their own
//! beside them.

mod held;
mod meeting;
pub(crate) mod turns;
