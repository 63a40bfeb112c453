//! Tests of `lift_disk`: a device that fails once; and calls of a file, which are listed.

mod calls;
mod flaky;
mod noted;
