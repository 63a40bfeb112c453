//! Each device call of a clerk's turns and of a flusher's is stopped in turn, by a device that fails
//! once and by one that fails from then on; after it the power is cut in five ways or not at all,
//! and the recovery is stopped at each of its own calls too, and begun again. What was told is there
//! each time. The work is three batches, which wait in the line for a flusher; one after a
//! checkpoint; and one whose checkpoint moves a journal of version 1 to version 2.

mod asking;
pub(crate) mod case;
pub(crate) mod images;
pub(crate) mod showing;
pub(crate) mod stops;
