//! What holds of the plain definitions.

ghost use Rattle.lift_register.specs.Follows.{RowsFollow};
ghost use Rattle.lift_register.specs.Joins.{RegistersJoin, NothingChangesNothing, FittingJoins};

/// The register of a base and a first list, taken as the base of a later list, is the register of
/// the base and both lists, and each entry of both fits where it comes exactly where those of each
/// do. No entries change nothing. So it goes on over any number of checkpoints, batches and
/// recoveries.
pub fn registers_join()
    ensures joins { RegistersJoin }
    ensures nothing { NothingChangesNothing }
    ensures fitting { FittingJoins }
{}

/// An open call that the stops of its car serve one after another, as a register and a schedule
/// serve it, is what its status says.
pub fn rows_follow_their_stops()
    ensures { RowsFollow }
{}
