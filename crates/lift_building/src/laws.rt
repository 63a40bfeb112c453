ghost use Rattle.lift_building.specs.Faults.{FaultsAreFirst};

/// What reading a document comes to where it is refused: exactly the fault of which the key or the
/// value that it names is at fault, and all keys, items and numbers that are looked at before it
/// are right. So one fault of a document is its first.
pub fn faults_are_first()
    ensures { FaultsAreFirst }
{}
