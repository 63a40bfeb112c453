//! What is true of all scripts.
ghost use Rattle.lift_replay.specs.Law.{EachHasOneReport, EachTellsOneText};

/// Each script has one report, and one verdict, whatever its bytes; and any lines report one text,
/// and have one verdict, of each group of each building.
pub fn each_script_has_one_report()
    ensures lines { EachTellsOneText }
    ensures reports { EachHasOneReport }
{}
