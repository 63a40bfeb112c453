ghost use Rattle.lift_cost.specs.Laws.{ArrivalsAddUp, ArrivalsAreAtPlaces, OthersHaveNone};
ghost use Rattle.lift_cost.specs.Laws.{OthersAreNoSooner, CostsAddUp, DegradationsAddUp};
ghost use Rattle.lift_cost.specs.Laws.{TimesStayOnceTaken, TotalsStayOnceTaken};

/// What the definitions of times come to: an arrival is the flight to the first halt, and a door
/// time and a flight for each halt up to it; and a car is at a halt of its list at the arrival of
/// that halt's place.
pub fn arrivals_add_up()
    ensures sums { ArrivalsAddUp }
    ensures places { ArrivalsAreAtPlaces }
    ensures others { OthersHaveNone }
{}

/// What the definitions of costs come to in a building: a new call makes no other passenger arrive
/// sooner, so no total cost and no degradation is cut off at 0. And once a car has the call, under
/// its kiosk, its number and the car's letter, all times are those by which it was weighed.
pub fn nobody_arrives_sooner()
    ensures others { OthersAreNoSooner }
    ensures costs { CostsAddUp }
    ensures degradations { DegradationsAddUp }
    ensures times { TimesStayOnceTaken }
    ensures totals { TotalsStayOnceTaken }
{}
