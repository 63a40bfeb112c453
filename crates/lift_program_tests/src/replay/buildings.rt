//! Buildings' texts: the right answer, where there is memory.
use lift_building::{Building, BuildingFault};

/// Two floors, a kiosk and a car.
const WHOLE: &str =
    "floors = 2\ndoor_ms = 1\nkiosks = [0]\nflight = [[0, 1], [1, 0]]\ncars = [{ places = 1 }]";

/// The same without the flights from floor 1.
const HALF: &str =
    "floors = 2\ndoor_ms = 1\nkiosks = [0]\nflight = [[0, 1]]\ncars = [{ places = 1 }]";

#[test]
fn memory_or_the_right_answer(rt: HostRuntime) {
    let whole = Building::read(rt.alloc(), WHOLE);
    assert!(rt; matches!(whole, Ok(_) | Err(BuildingFault::Memory(_))));
    let half = Building::read(rt.alloc(), HALF);
    assert!(rt;
        matches!(
            half,
            Err(BuildingFault::TableShape | BuildingFault::Memory(_))
        )
    );
}
