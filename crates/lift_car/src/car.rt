//! What is driven.

ghost use Rattle.std.specs.Prelude.{◌≡◌};
ghost use Rattle.lift_base.specs.declared.travel.Position.{Position as PositionValue};
ghost use Rattle.lift_base.specs.declared.travel.Stop.{Stop as StopValue};
ghost use Rattle.lift_car.specs.Drive.{position_at};

use lift_base::{Position, Stop};

/// A car that says where it is, and goes to a stop.
pub trait Car {
    // where it says that it is
    ghost stands: { Self → PositionValue };

    // going to a stop takes it from one state to another
    ghost goes: { Self → StopValue → Self → Type 0 };

    /// The next floor at which it can still stop, and its direction.
    fn tell(&self) -> Position
        ensures { result ≡ stands self.now };

    /// Goes to the stop. It then says that floor and direction.
    fn go(&mut self, stop: Stop)
        ensures arrives { stands self.new ≡ position_at stop }
        ensures goes { goes self.old stop self.new };
}

/// A car that halts where it was sent, with its port beside it.
pub trait Halts<P>: Car {
    // halting beside a port that is so takes it from one state to another
    ghost halts: { Self → P → Self → Type 0 };

    /// Halts where it was sent, while its port is as it is: what the port is asked behind this, it
    /// is asked once the car has been there. The car then tells what it told before.
    fn halt(&mut self, port: &P)
        ensures halts { halts self.old port.now self.new }
        ensures stands { Self.stands self.new ≡ Self.stands self.old };
}

/// A car that is at once where it is sent.
#[derive(Clone, Copy)]
pub struct ModelCar {
    pub position: Position,
}

impl Car for ModelCar {
    ghost use Rattle.lift_car.specs.Model.{position_of_car, IsSentTo};

    ghost stands = { position_of_car };

    ghost goes = { IsSentTo };

    fn tell(&self) -> Position {
        self.position
    }

    fn go(&mut self, stop: Stop) {
        self.position = Position {
            floor: stop.floor,
            dir: stop.dir,
        };
    }
}

impl<P> Halts<P> for ModelCar {
    ghost halts = { λ before port after. after ≡ before };

    fn halt(&mut self, _port: &P) {}
}
