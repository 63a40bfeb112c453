//! A model car with its halts.
ghost use Rattle.std.specs.Prelude.{◌≡◌};

use lift_base::{Dir, Floor, Position, Stop};
use lift_car::{Car, Halts, ModelCar};
use std::alloc::Global;
use std::cell::Cell;

/// Where a car was sent, and how many asks its port had been given until then.
#[derive(Clone, Copy)]
pub(crate) struct Halt {
    pub asks: u32,
    pub floor: u8,
    pub dir: Dir,
}

/// A model car with its halts.
#[derive(Drop)]
pub(crate) struct Recorder<'a> {
    pub car: ModelCar,
    asks: &'a Cell<u32>,
    pub halts: Vec<Halt>,
}

impl<'a> Recorder<'a> {
    /// It is at floor 0, up.
    pub(crate) fn new(alloc: Global, asks: &'a Cell<u32>) -> Self {
        let position = Position {
            floor: Floor::default(),
            dir: Dir::Up,
        };
        Recorder {
            car: ModelCar { position },
            asks,
            halts: Vec::new(alloc),
        }
    }
}

impl Car for Recorder<'_> {
    ghost use Rattle.lift_car.specs.Model.{position_of_car, IsSentTo};

    ghost stands = { λ r. position_of_car r.car };

    ghost goes = { λ before stop after. IsSentTo before.car stop after.car };

    fn tell(&self) -> Position {
        self.car.tell()
    }

    fn go(&mut self, stop: Stop) {
        self.car.go(stop);
        let at = self.car.tell();
        let _kept = self.halts.push(Halt {
            asks: self.asks.get(),
            floor: at.floor.get(),
            dir: at.dir,
        });
    }
}

impl<P> Halts<P> for Recorder<'_> {
    ghost halts = { λ before port after. after ≡ before };

    fn halt(&mut self, _port: &P) {}
}
