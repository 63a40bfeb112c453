//! Which cars are present.

ghost use Rattle.std.specs.Prelude.{◌≡◌};
ghost use Rattle.lift_policy.specs.Present.{is_in};
ghost use Rattle.lift_policy.specs.declared.presence.CarSet.{CarSet as Cars};

use lift_base::Letter;

/// Some cars.
#[derive(Clone, Copy)]
pub struct CarSet {
    /// Bit i is set where the car with index i is one of them.
    pub bits: u16,
}

impl CarSet {
    /// Whether a car is one of them.
    pub fn has(&self, car: Letter) -> bool
        ensures { result ≡ is_in self.now car }
    {
        (self.bits >> car.get()) & 1 == 1
    }
}

/// Who knows which cars are present.
pub trait Presence {
    /// Which cars it may tell.
    ghost tells: { Self → Cars → Type 0 };

    /// The cars that are present now.
    fn present(&self) -> CarSet
        ensures { tells self.now result };
}

/// These cars, and no others.
impl Presence for CarSet {
    ghost tells = { λ cars told. told ≡ cars };

    fn present(&self) -> CarSet {
        *self
    }
}
