//! A sector of a device in memory, in two places, so that a sync need not copy it.
#![tactic(auto, unfolding(crate::specs::Places::now_in, crate::specs::Places::safe_in))]

ghost use Rattle.std.specs.Prelude.{◌≡◌, replicate};

/// What was written last is in one of the two places, and what the last sync made safe in one: in the
/// same, or in the other.
#[derive(Drop)]
pub(crate) struct TwoPlaces {
    first: [u8; 512],
    second: [u8; 512],
    is_last_second: bool,
    is_safe_second: bool,
}

impl TwoPlaces {
    ghost use Rattle.lift_disk.specs.Places.{now_in, safe_in};

    /// Zeros, and they are safe.
    pub(crate) fn zeros() -> TwoPlaces
        ensures now { now_in result ≡ replicate 512 0 }
        ensures safe { safe_in result ≡ replicate 512 0 }
    {
        TwoPlaces {
            first: [0; 512],
            second: [0; 512],
            is_last_second: false,
            is_safe_second: false,
        }
    }

    /// What was written last.
    #[inline]
    pub(crate) fn now(&self) -> &[u8; 512]
        ensures { result.now ≡ now_in self.now }
    {
        if self.is_last_second {
            &self.second
        } else {
            &self.first
        }
    }

    /// Writes these bytes, in the place that isn't the safe one.
    #[inline]
    pub(crate) fn write(&mut self, bytes: &[u8; 512])
        ensures now { now_in self.new ≡ bytes.now }
        ensures safe { safe_in self.new ≡ safe_in self.old }
    {
        if self.is_safe_second {
            self.first = *bytes;
            self.is_last_second = false;
        } else {
            self.second = *bytes;
            self.is_last_second = true;
        }
    }

    /// What was written last is safe.
    #[inline]
    pub(crate) fn save(&mut self)
        ensures now { now_in self.new ≡ now_in self.old }
        ensures safe { safe_in self.new ≡ now_in self.old }
    {
        self.is_safe_second = self.is_last_second;
    }

    /// What was written last is lost: what is safe is there again.
    #[inline]
    pub(crate) fn take_back(&mut self)
        ensures now { now_in self.new ≡ safe_in self.old }
        ensures safe { safe_in self.new ≡ safe_in self.old }
    {
        self.is_last_second = self.is_safe_second;
    }
}
