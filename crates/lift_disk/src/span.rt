//! Where loose sectors are looked for.
ghost use Rattle.std.specs.Prelude.{◌≡◌, ◌≤◌, ◌<◌, ◌⊎◌, ℕ};
ghost use Rattle.lift_disk.specs.Memory.{IsWithin};

/// The sectors from one on, up to the end, which isn't one of them.
#[derive(Clone, Copy)]
pub(crate) struct Span {
    pub from: usize,
    pub end: usize,
}

impl Span {
    /// No sector.
    pub(crate) fn none() -> Span
        ensures { (result.from ≡ 0) × (result.end ≡ 0) }
    {
        Span { from: 0, end: 0 }
    }

    /// The shortest span that has these sectors and one more.
    pub(crate) fn with(self, sector: u32) -> Span
        requires { self.from ≤ self.end }
        ensures holds { (i : ℕ) → IsWithin self.from self.end i ⊎ (i ≡ sector)
            → IsWithin result.from result.end i }
        ensures shortest { (from end : ℕ)
            → ((i : ℕ) → IsWithin self.from self.end i ⊎ (i ≡ sector) → IsWithin from end i)
            → (from ≤ result.from) × (result.end ≤ end) }
        ensures order { result.from ≤ result.end }
        ensures bound { (size : ℕ) → self.end ≤ size → sector < size → result.end ≤ size }
    {
        let first = sector as usize;
        if self.from == self.end {
            return Span {
                from: first,
                end: first + 1,
            };
        }
        Span {
            from: self.from.min(first),
            end: self.end.max(first + 1),
        }
    }
}
