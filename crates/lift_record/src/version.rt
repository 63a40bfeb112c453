//! The versions of the format.
ghost use Rattle.std.specs.Prelude.{◌≡◌};
ghost use Rattle.lift_record.specs.Version.{version_number};

/// A version of the format of records and headers. The first knows no parties: each of its calls is
/// for one person.
#[derive(Clone, Copy)]
pub enum Version {
    One,
    Two,
}

impl Version {
    /// 1 or 2, as headers have it.
    pub fn number(self) -> u8
        ensures { result ≡ version_number self }
    {
        match self {
            Version::One => 1,
            Version::Two => 2,
        }
    }
}
