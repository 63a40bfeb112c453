//! The building of the decisions: 64 floors, 47 kiosks on the lowest of them, and cars for 32
//! persons that serve all.
use std::alloc::{AllocError, Global};
use std::fmt::Write;

/// The flights from a floor, in ms.
fn push_flights(text: &mut String, from: u32) -> Result<(), AllocError> {
    text.push('[')?;
    for to in 0..64u32 {
        let flight = if from == to {
            0
        } else {
            2000 + 1000 * (from % 64).abs_diff(to)
        };
        write!(text, "{flight},")?;
    }
    text.push_str("],\n")
}

/// The building's text, with this many cars.
pub(crate) fn text_of(alloc: Global, cars: u8) -> Result<String, AllocError> {
    let mut text = String::from_str(alloc, "floors = 64\ndoor_ms = 6000\nkiosks = [")?;
    for kiosk in 0..47u32 {
        write!(text, "{kiosk},")?;
    }
    text.push_str("]\nflight = [\n")?;
    for from in 0..64 {
        push_flights(&mut text, from)?;
    }
    text.push_str("]\n")?;
    for _ in 0..cars {
        text.push_str("[[cars]]\nplaces = 32\n")?;
    }
    Ok(text)
}
