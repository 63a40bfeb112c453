//! A fixed list of numbers, which the commands of a case are made of, and what numbers stand for there.
use lift_base::{Dir, Floor, Letter, Party};

/// The next number of the list, below 65,536.
pub(crate) fn next(seed: &mut u32) -> u32 {
    *seed = seed.wrapping_mul(1_664_525).wrapping_add(1_013_904_223);
    *seed >> 16
}

pub(crate) fn next_dir(seed: &mut u32) -> Dir {
    if next(seed) % 2 == 0 {
        Dir::Up
    } else {
        Dir::Down
    }
}

pub(crate) fn floor(number: u32) -> Floor {
    Floor::new((number % 64) as u8).unwrap_or_default()
}

pub(crate) fn letter(index: u32) -> Letter {
    Letter::new((index % 16) as u8).unwrap_or_default()
}

pub(crate) fn party(persons: u32) -> Party {
    Party::new((persons % 16) as u8).unwrap_or_default()
}
