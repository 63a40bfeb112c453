//! The limits of an installation, each of which an array or a list has room for.

/// The most cars of a building.
pub const MOST_CARS: usize = 16;

/// The last car, counted from 0.
pub const LAST_CAR: u8 = MOST_CARS as u8 - 1;

/// The most kiosks of a building.
pub const MOST_KIOSKS: usize = 47;

/// The last kiosk, counted from 0.
pub const LAST_KIOSK: u8 = MOST_KIOSKS as u8 - 1;

/// The terminal of the first kiosk: those of the cars come before.
pub const FIRST_KIOSK: u8 = MOST_CARS as u8;

/// The most terminals of a desk: those of the cars and of the kiosks.
pub const MOST_TERMINALS: usize = MOST_CARS + MOST_KIOSKS;

/// The last terminal, counted from 0.
pub const LAST_TERMINAL: u8 = MOST_TERMINALS as u8 - 1;

/// The most entries of a batch, and records: one for each terminal.
pub const MOST_ENTRIES: usize = MOST_TERMINALS;

/// The most floors of a building.
pub const MOST_FLOORS: usize = 64;

/// The top floor of the highest building, counted from 0.
pub const TOP_FLOOR: u8 = MOST_FLOORS as u8 - 1;

/// The most batches that wait between an allocator and its flusher.
pub const MOST_BATCHES: usize = 4;

/// The most persons that a car takes at a time.
pub const MOST_PLACES: u8 = 32;

/// The most open calls of a car: each is for one person at least.
pub const MOST_ROWS: usize = MOST_PLACES as usize;

/// The most calls of a schedule: a car's open ones, and one that is weighed.
pub const MOST_WEIGHED: usize = MOST_ROWS + 1;

/// The most halts of a stop list: two for each call of a schedule.
pub const MOST_HALTS: usize = 2 * MOST_WEIGHED;

/// The most open calls of all cars.
pub const MOST_OPEN: usize = MOST_CARS * MOST_ROWS;

/// The largest count of done calls: every call that all kiosks can number.
pub const MOST_DONE: u32 = MOST_KIOSKS as u32 * 16_777_215;

/// The most records of a checkpoint: open calls, what each terminal said last, and the count of
/// done calls.
pub const MOST_RECORDS: usize = MOST_OPEN + MOST_TERMINALS + 1;

/// The fewest sectors of a half, in which a checkpoint of so many records has room.
pub const LEAST_HALF: u32 = 64;
