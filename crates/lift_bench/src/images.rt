//! Journals on files, and the plain calls beside them.
ghost use Rattle.std.specs.Prelude.{◌≡◌, ◌≤◌, All, length};
ghost use Rattle.lift_base.specs.Records.{IsLawful};
ghost use Rattle.lift_journal.specs.Order.{IsEntry};

use crate::fault::Fault;
use arrayvec::ArrayVec;
use lift_base::{Dir, Entry, Floor, Letter, MOST_ENTRIES, Number, Record, Shape, push_some};
use lift_disk::{Disk, FileDisk, FileOpener};
use lift_journal::{Journal, Visitor};

/// A stop of car A.
fn stop() -> Record
    ensures lawful { IsLawful result }
    ensures entry { IsEntry result }
{
    Record::Entry(Entry::Stop {
        car: Letter::default(),
        number: Number::new(1).unwrap(),
        floor: Floor::default(),
        dir: Dir::Up,
    })
}

/// This many stops.
fn stops(count: usize) -> ArrayVec<Record, MOST_ENTRIES>
    requires { count ≤ 63 }
    ensures count { length result.items ≡ count }
    ensures lawful { All IsLawful result.items }
    ensures entries { All IsEntry result.items }
{
    let record = &stop();
    let mut batch = ArrayVec::new();
    for _place in 0..count {
        push_some(&mut batch, Some(*record));
    }
    batch
}

fn journal_at<O: FileOpener>(
    opener: O,
    image: &str,
) -> Result<Journal<FileDisk<O::Listed>>, Fault> {
    let disk = FileDisk::open(opener, image)?;
    match Journal::open(disk) {
        Ok(journal) => Ok(journal),
        Err((_disk, fault)) => Err(Fault::from(fault)),
    }
}

/// Makes an empty journal with this many sectors in a half.
pub(crate) fn format<O: FileOpener>(opener: O, image: &str, half: u32) -> Result<(), Fault> {
    let shape = Shape {
        floors: 64,
        cars: 16,
        kiosks: 47,
        half,
    };
    if !shape.is_within_limits() {
        return Err(Fault::Words);
    }
    let mut disk = FileDisk::create(opener, image, 2 * half + 2)?;
    lift_journal::format(&mut disk, shape)?;
    Ok(())
}

/// Opens a journal; the sectors of its halves.
pub(crate) fn open<O: FileOpener>(opener: O, image: &str) -> Result<u32, Fault> {
    let journal = journal_at(opener, image)?;
    Ok(journal.shape().half)
}

/// How many batches an opening has shown, and how many records.
#[derive(Drop)]
struct Count {
    batches: u32,
    records: u64,
}

impl Visitor for Count {
    ghost takes = { λ old records new. Unit {0} };

    fn visit(&mut self, records: &ArrayVec<Record, MOST_ENTRIES>) {
        self.batches = self.batches.saturating_add(1);
        self.records = self.records.saturating_add(records.len() as u64);
    }
}

/// Opens a journal and counts its batches and their records as they are read.
pub(crate) fn walk<O: FileOpener>(opener: O, image: &str) -> Result<(u32, u64), Fault> {
    let disk = FileDisk::open(opener, image)?;
    let mut count = Count {
        batches: 0,
        records: 0,
    };
    match Journal::open_with(disk, &mut count) {
        Ok(_journal) => Ok((count.batches, count.records)),
        Err((_disk, fault)) => Err(Fault::from(fault)),
    }
}

/// Appends this many batches of this many records, as long as the half has room; how many.
pub(crate) fn append<O: FileOpener>(
    opener: O,
    image: &str,
    records: usize,
    count: u32,
) -> Result<u32, Fault>
    requires some { 1 ≤ records }
    requires fit { records ≤ 63 }
{
    let mut journal = journal_at(opener, image)?;
    let batch = stops(records);
    let mut batches = 0u32;
    for _batch in 0..count {
        if !journal.room(records) {
            break;
        }
        journal.append(&batch)?;
        batches = batches.saturating_add(1);
    }
    Ok(batches)
}

/// Reads the first sectors of a file in order, this many of those that are there.
pub(crate) fn read<O: FileOpener>(opener: O, file: &str, sectors: u32) -> Result<u32, Fault> {
    let mut disk = FileDisk::open(opener, file)?;
    let mut buffer = [0; 512];
    let sectors = sectors.min(disk.sectors());
    for sector in 0..sectors {
        if sector < disk.sectors() {
            disk.read(sector, &mut buffer)?;
        }
    }
    Ok(sectors)
}

/// Writes a sector of a new file and syncs it, this many times.
pub(crate) fn sync<O: FileOpener>(opener: O, file: &str, count: u32) -> Result<(), Fault> {
    let mut disk = FileDisk::create(opener, file, 1000)?;
    for time in 0..count {
        if time % 1000 < disk.sectors() {
            disk.write(time % 1000, &[0xA5; 512])?;
            disk.sync()?;
        }
    }
    Ok(())
}
