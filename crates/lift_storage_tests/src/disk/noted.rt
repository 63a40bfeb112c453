//! Calls of a file that is listed, and of a device over one, beside the calls of the system's file that they are.
use crate::disk::calls::Call;
use lift_disk::{Buffered, Disk, HostFile, ListedFile, SectorFile, SystemFile, TracedFile};
use std::cell::Cell;
use std::fs::{Metadata, OpenFile, Permissions};
use std::io;
use std::io::ErrorKind;
use std::os::unix::fs::FileExt;

/// A call of a file; of a read and a write where, and for how many bytes.
#[derive(Clone, Copy, PartialEq, Eq)]
enum Note {
    Lock,
    Rights,
    Length,
    SetLength(u64),
    Read(u64, usize),
    Write(u64, usize),
    Sync,
    SyncAll,
    Drop,
}

/// The first calls of a file.
#[derive(Drop)]
struct Notes {
    noted: Cell<[Option<Note>; 4]>,
    count: Cell<usize>,
}

impl Notes {
    fn new() -> Notes {
        Notes {
            noted: Cell::new([None; 4]),
            count: Cell::new(0),
        }
    }

    /// Whether just these calls were made since this was asked last.
    fn are(&self, wanted: &[Note]) -> bool {
        let noted = self.noted.get();
        let mut all = self.count.replace(0) == wanted.len();
        for (note, wanted) in noted.iter().zip(wanted) {
            all = (*note == Some(*wanted)) & all;
        }
        all
    }
}

/// A file of zeros that notes its calls. A call moves so many bytes at most, and one call fails.
#[derive(Drop)]
struct NotedFile<'n> {
    notes: &'n Notes,
    piece: usize,
    failing: usize,
}

impl NotedFile<'_> {
    fn note(&self, note: Note) -> io::Result<()> {
        let count = self.notes.count.get();
        let mut noted = self.notes.noted.get();
        if let Some(place) = noted.get_mut(count) {
            *place = Some(note);
        }
        self.notes.noted.set(noted);
        self.notes.count.set(count.saturating_add(1));
        if count == self.failing {
            return Err(io::Error::from(ErrorKind::TimedOut));
        }
        Ok(())
    }
}

impl FileExt for NotedFile<'_> {
    fn read_at(&self, buf: &mut [u8], offset: u64) -> io::Result<usize> {
        self.note(Note::Read(offset, buf.len()))?;
        buf.fill(0);
        Ok(buf.len().min(self.piece))
    }

    fn write_at(&self, buf: &[u8], offset: u64) -> io::Result<usize> {
        self.note(Note::Write(offset, buf.len()))?;
        Ok(buf.len().min(self.piece))
    }
}

impl OpenFile for NotedFile<'_> {
    fn metadata(&self) -> io::Result<Metadata> {
        self.note(Note::Length)?;
        Ok(Metadata::of_file(0))
    }

    fn set_len(&self, size: u64) -> io::Result<()> {
        self.note(Note::SetLength(size))
    }

    fn sync_all(&self) -> io::Result<()> {
        self.note(Note::SyncAll)
    }

    fn sync_data(&self) -> io::Result<()> {
        self.note(Note::Sync)
    }

    fn set_permissions(&self, _perm: Permissions) -> io::Result<()> {
        self.note(Note::Rights)
    }
}

impl HostFile for NotedFile<'_> {
    fn try_lock(&self) -> io::Result<()> {
        self.note(Note::Lock)
    }

    fn drop_cached(&self) -> io::Result<()> {
        self.note(Note::Drop)
    }
}

/// A call of a file that is listed; a read and a write are of the sector 3, or of that and the next.
#[derive(Clone, Copy)]
enum Listed {
    Lock,
    Restrict,
    Read,
    ReadTwo,
    Write,
    WriteTwo,
    SyncData,
    WriteBack,
    DropCached,
    SetLength,
    SyncAll,
    Length,
}

/// Calls, and what each is of the file: also where a call of that moves 300 bytes at most.
const TOLD: &[(Listed, &[Note])] = &[
    (Listed::Lock, &[Note::Lock]),
    (Listed::Restrict, &[Note::Rights]),
    (
        Listed::Read,
        &[Note::Read(1536, 512), Note::Read(1836, 212)],
    ),
    (
        Listed::ReadTwo,
        &[
            Note::Read(1536, 1024),
            Note::Read(1836, 724),
            Note::Read(2136, 424),
            Note::Read(2436, 124),
        ],
    ),
    (
        Listed::Write,
        &[Note::Write(1536, 512), Note::Write(1836, 212)],
    ),
    (
        Listed::WriteTwo,
        &[
            Note::Write(1536, 1024),
            Note::Write(1836, 724),
            Note::Write(2136, 424),
            Note::Write(2436, 124),
        ],
    ),
    (Listed::SyncData, &[Note::Sync]),
    (Listed::WriteBack, &[Note::Sync]),
    (Listed::DropCached, &[Note::Drop]),
    (Listed::SetLength, &[Note::SetLength(66_560)]),
    (Listed::SyncAll, &[Note::SyncAll]),
    (Listed::Length, &[Note::Length]),
];

/// Whether a call succeeds.
fn succeeds<F: ListedFile>(file: &mut F, call: Listed) -> bool {
    match call {
        Listed::Lock => file.lock_listed().is_ok(),
        Listed::Restrict => file.restrict_listed().is_ok(),
        Listed::Read => file.read_sectors_listed(&mut [[1; 512]], 1536).is_ok(),
        Listed::ReadTwo => file.read_sectors_listed(&mut [[1; 512]; 2], 1536).is_ok(),
        Listed::Write => file.write_sectors_listed(&[[1; 512]], 1536).is_ok(),
        Listed::WriteTwo => file.write_sectors_listed(&[[1; 512]; 2], 1536).is_ok(),
        Listed::SyncData => file.sync_data_listed().is_ok(),
        Listed::WriteBack => file.write_back_listed().is_ok(),
        Listed::DropCached => file.drop_cached_listed().is_ok(),
        Listed::SetLength => file.set_length_listed(66_560).is_ok(),
        Listed::SyncAll => file.sync_all_listed().is_ok(),
        Listed::Length => matches!(file.length_listed(), Ok(0)),
    }
}

/// Each call of the file fails in turn, and then none: a call that is listed fails just where one of these
/// does, which is then the last of them.
#[test]
fn each_call_is_one_of_the_file(rt: HostRuntime) {
    for (call, wanted) in TOLD {
        for failing in 0..5usize {
            let notes = &Notes::new();
            let mut file = SystemFile::over(NotedFile {
                notes,
                piece: 300,
                failing,
            });
            let made = wanted.get(..failing.saturating_add(1)).unwrap_or(wanted);
            assert!(rt; succeeds(&mut file, *call) == (failing >= wanted.len()));
            assert!(rt; notes.are(made));
        }
    }
}

/// Calls of a device that reads ahead and joins writes, and what they are of the file: none at a read of
/// what was read ahead or is held back; and nothing is dropped after the first sync.
const JOINED: &[(Call, &[Note])] = &[
    (Call::Get(2, 0), &[Note::Read(1024, 8192)]),
    (Call::Get(17, 0), &[]),
    (Call::Put(5, 1), &[]),
    (Call::Put(6, 2), &[]),
    (Call::Get(6, 2), &[]),
    (
        Call::Sync,
        &[Note::Write(2560, 1024), Note::Sync, Note::Drop],
    ),
    (Call::Put(9, 1), &[]),
    (Call::Sync, &[Note::Write(4608, 512), Note::Sync]),
];

fn are_joined<D: Disk>(disk: &mut D, notes: &Notes) -> bool {
    let mut all = true;
    for (call, wanted) in JOINED {
        all = call.comes(disk) & notes.are(wanted) & all;
    }
    all
}

#[test]
fn a_buffered_device_calls_seldom(rt: HostRuntime) {
    let notes = &Notes::new();
    let file = SystemFile::over(NotedFile {
        notes,
        piece: usize::MAX,
        failing: usize::MAX,
    });
    let mut disk = Buffered::over(SectorFile::over(TracedFile::over(file), 40));
    assert!(rt; are_joined(&mut disk, notes));
}
