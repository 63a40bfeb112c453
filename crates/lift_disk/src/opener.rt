//! What opens a file, once.
ghost use Rattle.std.specs.Prelude.{◌≡◌, ℕ, List, Option, Some, None, Bool, IfOk, OnErr, OnOk, ⊤};
ghost use Rattle.std.specs.declared.fs.options.OpenOptions.{OpenOptions as Options};

use crate::listed::{ListedFile, OWNER_ALONE, SystemFile};
use std::fs::{File, OpenOptions};
use std::io::ErrorKind;
use std::os::unix::fs::{MetadataExt, OpenOptionsExt};
use std::rt::LibcRuntime;
use std::{fs, io};

/// What opens one file, once: an opening takes it, whether or not it succeeds. So a body that has it
/// opens nothing a second time, and nothing beside.
///
/// A device is proved for each opener, whatever its calls give: so its file is one that was opened by
/// the options and at the path that a clause names.
pub trait FileOpener: Drop {
    type Listed: ListedFile + Drop;

    /// What makes the folder of the file that was opened safe, once.
    type Folder: Drop;

    /// What was given where a file was to be opened by these options at a path.
    ghost opens: { Self → Options → List ℕ → Option Self.Listed → Type 0 };

    /// At this path the folder names this file for good: a power cut doesn't take the name back.
    ghost names: { Self → List ℕ → Self.Listed → Type 0 };

    /// What was answered where it was asked whether a plain file stands at a path, nothing where
    /// that failed.
    ghost stands: { Self → List ℕ → Option Bool → Type 0 };

    /// The folder of this path, in which this file was made, couldn't be made safe.
    ghost unnamed: { Self → List ℕ → Self.Listed → Type 0 };

    /// What opened the file of this folder.
    ghost opener_of: { Self.Folder → Self };

    /// Whether a plain file is at the path.
    fn is_file_at(&self, path: &str) -> io::Result<bool>
        ensures stands { IfOk result (λ is_file. stands self.now path.now (Some is_file)) }
        ensures refused { OnErr result (stands self.now path.now None) };

    /// The file at the path, by these options, and its folder.
    fn open_once(self, how: &OpenOptions, path: &str) -> io::Result<(Self::Listed, Self::Folder)>
        ensures opened { IfOk result (λ given. opens self how.now path.now (Some given.0)) }
        ensures folder { IfOk result (λ given. opener_of given.1 ≡ self) }
        ensures refused { OnErr result (opens self how.now path.now None) };

    /// Makes the folder safe in which this file was made.
    fn sync_folder(folder: Self::Folder, path: &str, made: &Self::Listed) -> io::Result<()>
        ensures named { OnOk result (names (opener_of folder) path.now made.now) }
        ensures refused { OnErr result (unnamed (opener_of folder) path.now made.now) };
}

/// The folder of a path. No path of a file that was made is a link.
fn folder_of(path: &str) -> &str {
    match path.rsplit_once('/') {
        Some(("", _)) => "/",
        Some((folder, _)) => folder,
        None => ".",
    }
}

fn refused() -> io::Error {
    io::Error::from(ErrorKind::InvalidInput)
}

/// A file that is there and is to be made anew. It has to have just this name: through a link, or a
/// second name, another file would be lost than the one that was named.
fn made_anew(rt: &LibcRuntime, how: &OpenOptions, path: &str) -> io::Result<File> {
    let mut as_it_is = OpenOptions::new();
    as_it_is.read(how.asks_read()).write(how.asks_write());
    let file = as_it_is.open(rt, path)?;
    let (opened, named) = (file.metadata()?, fs::symlink_metadata(rt, path)?);
    if opened.dev() == named.dev() && opened.ino() == named.ino() && opened.nlink() == 1 {
        Ok(file)
    } else {
        Err(refused())
    }
}

/// A file that is made. What isn't there is made as its owner's alone, and not where a link points.
fn made(rt: &LibcRuntime, how: &OpenOptions, path: &str) -> io::Result<File> {
    let mut new = OpenOptions::new();
    new.read(how.asks_read()).write(how.asks_write());
    new.create_new(true).mode(OWNER_ALONE);
    match new.open(rt, path) {
        Ok(file) => Ok(file),
        Err(error) => match error.kind() {
            ErrorKind::AlreadyExists => made_anew(rt, how, path),
            _ => Err(error),
        },
    }
}

/// What opens one file of the host. Of what it opens nothing is known.
#[derive(Drop)]
pub struct SystemOpener<'r> {
    rt: &'r LibcRuntime,
}

impl<'r> SystemOpener<'r> {
    /// Over this runtime.
    pub fn new(rt: &'r LibcRuntime) -> SystemOpener<'r> {
        SystemOpener { rt }
    }
}

/// The folder of a file of the host that was opened.
#[derive(Drop)]
pub struct SystemFolder<'r> {
    opener: SystemOpener<'r>,
}

impl<'r> FileOpener for SystemOpener<'r> {
    type Listed = SystemFile<File>;

    type Folder = SystemFolder<'r>;

    ghost opens = { λ _ _ _ _. ⊤ };

    ghost names = { λ _ _ _. ⊤ };

    ghost stands = { λ _ _ _. ⊤ };

    ghost unnamed = { λ _ _ _. ⊤ };

    ghost opener_of = { λ folder. folder.opener };

    fn is_file_at(&self, path: &str) -> io::Result<bool> {
        Ok(fs::metadata(self.rt, path)?.is_file())
    }

    fn open_once(
        self,
        how: &OpenOptions,
        path: &str,
    ) -> io::Result<(SystemFile<File>, SystemFolder<'r>)> {
        let file = if how.asks_create() {
            made(self.rt, how, path)?
        } else {
            how.open(self.rt, path)?
        };
        // (what was asked about the path may be gone since)
        if !file.metadata()?.is_file() {
            return Err(refused());
        }
        let folder = SystemFolder { opener: self };
        Ok((SystemFile::over(file), folder))
    }

    fn sync_folder(
        folder: SystemFolder<'r>,
        path: &str,
        _made: &SystemFile<File>,
    ) -> io::Result<()> {
        OpenOptions::new()
            .read(true)
            .open(folder.opener.rt, folder_of(path))?
            .sync_all()
    }
}
