//! What the system has cached of a file.

use std::fs::File;
use std::io;
use std::os::fd::AsRawFd;

/// Asks the system to forget what it has cached of the file and written to the disk.
pub fn drop_cached(file: &File) -> io::Result<()> {
    match libc::posix_fadvise(file.as_raw_fd(), 0, 0, libc::POSIX_FADV_DONTNEED) {
        0 => Ok(()),
        error => Err(io::Error::from_raw_os_error(error)),
    }
}
