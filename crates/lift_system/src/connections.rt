//! How it is found out that the other side of a connection is gone without a word.

use libc::net;
use std::net::TcpStream;
use std::os::fd::AsRawFd;
use std::time::Duration;

/// After so long a silence the system asks the other side whether it is there, s.
const SILENCE_S: i32 = 10;

/// How long it waits before it asks again, s.
const AGAIN_S: i32 = 5;

/// How long the other side may leave a question or what was sent to it unacknowledged, ms: after
/// two questions more the connection ends.
const UNACKNOWLEDGED_MS: i32 = 25_000;

/// How long one write may wait for a reader that doesn't read, s.
const WRITE_S: u64 = 30;

/// A number as an option's value, in the machine's order of bytes.
fn value_of(number: i32) -> [u8; 16] {
    let mut value = [0u8; 16];
    value[..4].copy_from_slice(&number.to_ne_bytes());
    value
}

/// Has the system end a connection whose other side is gone, and a write that waits for too long
/// fail. What can't be set is left as it is: the connection is served all the same.
pub fn watch(stream: &TcpStream) {
    let _bounded = stream.set_write_timeout(Some(Duration::from_secs(WRITE_S)));
    let fd = stream.as_raw_fd();
    let (socket, tcp) = (net::SOL_SOCKET, net::IPPROTO_TCP);
    unsafe {
        net::setsockopt(fd, socket, net::SO_KEEPALIVE, &value_of(1), 4);
        net::setsockopt(fd, tcp, net::TCP_KEEPIDLE, &value_of(SILENCE_S), 4);
        net::setsockopt(fd, tcp, net::TCP_KEEPINTVL, &value_of(AGAIN_S), 4);
        net::setsockopt(
            fd,
            tcp,
            net::TCP_USER_TIMEOUT,
            &value_of(UNACKNOWLEDGED_MS),
            4,
        );
    }
}
