//! Connections that follow a script.

use crate::serve::words::{Words, is_set};
use std::io::{ErrorKind, Read, Write};
use std::net::{Ipv4Addr, Net, Shutdown, SocketAddr, SocketAddrV4, TcpListener, TcpStream};
use std::sync::atomic::Ordering;
use std::thread;
use std::time::{Clock, Duration};

/// How long a connection waits for what it wants to hear, in seconds.
const PATIENCE: u64 = 10;

/// The connections that a script may have.
const CALLERS: usize = 5;

/// The connections that end a server whose script went wrong.
const LAST_ONES: u32 = 200;

/// How long a sync is held before the last connection ends, ms.
const HELD_MS: u64 = 1_000;

/// How long the end of a connection may take to be counted after its closing, ms.
const COUNTED_MS: u64 = 100;

/// A port of this machine; 0 is one that nobody has.
pub(crate) fn address(port: u16) -> SocketAddr {
    SocketAddr::V4(SocketAddrV4::new(Ipv4Addr::new(127, 0, 0, 1), port))
}

fn connected<R: Net<Listener = TcpListener, Stream = TcpStream>>(
    rt: &R,
    port: u16,
) -> Option<TcpStream> {
    let stream = TcpStream::connect(rt, address(port)).ok()?;
    stream
        .set_read_timeout(Some(Duration::from_secs(PATIENCE)))
        .ok()?;
    Some(stream)
}

fn says(stream: &TcpStream, text: &str) -> bool {
    (&mut &*stream).write_all(text.as_bytes()).is_ok()
}

/// Whether these bytes come next.
fn hears(stream: &TcpStream, wanted: &[u8]) -> bool {
    for byte in wanted {
        let mut heard = [0u8];
        if (&mut &*stream).read_exact(&mut heard).is_err() || heard[0] != *byte {
            return false;
        }
    }
    true
}

/// Whether the other end is closed, or is reset where it may be for what it left unread, and nothing
/// comes before.
fn is_gone(stream: &TcpStream, may_be_reset: bool) -> bool {
    match (&mut &*stream).read(&mut [0u8]) {
        Ok(count) => count == 0,
        Err(error) => may_be_reset && error.kind() == ErrorKind::ConnectionReset,
    }
}

/// What a connection does that is there.
fn does(stream: &TcpStream, kind: u8, text: &str) -> bool {
    match kind {
        b'>' => says(stream, text) && says(stream, "\n"),
        b'<' => hears(stream, text.as_bytes()) && hears(stream, b"\n"),
        b'x' => is_gone(stream, true),
        b'-' => stream.shutdown(Shutdown::Write).is_ok() && is_gone(stream, false),
        _ => kind == b'+',
    }
}

/// What is done beside the connections, where this is such a line.
fn waits<R: Clock>(rt: &R, words: &Words, kind: u8) -> Option<bool> {
    match kind {
        b's' => return Some(is_set(&words.held)),
        b'r' => words.released.store(1, Ordering::SeqCst),
        b'h' => thread::sleep(rt, Duration::from_millis(HELD_MS)),
        b'c' => thread::sleep(rt, Duration::from_millis(COUNTED_MS)),
        _ => return None,
    }
    Some(true)
}

/// Carries out one line of a script: a connection's digit, what it does, and the rest. Whether it is
/// as the script has it.
fn follows_line<R: Clock + Net<Listener = TcpListener, Stream = TcpStream>>(
    rt: &R,
    port: u16,
    words: &Words,
    callers: &mut [Option<TcpStream>; CALLERS],
    line: &str,
) -> bool {
    let bytes = line.as_bytes();
    let (Some(digit), Some(kind), Some(text)) = (bytes.first(), bytes.get(1), line.get(2..)) else {
        return false;
    };
    if let Some(is_so) = waits(rt, words, *kind) {
        return is_so;
    }
    let caller = &mut callers[usize::from(digit.wrapping_sub(b'0')) % CALLERS];
    if *kind == b'+' {
        *caller = connected(rt, port);
    }
    match caller {
        Some(stream) => does(stream, *kind, text),
        None => false,
    }
}

/// Makes connections and closes them until a server has ended.
fn end_server<R: Net<Listener = TcpListener, Stream = TcpStream>>(
    rt: &R,
    port: u16,
    words: &Words,
) {
    for _ in 0..LAST_ONES {
        if words.ended.load(Ordering::SeqCst) == 1 {
            return;
        }
        let _closed = connected(rt, port);
    }
}

/// Both cars say where they are.
const PLACED: &str = "\
1+
1>CAR A
1<READY 0
1>PLACE 0 up
1<IDLE
1-
2+
2>CAR B
2<READY 0
2>PLACE 2 down
2<IDLE
2-
";

/// Says that all went as the script has it, once both cars are placed; where it didn't, ends the server. Its lines: `1+`
/// connection 1 is made; `1>TEXT` it says this line; `1<TEXT` it hears just this line; `1x` it hears
/// that the other end is closed, or that it is reset; `1-` it hears the first after closing its own;
/// `1s` a sync is held, `1h` a second goes by, `1c` an end is counted meanwhile, `1r` the sync is
/// released.
pub(crate) fn follow<R: Clock + Net<Listener = TcpListener, Stream = TcpStream>>(
    rt: &R,
    port: u16,
    words: &Words,
    script: &str,
) {
    let mut callers = [None, None, None, None, None];
    for part in [PLACED, script] {
        for line in part.lines() {
            if !follows_line(rt, port, words, &mut callers, line) {
                words.released.store(1, Ordering::SeqCst);
                end_server(rt, port, words);
                return;
            }
        }
    }
    words.followed.store(1, Ordering::SeqCst);
}
