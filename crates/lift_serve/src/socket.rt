//! The listening socket, and a connection's. Here alone a connection is accepted, read and written;
//! everything else has what keeps it, and what shuts it down.

ghost use Rattle.std.specs.Prelude.{◌≡◌, IfOk, IfErr};
ghost use Rattle.std.specs.Arc.{arc_value};
ghost use Rattle.std.specs.Io.{ReadsAtMost};
ghost use Rattle.std.specs.declared.net.tcp.TcpListener.{TcpListener as Listener};

use crate::attending::Attendance;
use crate::over::Over;
use crate::prepared::connections::Ticket;
use crate::prepared::hall::Hall;
use crate::prepared::shortages::{Shortage, read_ahead, share};
use crate::prepared::terms::ServingTerms;
use crate::serving::ServeFault;
use crate::speaking::speak;
use lift_relay::BothRun;
use lift_system::watch;
use std::alloc::Global;
use std::io;
use std::io::{ErrorKind, Read};
use std::marker::Model;
use std::net::{Shutdown, TcpListener, TcpStream};
use std::os::fd::OwnedFd;
use std::sync::atomic::{AtomicU64, Ordering};
use std::sync::{Arc, Wait};
use std::time::{Clock, Duration, Instant};

/// How long a connection may take to send its first line, s.
const FIRST_LINE_S: u64 = 10;

/// The first line is still to come.
const AWAITED: u64 = 0;

/// The first line has come.
const HAS_COME: u64 = 1;

/// The connection was closed before its first line came.
const SENT_AWAY: u64 = 2;

/// A socket that listens. Who has one can accept nothing at it: it can only be served. Contracts see
/// the socket.
#[derive(Drop)]
pub struct Listening {
    listener: TcpListener,
    /// A view of the socket, by which it is shut down, whoever waits for a connection there.
    view: TcpStream,
}

impl Model for Listening {
    ghost use Rattle.std.specs.declared.net.tcp.TcpListener.{TcpListener as Listener};

    ghost Value = { Listener };

    ghost view = { λ l. l.listener };
}

impl Listening {
    /// At this socket, of which a second descriptor is had: by that it is shut down.
    pub fn at(listener: TcpListener) -> io::Result<Self>
        ensures { IfOk result (λ listening. listening ≡ listener) }
    {
        let again = listener.try_clone()?;
        let view = TcpStream::from(OwnedFd::from(again));
        Ok(Listening { listener, view })
    }

    /// No more are accepted: all have ended that were to end, or all were given up.
    pub(crate) fn shut(&self, _over: &Over) {
        let _closed = self.view.shutdown(Shutdown::Both);
    }
}

/// Evidence that a connection was accepted. It can't be let go: it is let in, or there was no
/// memory for that, or no more are.
pub(crate) struct Arrival {
    stream: TcpStream,
}

impl Arrival {
    /// The next one at the socket of a serving that is bound so, both of whose parts have a thread.
    pub(crate) fn at(bound: &ServingTerms, _both: &BothRun) -> io::Result<Arrival> {
        let (stream, _address) = bound.listening().listener.accept()?;
        Ok(Arrival { stream })
    }

    /// It is let in with this ticket: a connection, and its other side, by which that is shut down.
    pub(crate) fn open(
        self,
        alloc: Global,
        ticket: Ticket,
    ) -> Result<(Connection, Arc<Peer>), Shortage>
        ensures opened { IfOk result (λ came. (came.0.ticket ≡ ticket)
            × ((arc_value came.1).number ≡ ticket)) }
        ensures lack { IfErr result (λ shortage. shortage ≡ ServeFault.Memory) }
    {
        let Arrival { stream } = self;
        let (peer, theirs) = share(alloc, Peer::new(ticket.number(), stream))?;
        Ok((Connection { ticket, peer }, theirs))
    }

    /// It is closed, for no more are let in.
    pub(crate) fn close(self, _over: &Over) {
        let Arrival { stream: _ } = self;
    }
}

/// A connection's other side: its number, its stream, and whether its first line has come. Whoever has it
/// outside this file can shut the stream down, whatever waits for it, and no more.
#[derive(Drop)]
pub(crate) struct Peer {
    number: u64,
    stream: TcpStream,
    stage: AtomicU64,
}

impl Peer {
    /// Its first line is still to come.
    fn new(number: u64, stream: TcpStream) -> Self
        ensures { result.number ≡ number }
    {
        Peer {
            number,
            stream,
            stage: AtomicU64::new(AWAITED),
        }
    }

    /// The connection's number.
    pub(crate) fn number(&self) -> u64
        ensures { result ≡ self.now.number }
    {
        self.number
    }

    /// Shuts it down, that way.
    pub(crate) fn shut(&self, how: Shutdown) {
        let _closed = self.stream.shutdown(how);
    }

    /// Whether the first line is still to come.
    pub(crate) fn is_awaited(&self) -> bool {
        self.stage.load(Ordering::SeqCst) == AWAITED
    }

    /// Shuts it down where the first line is still to come, which is read no more then. Whether that
    /// is so.
    pub(crate) fn send_away(&self) -> bool {
        let is_sent = self.is_settled_as(SENT_AWAY);
        if is_sent {
            self.shut(Shutdown::Both);
        }
        is_sent
    }

    /// Whether it was still to be settled whether the first line comes, and is now.
    fn is_settled_as(&self, stage: u64) -> bool {
        self.stage
            .compare_exchange(AWAITED, stage, Ordering::SeqCst, Ordering::SeqCst)
            .is_ok()
    }

    /// The first line has come: from here on a read waits for as long as it takes. Refused where the
    /// connection was closed before.
    fn comes(&self) -> io::Result<()> {
        if !self.is_settled_as(HAS_COME) {
            return Err(too_late());
        }
        self.stream.set_read_timeout(None)
    }
}

/// No first line has come in time.
fn too_late() -> io::Error {
    io::Error::from(ErrorKind::TimedOut)
}

/// Reads a connection. Until the first line has come it reads for ten seconds altogether, and fails
/// then.
#[derive(Drop)]
struct PeerReader<'s, R: Clock> {
    rt: &'s R,
    peer: &'s Peer,
    begun: Option<Instant>,
}

impl<'s, R: Clock> PeerReader<'s, R> {
    fn new(rt: &'s R, peer: &'s Peer) -> Self {
        PeerReader {
            rt,
            peer,
            begun: Instant::now(rt).ok(),
        }
    }

    /// What is left of the ten seconds; all of them where the clock can't be read.
    fn left(&self) -> Option<Duration> {
        let whole = Duration::from_secs(FIRST_LINE_S);
        let Some(begun) = self.begun else {
            return Some(whole);
        };
        match begun.elapsed(self.rt) {
            Ok(elapsed) => whole.checked_sub(elapsed),
            Err(_) => Some(whole),
        }
    }

    /// Reads, as the first line is still to come.
    fn read_first(&self, buf: &mut [u8]) -> io::Result<usize>
        ensures { ReadsAtMost result buf.new }
    {
        let Some(left) = self.left() else {
            return Err(too_late());
        };
        self.peer.stream.set_read_timeout(Some(left))?;
        let count = (&self.peer.stream).read(buf)?;
        if buf[..count].contains(&b'\n') {
            self.peer.comes()?;
        }
        Ok(count)
    }
}

impl<'s, R: Clock> Read for PeerReader<'s, R> {
    fn read(&mut self, buf: &mut [u8]) -> io::Result<usize> {
        match self.peer.stage.load(Ordering::SeqCst) {
            AWAITED => self.read_first(buf),
            HAS_COME => (&self.peer.stream).read(buf),
            _ => Err(too_late()),
        }
    }
}

/// A connection that was let in, by the ticket that it was let in with: by it somebody is attended to once.
#[derive(Drop)]
pub(crate) struct Connection {
    ticket: Ticket,
    peer: Arc<Peer>,
}

impl Connection {
    /// Its number.
    pub(crate) fn number(&self) -> u64
        ensures { result ≡ self.now.ticket }
    {
        self.ticket.number()
    }

    /// Whoever is there is attended to by its own ticket, and then the socket is shut down.
    pub(crate) fn attended<'d, R: Wait + Clock>(
        self,
        rt: &R,
        alloc: Global,
        hall: &Hall<'d, '_>,
    ) -> Result<Attendance<'d>, Shortage>
        ensures lack { IfErr result (λ shortage. shortage ≡ ServeFault.Memory) }
    {
        let Connection { ticket, peer } = self;
        let stream = &peer.stream;
        let _quick = stream.set_nodelay(true);
        watch(stream);
        let attended = speak_over(rt, alloc, hall, ticket, &peer);
        let _closed = stream.shutdown(Shutdown::Both);
        attended
    }
}

/// Speaks over a socket: `speak` has its one reader and its one writer.
fn speak_over<'d, R: Wait + Clock>(
    rt: &R,
    alloc: Global,
    hall: &Hall<'d, '_>,
    ticket: Ticket,
    peer: &Peer,
) -> Result<Attendance<'d>, Shortage>
    ensures lack { IfErr result (λ shortage. shortage ≡ ServeFault.Memory) }
{
    let (ticket, reader) = read_ahead(alloc, ticket, PeerReader::new(rt, peer))?;
    Ok(speak(rt, hall, ticket, reader, &peer.stream).0)
}
