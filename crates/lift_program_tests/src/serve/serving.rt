//! Serving beside threads that call.
ghost use Rattle.std.specs.Prelude.{◌≡◌, []};
ghost use Rattle.std.specs.Thread.{IsSync};

use crate::serve::callers::{address, follow};
use crate::serve::words::Words;
use lift_disk::Disk;
use lift_keeper::{Keeper, Writer};
use lift_policy::{Dispatching, Policy};
use lift_serve::{Listening, Notifies, prepare, serve};
use std::alloc::Global;
use std::net::{Net, TcpListener, TcpStream};
use std::process::Abort;
use std::sync::Wait;
use std::sync::atomic::Ordering;
use std::thread;
use std::thread::Threads;
use std::time::{Clock, Duration};

/// How long serving may take, in seconds.
const LIMIT: u64 = 45;

/// Ends the test where serving has not ended in time, as where nobody is accepted.
fn watch<R: Clock + Abort>(rt: &R, words: &Words) {
    for _ in 0..LIMIT * 100 {
        if words.ended.load(Ordering::SeqCst) == 1 {
            return;
        }
        thread::sleep(rt, Duration::from_millis(10));
    }
    panic!(rt; "serving has not ended");
}

/// A socket at a port that nobody has, with its number.
fn bound<R: Net<Listener = TcpListener, Stream = TcpStream>>(rt: &R) -> Option<(TcpListener, u16)> {
    let listener = TcpListener::bind(rt, address(0)).ok()?;
    let port = listener.local_addr().ok()?.port();
    Some((listener, port))
}

/// What gives back the writer of a test.
#[derive(Drop)]
struct Own {
    made: (),
}

impl Notifies<()> for Own {}

/// Serves at a socket until this many connections have ended. The writer after it; none where there was
/// no room for the group, or another fault than the device's, or where connections have not ended.
fn served_at<'b, R: Threads + Wait + Clock + Sync, D: Disk + Drop, P: Policy + Drop + Send>(
    rt: &R,
    alloc: Global,
    listener: TcpListener,
    sessions: u32,
    keeper: Keeper<'b, D>,
    policy: Dispatching<P>,
) -> Option<Writer<'b, D>>
    requires { keeper.state.batch ≡ [] }
{
    let listening = Listening::at(listener).ok()?;
    let mut room = None;
    let group = match prepare::<D, P, Own>(alloc, &mut room, listening, sessions, keeper, policy) {
        Ok(group) => group,
        Err(_) => return None,
    };
    let (served, end) = serve(rt, alloc, group, ());
    if end.fault().is_some() {
        return None;
    }
    Some(served.flusher.into_writer(Own { made: () }))
}

/// Serves on a socket until this many connections have ended, while a thread follows a script and
/// another one watches. The writer after it, where the script was followed; none where there was no
/// thread for these, or another fault than the device's, or where connections have not ended.
pub(crate) fn served<
    'b,
    R: Threads + Wait + Clock + Abort + Net<Listener = TcpListener, Stream = TcpStream> + Sync,
    D: Disk + Drop,
    P: Policy + Drop + Send,
>(
    rt: &R,
    alloc: Global,
    keeper: Keeper<'b, D>,
    policy: P,
    sessions: u32,
    script: &str,
    words: &Words,
) -> Option<Writer<'b, D>>
    requires { keeper.state.batch ≡ [] }
{
    let (listener, port) = bound(rt)?;
    thread::scope(
        thread::scope_env(),
        rt,
        move |scope| -> Option<Writer<D>>
            requires sync { IsSync R.row }
            requires empty_batch { keeper.state.batch ≡ [] }
        {
            let is_watched = scope.spawn(move || watch(rt, words)).is_ok();
            let is_followed = scope.spawn(move || follow(rt, port, words, script)).is_ok();
            if !is_watched || !is_followed {
                words.ended.store(1, Ordering::SeqCst);
                return None;
            }
            let policy = Dispatching {
                policy,
                absent_last: false,
            };
            let served = served_at(rt, alloc, listener, sessions, keeper, policy);
            words.ended.store(1, Ordering::SeqCst);
            served
        },
    )
}
