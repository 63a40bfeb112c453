//! What a command opens its building, its image and its socket by.

ghost use Rattle.std.specs.Prelude.{◌≡◌, ℕ, List, Option, Some, None, Result, Ok, Err, ⊤};
ghost use Rattle.std.specs.Prelude.{IfOk, IfErr, OnErr};
ghost use Rattle.std.specs.declared.io.Error.{Error};
ghost use Rattle.std.specs.declared.net.tcp.TcpListener.{TcpListener as Listener};
ghost use Rattle.lift_program.specs.Images.{CommandFiles, ImageFiles, IsTextRead, image_files, local};
ghost use Rattle.lift_program.specs.Stages.{IsNoText};

use crate::leftover::Leftover;
use crate::unwritten::ShownImage;
use lift_base::text::Inlet;
use lift_disk::{BufferedFile, Disk, FileOpener};
use lift_serve::Listening;
use std::fs::File;
use std::io::ErrorKind;
use std::net::{Ipv4Addr, SocketAddr, SocketAddrV4, TcpListener};
use std::os::fd::AsRawFd;
use std::rt::LibcRuntime;
use std::{fs, io};

/// The last descriptor of the standard streams.
const STANDARD_ERROR: i32 = 2;

/// What opens the file of a building to read it, once: an opening takes it, whether or not it
/// succeeds.
pub trait TextOpener: Drop {
    type Text: Inlet + Drop;

    /// What was given where the file at a path was to be opened.
    ghost opens: { Self → List ℕ → Result Self.Text Error → Type 0 };

    /// A call of its reader for as many bytes as these, answered so, from one state to the next.
    ghost reads: { Self.Text → List ℕ → Option ℕ → Self.Text → Type 0 };

    /// A reader of the file at the path.
    fn open_text(self, path: &str) -> io::Result<Self::Text>
        ensures opened { IfOk result (λ text. opens self path.now (Ok text)) }
        ensures refused { IfErr result (λ error. opens self path.now (Err error)) };

    /// What the reader tells is such a call.
    ghost reads_told: { (old : Self.Text) (buffer : List ℕ) (answer : Option ℕ) (new : Self.Text)
        → Self.Text.gives old buffer answer new → reads old buffer answer new };
}

/// What opens a listening socket, once: to be asked for one takes it. A serving is proved for each,
/// whatever its call gives: so the socket is one that was asked for at the address and the port that
/// the serving's clause names.
pub trait Listens: Drop {
    // what was given where one was asked for at the octets of an address and at a port
    ghost gives: { Self → List ℕ → ℕ → Option Listener → Type 0 };

    /// A socket that listens at a port of an address.
    fn listen(self, address: [u8; 4], port: u16) -> io::Result<Listening>
        ensures gives { IfOk result (λ listening. gives self address port (Some listening)) }
        ensures refused { OnErr result (gives self address port None) };
}

/// The host, which opens the file of a building, or a socket.
#[derive(Drop)]
pub struct Host<'r> {
    rt: &'r LibcRuntime,
}

impl<'r> Host<'r> {
    /// By this runtime.
    pub fn new(rt: &'r LibcRuntime) -> Host<'r> {
        Host { rt }
    }
}

impl TextOpener for Host<'_> {
    type Text = File;

    ghost opens = { λ _ _ _. ⊤ };

    ghost reads = { λ _ _ _ _. ⊤ };

    ghost reads_told = { λ _ _ _ _ _. tt };

    /// What isn't a file, as a pipe or a terminal, isn't opened, so that nothing waits for its other
    /// end. What was opened is asked again, since another thing may stand at the path by then: so
    /// nothing but a file is read. A file that got the descriptor of a standard stream, which the
    /// program began without, is refused: what is printed would be written into it, or into the next
    /// file that is opened.
    fn open_text(self, path: &str) -> io::Result<File> {
        if !fs::metadata(self.rt, path)?.is_file() {
            return Err(io::Error::from(ErrorKind::InvalidInput));
        }
        let file = File::open(self.rt, path)?;
        if !file.metadata()?.is_file() || file.as_raw_fd() <= STANDARD_ERROR {
            return Err(io::Error::from(ErrorKind::InvalidInput));
        }
        Ok(file)
    }
}

impl Listens for Host<'_> {
    ghost gives = { λ _ _ _ _. ⊤ };

    fn listen(self, address: [u8; 4], port: u16) -> io::Result<Listening> {
        let address = Ipv4Addr::from_octets(address);
        let listener = TcpListener::bind(
            self.rt,
            SocketAddr::V4(SocketAddrV4::new(address, port)),
        )?;
        Listening::at(listener)
    }
}

/// What a command opens its building, its image and its socket by: each of them once.
#[derive(Drop)]
pub struct Openers<B, I, L> {
    pub building: B,
    pub image: I,
    pub socket: L,
}

impl<B: Drop, I: Drop, L: Drop> Openers<B, I, L> {
    /// What opens an image, where nothing is asked of it.
    pub fn unused(self) -> Leftover<I>
        ensures { result ≡ self.image }
    {
        let Openers {
            building: _unread,
            image,
            socket: _unasked,
        } = self;
        Leftover::new(image)
    }
}

/// How contracts see what opens an image.
pub trait ImageView {
    ghost image: { Self → ImageFiles };
}

impl<I: FileOpener> ImageView for I {
    ghost image = { λ opener. image_files opener (I.stands opener) (I.opens opener) (I.names opener)
        (I.unnamed opener) I.Listed.gives I.Listed.fails I.Listed.holds
        ⟦<BufferedFile<I::Listed> as Disk>⟧.state ⟦<ShownImage<I::Listed> as Disk>⟧.state };
}

/// How they see what a command opens by.
pub trait FilesView {
    ghost view: { Self → CommandFiles };
}

impl<B: TextOpener, I: FileOpener, L: Listens> FilesView for Openers<B, I, L> {
    ghost view = { λ openers. record {
      image = ⟦<I as ImageView>⟧.image openers.image;
      is_text = λ path. IsTextRead (B.opens openers.building path) B.Text.remaining;
      is_no_text = λ path. IsNoText (B.opens openers.building path) B.Text.remaining B.reads;
      gives = L.gives openers.socket local;
    } };
}
