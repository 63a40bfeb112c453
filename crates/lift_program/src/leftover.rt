//! How a command leaves the device that it was over, or what was to open it.

pub(crate) mod text;

ghost use Rattle.std.specs.Prelude.{◌≡◌};
ghost use Rattle.lift_program.specs.Stages.{fault_in};

use crate::fault::Fault;
use lift_disk::FileFault;
use std::marker::Model;

/// A device as a command has left it, or what opens one. Nobody calls it any more: all that can be done
/// with it is to let it go. So what is said of it is said of the end. Contracts see the device.
#[derive(Drop)]
pub struct Leftover<D> {
    device: D,
}

impl<D> Model for Leftover<D> {
    ghost use Rattle.std.specs.Prelude.{◌≡◌};

    ghost Value = { D };

    ghost view = { λ l. l.device };
}

impl<D> Leftover<D> {
    /// It is called no more.
    ///
    /// It and the calls that answer one stay calls: built into one body, the copies of a device of
    /// 16 KiB at several places of an end take the compiler a quarter of an hour.
    #[inline(never)]
    pub fn new(device: D) -> Self
        ensures { result ≡ device }
    {
        Leftover { device }
    }
}

/// Why a command over an image has failed.
#[derive(Drop)]
pub enum Failure<D, F: Drop, O: Drop> {
    /// No building was had, and nothing was asked of an image: what opens that is left.
    NoBuilding(Fault, Leftover<O>),
    /// No image was had, and what that comes from is left.
    NoImage(Fault, Leftover<FileFault<F, O>>),
    /// One was, and was left so.
    Opened(Fault, Leftover<D>),
}

impl<D, F: Drop, O: Drop> Failure<D, F, O> {
    /// What is reported.
    pub fn fault(&self) -> &Fault
        ensures { result.now ≡ fault_in self.now }
    {
        match self {
            Failure::NoBuilding(fault, _) => fault,
            Failure::NoImage(fault, _) => fault,
            Failure::Opened(fault, _) => fault,
        }
    }
}
