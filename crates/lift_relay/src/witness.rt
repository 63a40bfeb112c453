//! Who is notified that the device fails, when it does.

ghost use Rattle.lift_relay.specs.Notified.{FailureNotified};

/// Evidence that a device has just failed, as it hadn't since it was last opened. Only this file
/// makes one, in which no call waits: so whoever waits with a witness has none to notify it by.
#[derive(Drop)]
pub struct Failed {
    made: (),
}

/// Is notified when a device fails, in the very call in which it does.
pub trait Witness {
    // It was notified.
    ghost is_notified: { Self → Self → Type 0 } = { λ _ _. Unit {0} };

    /// A call of the device has just failed, as none had before since it was last opened. So a device
    /// that stays broken is reported once.
    fn has_failed(&mut self, failed: Failed)
        ensures { is_notified self.old self.new };
}

/// Whom those notify who have a clerk or its parts for this key. Who is generic in both knows of no
/// other: so whatever it waits for, no device fails there that this one isn't notified of.
pub trait Notifies<V: Witness> {}

// Takes no notice.
impl Witness for () {
    fn has_failed(&mut self, _failed: Failed) {}
}

/// Notifies the witness where the writer is broken now, as it wasn't before.
pub(crate) fn tell_of<V: Witness>(witness: &mut V, was_broken: bool, is_broken: bool)
    ensures { FailureNotified V.is_notified was_broken is_broken witness.old witness.new }
{
    if is_broken && !was_broken {
        witness.has_failed(Failed { made: () });
    }
}
