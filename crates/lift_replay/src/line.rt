ghost use Rattle.std.specs.Prelude.{◌↔◌, IsTrue};
ghost use Rattle.lift_replay.specs.Grammar.{IsKnown};

use crate::ask::ScriptAsk;
use crate::device_action::DeviceAction;
use crate::query::Query;
use lift_building::Building;

/// What a line of a script asks for.
#[derive(Clone, Copy, PartialEq, Eq)]
pub enum ScriptLine {
    /// A terminal asks.
    Ask(ScriptAsk),
    /// One turn of the clerk, then all terminals hear.
    Turn,
    /// What is shown of the group, which nothing changes.
    Show(Query),
    /// What is done to the group's device.
    Device(DeviceAction),
}

impl ScriptLine {
    /// Whether the building has the car or the kiosk that the line names, if it names one.
    pub fn is_known(&self, building: &Building) -> bool
        ensures { IsTrue result ↔ IsKnown building.now self.now }
    {
        match *self {
            ScriptLine::Ask(ask) => ask.is_known(building),
            ScriptLine::Turn => true,
            ScriptLine::Show(query) => query.is_known(building),
            ScriptLine::Device(_) => true,
        }
    }
}
