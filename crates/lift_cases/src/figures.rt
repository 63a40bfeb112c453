//! What the lines of a case are put to: a car's trip, registers, the calls of a group, and a run of
//! events.
use crate::cases::Came;
use crate::events;
use crate::group::Calls;
use crate::registers::Registers;
use crate::trip::Trip;
use lift_base::Position;
use lift_building::Building;
use lift_world::World;
use std::alloc::Global;

#[derive(Drop)]
pub(crate) struct Figures<'b> {
    building: &'b Building,
    trip: Trip,
    registers: Registers<'b>,
    calls: Calls<'b>,
    world: World<'b>,
}

impl<'b> Figures<'b> {
    pub(crate) fn new(alloc: Global, building: &'b Building) -> Self {
        Figures {
            building,
            trip: Trip::at(&Position::default()),
            registers: Registers::new(building),
            calls: Calls::new(building),
            world: World::new(alloc, building, 64).unwrap(),
        }
    }

    /// Does what the words of a line say, and writes what they come to; nothing where they only do
    /// something. None where they are none that the cases know, or ask for what a call's condition
    /// rules out.
    pub(crate) fn answer(&mut self, words: &[&str], came: &mut Came) -> Option<()> {
        let (verb, behind) = words.split_first()?;
        match *verb {
            "car" => self.trip.answer(self.building, behind, came),
            "register" => self.registers.answer(behind, came),
            "checkpoint" => self.registers.checkpoint(behind, came),
            "group" => self.calls.answer(behind, came),
            "event" => events::happen(&mut self.world, behind, came),
            "run" => events::asked(&self.world, behind, came),
            _ => None,
        }
    }
}
