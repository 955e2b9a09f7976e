//! Reading a position.

use super::Reader;
use crate::fault::Wrong;
use crate::position::{ANSWERS, OUTCOMES, REBOOTS, STATES};
use flow_table::{Outcome, Position, Reboot, State};

impl<'a> Reader<'a> {
    ghost use Rattle.record_codec.specs.Reading.{Reads, any, choice_at, number_at, position_at};
    ghost use Rattle.std.specs.Int.{w8};
    ghost use Rattle.record_codec.specs.Bytes.{states, outcomes, answers, reboots};
    ghost use Rattle.flow_table.specs.Valid.{is_outcome, is_undoable, is_reboot, is_count};

    #[tactic(auto, unfolding(crate::specs::Reading::choice_at))]
    fn state(&mut self) -> Result<State, Wrong>
        ensures { Reads result (choice_at states any self.old) self.new }
    {
        let at = self.at;
        let byte = self.byte()?;
        match STATES.get(byte as usize) {
            Some(state) => Ok(*state),
            None => Err(Wrong { at }),
        }
    }

    #[tactic(auto, unfolding(crate::specs::Reading::choice_at))]
    fn outcome(&mut self, state: State) -> Result<Outcome, Wrong>
        ensures { Reads result (choice_at outcomes (is_outcome state) self.old) self.new }
    {
        let at = self.at;
        let byte = self.byte()?;
        match OUTCOMES.get(byte as usize) {
            Some(outcome) if state.allows_outcome(*outcome) => Ok(*outcome),
            _ => Err(Wrong { at }),
        }
    }

    #[tactic(auto, unfolding(crate::specs::Reading::choice_at))]
    fn undoable(&mut self, state: State) -> Result<bool, Wrong>
        ensures { Reads result (choice_at answers (is_undoable state) self.old) self.new }
    {
        let at = self.at;
        let byte = self.byte()?;
        match ANSWERS.get(byte as usize) {
            Some(undoable) if state.allows_undoable(*undoable) => Ok(*undoable),
            _ => Err(Wrong { at }),
        }
    }

    #[tactic(auto, unfolding(crate::specs::Reading::choice_at))]
    fn reboot(&mut self, state: State) -> Result<Reboot, Wrong>
        ensures { Reads result (choice_at reboots (is_reboot state) self.old) self.new }
    {
        let at = self.at;
        let byte = self.byte()?;
        match REBOOTS.get(byte as usize) {
            Some(reboot) if state.allows_reboot(*reboot) => Ok(*reboot),
            _ => Err(Wrong { at }),
        }
    }

    #[tactic(auto, unfolding(crate::specs::Reading::number_at))]
    fn n(&mut self, state: State) -> Result<u8, Wrong>
        ensures { Reads result (number_at w8 (is_count state) self.old) self.new }
    {
        let at = self.at;
        match self.bytes(1) {
            Some(digits) if state.allows_count(digits[0]) => Ok(digits[0]),
            _ => Err(Wrong { at }),
        }
    }

    #[tactic(auto, unfolding(crate::specs::Reading::position_at))]
    pub(crate) fn position(&mut self) -> Result<Position, Wrong>
        ensures { Reads result (position_at self.old) self.new }
    {
        let state = self.state()?;
        let outcome = self.outcome(state)?;
        let undoable = self.undoable(state)?;
        let reboot = self.reboot(state)?;
        let n = self.n(state)?;
        Ok(Position {
            state,
            outcome,
            undoable,
            reboot,
            n,
        })
    }
}
