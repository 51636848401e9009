// What an event makes of the turn, in place, and its answer.
ghost use Rattle.std.specs.Prelude.{◌≡◌};
ghost use Rattle.control.specs.declared.turn.Edge.TheVariants.{Stop};
ghost use Rattle.controller.specs.Reply.{outcome, with_status, interrupts_at, waits_for};

use crate::record::Controller;
use answer::Answer;
use control::reason::Reason;
use control::turn::{Edge, Turn};

impl Controller {
    // A status: Host, and its reason.
    pub fn set_status(&mut self, status: u8, edge: Edge)
        ensures { self.new ≡ with_status self.old status edge }
    {
        self.turn = Turn::Host(status, edge);
        self.reason = Reason::of_status(status);
    }

    // A status, and SI becomes 1: the hand place goes back to 0.
    pub fn interrupt(&mut self, status: u8, edge: Edge, value: u8) -> Answer
        ensures { outcome self.new result ≡ interrupts_at self.old status edge value }
    {
        self.set_status(status, edge);
        self.hand = 0;
        Ok(value)
    }

    // Any status but A0h: the edge does not matter there.
    pub(crate) fn give(&mut self, status: u8, value: u8) -> Answer
        ensures { outcome self.new result ≡ interrupts_at self.old status Stop value }
    {
        self.interrupt(status, Edge::Stop, value)
    }

    // The controller waits for something else.
    pub fn wait_for(&mut self, turn: Turn, value: u8) -> Answer
        ensures { outcome self.new result ≡ waits_for self.old turn value }
    {
        self.turn = turn;
        Ok(value)
    }
}
