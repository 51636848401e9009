// Writing I2CCON.
ghost use Rattle.std.specs.Prelude.{◌≡◌, Option, Some, None};
ghost use Rattle.controller.specs.I2ccon.{controlled, bad_count, enabled, write_flags, write_control};
ghost use Rattle.controller.specs.Reply.{outcome};

use crate::record::Controller;
use answer::{Answer, Refusal};
use control::flags::Control;
use control::turn::Turn;
use control::writing::respond;

impl Controller {
    // An accepted write: STO is stored only where it leads to Stopping, and hand place and moved count go back to 0.
    pub fn accept_control(&mut self, k: Control, turn: Turn) -> Answer
        ensures { outcome self.new result ≡ controlled self.old k turn }
    {
        let sto = match turn {
            Turn::Stopping => k.sto,
            _ => self.control.sto,
        };
        self.hand = 0;
        self.moved = 0;
        self.control = Control { sto, ..k };
        self.turn = turn;
        self.armed = false;
        Ok(0)
    }

    // The write would start a buffered data move, and BC is not 1..68.
    fn has_bad_count(&self, k: Control, turn: Turn) -> bool
        ensures { result ≡ bad_count self.now k turn }
    {
        let count = self.registers.count % 128;
        k.mode && turn.moves_data() && (count == 0 || 68 < count)
    }

    // A write with ENSIO 1: to the next turn, if the write is listed.
    pub fn enable(&mut self, k: Control, response: Option<Turn>) -> Answer
        ensures { outcome self.new result ≡ enabled self.old k response }
    {
        let Some(turn) = response else {
            return Err(Refusal::Unlisted);
        };
        if self.has_bad_count(k, turn) {
            return Err(Refusal::BadCount);
        }
        self.accept_control(k, turn)
    }

    fn write_flags(&mut self, k: Control) -> Answer
        ensures { outcome self.new result ≡ write_flags self.old k }
    {
        match self.turn.status() {
            0x00 | 0x70 | 0x78 => Err(Refusal::Locked),
            _ if k.ensio => self.enable(k, respond(self.turn, k)),
            _ => self.accept_control(Control { sta: false, ..k }, Turn::Off),
        }
    }

    pub(crate) fn write_control(&mut self, value: u8) -> Answer
        ensures { outcome self.new result ≡ write_control self.old value }
    {
        self.write_flags(Control::from(value))
    }
}
