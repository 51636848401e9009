// Reading and writing any register.
ghost use Rattle.std.specs.Prelude.{◌≡◌, true};
ghost use Rattle.controller.specs.Record.{sound};
ghost use Rattle.controller.specs.Reply.{outcome, outcome_of};
ghost use Rattle.controller.specs.Access.{bars_read, bars_write, indirect_at, read_sound, read_of, write_sound, write_of};

use crate::record::Controller;
use crate::reply::Reply;
use answer::{Answer, Refusal};

impl Controller {
    // Register 2 is meant, and the pointer is this one.
    fn is_indirect_at(&self, register: u8, pointer: u8) -> bool
        ensures { result ≡ indirect_at self.now register pointer }
    {
        register == 2 && self.pointer == pointer
    }

    // A wire turn, in which I2CDAT is not read.
    fn bars_read(&self, register: u8) -> bool
        ensures { result ≡ bars_read self.now register }
    {
        self.turn.on_wire() && register == 1
    }

    // A wire turn, in which only INDPTR and I2CPRESET are written.
    fn bars_write(&self, register: u8) -> bool
        ensures { result ≡ bars_write self.now register }
    {
        let excepted = register == 0 || self.is_indirect_at(register, 5);
        !excepted && self.turn.on_wire()
    }

    // A register of a sound record, read.
    fn read_sound(&mut self, register: u8) -> Answer
        requires { sound self.old ≡ true }
        ensures { outcome self.new result ≡ read_sound self.old register }
    {
        if self.is_indirect_at(register, 5) {
            return Err(Refusal::Inaccessible);
        }
        if self.bars_read(register) {
            return Err(Refusal::OnTheWire);
        }
        match register {
            0 => Ok(self.turn.status()),
            1 => self.read_data(),
            2 => Ok(self.at_pointer()),
            _ => Ok(self.control.byte(self.turn.interrupts())),
        }
    }

    // Any register read, of any record, in place.
    pub fn on_read(&mut self, register: u8) -> Answer
        ensures { outcome self.new result ≡ read_of self.old register }
    {
        if 3 < register {
            return Err(Refusal::OutOfRange);
        }
        if !self.is_sound() {
            return Err(Refusal::Unsound);
        }
        self.read_sound(register)
    }

    // The same of a record by value: the form that document 01 lists.
    pub fn read(mut self, register: u8) -> Reply
        ensures { outcome_of result ≡ read_of self register }
    {
        let answer = self.on_read(register);
        Reply {
            controller: self,
            answer,
        }
    }

    // A register of a sound record, written.
    #[tactic(auto, unfolding(crate::specs::Access::write_sound), using(crate::proofs::Outcomes::outcomes, notation::proofs::Cases::by_call))]
    fn write_sound(&mut self, register: u8, value: u8) -> Answer
        requires { sound self.old ≡ true }
        ensures { outcome self.new result ≡ write_sound self.old register value }
    {
        if self.is_indirect_at(register, 7) {
            return Err(Refusal::Inaccessible);
        }
        if self.bars_write(register) {
            return Err(Refusal::OnTheWire);
        }
        match register {
            0 => self.write_pointer(value),
            1 => self.write_data(value),
            2 => self.write_at_pointer(value),
            _ => self.write_control(value),
        }
    }

    // Any value written to any register, of any record, in place.
    pub fn on_write(&mut self, register: u8, value: u8) -> Answer
        ensures { outcome self.new result ≡ write_of self.old register value }
    {
        if 3 < register {
            return Err(Refusal::OutOfRange);
        }
        if !self.is_sound() {
            return Err(Refusal::Unsound);
        }
        self.write_sound(register, value)
    }

    // The same of a record by value: the form that document 01 lists.
    pub fn write(mut self, register: u8, value: u8) -> Reply
        ensures { outcome_of result ≡ write_of self register value }
    {
        let answer = self.on_write(register, value);
        Reply {
            controller: self,
            answer,
        }
    }
}
