// INDPTR, I2CDAT and the registers at the pointer.
ghost use Rattle.std.specs.Prelude.{◌≡◌, ◌≤◌};
ghost use Rattle.controller.specs.Registers.{write_pointer, read_data, write_data, at_pointer, stored, write_at_pointer};
ghost use Rattle.controller.specs.Reply.{outcome};

use crate::record::{Controller, Registers};
use answer::{Answer, Refusal};

impl Registers {
    // A write at the pointer, which is not 05h or 07h.
    fn store(&mut self, pointer: u8, value: u8)
        ensures { self.new ≡ stored self.old pointer value }
    {
        match pointer {
            0 => self.count = value,
            1 => self.own = value,
            2 => self.low = value,
            3 => self.high = value,
            4 => self.timeout = value,
            _ => self.speed = value % 4,
        }
    }
}

impl Controller {
    // INDPTR.
    pub(crate) fn write_pointer(&mut self, value: u8) -> Answer
        ensures { outcome self.new result ≡ write_pointer self.old value }
    {
        self.pointer = value % 8;
        self.armed = false;
        Ok(0)
    }

    // I2CDAT: the byte at the hand place, which goes on by one.
    pub(crate) fn read_data(&mut self) -> Answer
        requires { self.old.hand ≤ 68 }
        ensures { outcome self.new result ≡ read_data self.old }
    {
        if self.hand == 68 {
            return Err(Refusal::BufferEnd);
        }
        let at = self.hand as usize;
        self.hand += 1;
        Ok(self.buffer[at])
    }

    // The same, written.
    pub(crate) fn write_data(&mut self, value: u8) -> Answer
        requires { self.old.hand ≤ 68 }
        ensures { outcome self.new result ≡ write_data self.old value }
    {
        if self.hand == 68 {
            return Err(Refusal::BufferEnd);
        }
        let at = self.hand as usize;
        self.buffer[at] = value;
        self.hand += 1;
        self.armed = false;
        Ok(0)
    }

    // What the register at the pointer reads.
    pub(crate) fn at_pointer(&self) -> u8
        ensures { result ≡ at_pointer self.now }
    {
        match self.pointer {
            0 => self.registers.count,
            1 => self.registers.own,
            2 => self.registers.low,
            3 => self.registers.high,
            4 => self.registers.timeout,
            6 => self.registers.speed,
            _ => self.moved,
        }
    }

    // The register at the pointer, written.
    pub(crate) fn write_at_pointer(&mut self, value: u8) -> Answer
        ensures { outcome self.new result ≡ write_at_pointer self.old value }
    {
        if self.pointer == 5 {
            return self.write_preset(value);
        }
        self.registers.store(self.pointer, value);
        self.armed = false;
        Ok(0)
    }
}
