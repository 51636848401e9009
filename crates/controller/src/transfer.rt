// Bytes out and in: events 6 and 7.
ghost use Rattle.std.specs.Prelude.{◌≡◌, true, ◌<◌};
ghost use Rattle.controller.specs.Record.{sound};
ghost use Rattle.controller.specs.Reply.{outcome};
ghost use Rattle.controller.specs.Transfer.{cursor, is_last, data_out, address_status, byte_out, acknowledges_last, data_in, slave_in, byte_in};

use crate::record::Controller;
use address::number::{AddressByte, Direction};
use answer::{Answer, Refusal};
use control::turn::{Called, Turn};

// The status after an address byte that was acknowledged (0) or not (1).
fn address_status(direction: Direction, argument: u8) -> u8
    ensures { result ≡ address_status direction argument }
{
    let nacked = argument == 1;
    match direction {
        Direction::Write => if nacked { 0x20 } else { 0x18 },
        Direction::Read => if nacked { 0x48 } else { 0x40 },
    }
}

impl Controller {
    // The place that the next data byte is moved from or to.
    pub fn cursor(&self) -> u8
        ensures { result ≡ cursor self.now }
    {
        if self.control.mode { self.moved } else { 0 }
    }

    // The next data byte ends the move. (`moved < 68` stands in four contracts here and in no type: a record has it where it is sound and its turn moves data.)
    fn is_last(&self) -> bool
        requires { self.now.moved < 68 }
        ensures { result ≡ is_last self.now }
    {
        !self.control.mode || self.moved + 1 == self.registers.count % 128
    }

    // The last byte of a move is acknowledged.
    fn acknowledges_last(&self) -> bool
        ensures { result ≡ acknowledges_last self.now }
    {
        if self.control.mode {
            self.registers.count / 128 != 1
        } else {
            self.control.aa
        }
    }

    // A data byte out: `broken` is the status at a NACK, `done` the one at the last byte.
    fn data_out(&mut self, argument: u8, broken: u8, done: u8) -> Answer
        requires { self.old.moved < 68 }
        ensures { outcome self.new result ≡ data_out self.old argument broken done }
    {
        let byte = self.buffer[self.cursor() as usize];
        let last = self.is_last();
        self.moved += 1;
        if argument == 1 {
            self.give(broken, byte)
        } else if last {
            self.give(done, byte)
        } else {
            Ok(byte)
        }
    }

    // 6. A byte out, with what the receiver answered.
    pub(crate) fn byte_out(&mut self, argument: u8) -> Answer
        requires { sound self.old ≡ true }
        ensures { outcome self.new result ≡ byte_out self.old argument }
    {
        match self.turn {
            Turn::Address => {
                let byte = self.buffer[0];
                let direction = AddressByte(byte).direction();
                self.give(address_status(direction, argument), byte)
            }
            Turn::Send => self.data_out(argument, 0x30, 0x28),
            Turn::SlaveSend => {
                let done = if self.control.aa { 0xB8 } else { 0xC8 };
                self.data_out(argument, 0xC0, done)
            }
            _ => Err(Refusal::Unexpected),
        }
    }

    // A data byte in, stored at its place and counted: the status at the last byte is `taken` if it is acknowledged, else `ended`.
    fn data_in(&mut self, byte: u8, taken: u8, ended: u8) -> Answer
        requires { self.old.moved < 68 }
        ensures { outcome self.new result ≡ data_in self.old byte taken ended }
    {
        let at = self.cursor() as usize;
        let last = self.is_last();
        self.buffer[at] = byte;
        self.moved += 1;
        if !last {
            Ok(0)
        } else if self.acknowledges_last() {
            self.give(taken, 0)
        } else {
            self.give(ended, 1)
        }
    }

    // A data byte in as a slave, by the address that was called.
    fn slave_in(&mut self, byte: u8, called: Called) -> Answer
        requires { self.old.moved < 68 }
        ensures { outcome self.new result ≡ slave_in self.old byte called }
    {
        match called {
            Called::Own => self.data_in(byte, 0x80, 0x88),
            Called::General => self.data_in(byte, 0xE0, 0xE8),
        }
    }

    // 7. A byte in; the value tells whether it was acknowledged.
    pub(crate) fn byte_in(&mut self, byte: u8) -> Answer
        requires { sound self.old ≡ true }
        ensures { outcome self.new result ≡ byte_in self.old byte }
    {
        match self.turn {
            Turn::Receive => self.data_in(byte, 0x50, 0x58),
            Turn::SlaveReceive(called) => self.slave_in(byte, called),
            _ => Err(Refusal::Unexpected),
        }
    }
}
