// Bus conditions and address bytes: events 1 to 5 and 8 to 13. Each changes the record in place, or refuses and leaves it.
ghost use Rattle.std.specs.Prelude.{◌≡◌};
ghost use Rattle.controller.specs.Condition.{own_start, other_start, other_stop, own_stop, match_on_bus, matches, addressed, address_byte};
ghost use Rattle.controller.specs.Condition.{outbid, address_lost, data_lost, illegal_edge, data_held, clock_held, idle};
ghost use Rattle.controller.specs.Reply.{outcome};

use crate::record::Controller;
use address::matching::{AddressMatch, Match, match_address};
use address::number::{AddressByte, Direction};
use answer::{Answer, Refusal};
use control::turn::{Edge, Turn};

impl Controller {
    // 1. Own START.
    pub(crate) fn own_start(&mut self) -> Answer
        ensures { outcome self.new result ≡ own_start self.old }
    {
        match self.turn {
            Turn::Free if self.control.sta => self.give(0x08, 0),
            Turn::Restarting => self.give(0x10, 0),
            _ => Err(Refusal::Unexpected),
        }
    }

    // 2. Another's START.
    pub(crate) fn other_start(&mut self) -> Answer
        ensures { outcome self.new result ≡ other_start self.old }
    {
        match self.turn {
            Turn::Free | Turn::Busy => self.wait_for(Turn::Listen, 0),
            Turn::Restarting => self.give(0x10, 0),
            Turn::SlaveReceive(_) => self.interrupt(0xA0, Edge::Start, 0),
            _ => Err(Refusal::Unexpected),
        }
    }

    // 3. Another's STOP.
    pub(crate) fn other_stop(&mut self) -> Answer
        ensures { outcome self.new result ≡ other_stop self.old }
    {
        match self.turn {
            Turn::Busy => self.wait_for(Turn::Free, 0),
            Turn::SlaveReceive(_) => self.interrupt(0xA0, Edge::Stop, 0),
            turn if turn.is_at_38h() => self.wait_for(Turn::Free, 0),
            _ => Err(Refusal::Unexpected),
        }
    }

    // 4. Own STOP: the bus is free, and STO is 0.
    pub(crate) fn own_stop(&mut self) -> Answer
        ensures { outcome self.new result ≡ own_stop self.old }
    {
        match self.turn {
            Turn::Stopping => {
                self.control.sto = false;
                self.wait_for(Turn::Free, 0)
            }
            _ => Err(Refusal::Unexpected),
        }
    }

    // What the match answers for an address byte on the bus, for a ward log. Events 5 and 8 go by the same answer.
    pub fn match_on_bus(&self, byte: u8) -> AddressMatch
        ensures { result ≡ match_on_bus self.now byte }
    {
        match_address(self.registers.own, self.control.aa, AddressByte(byte))
    }

    // 5. The status by what the address byte matched.
    fn addressed(&mut self, found: Match) -> Answer
        ensures { outcome self.new result ≡ addressed self.old found }
    {
        match found {
            Match::General => self.give(0xD0, 0),
            Match::Own(Direction::Write) => self.give(0x60, 0),
            Match::Own(Direction::Read) => self.give(0xA8, 0),
            Match::Nothing => self.wait_for(Turn::Busy, 1),
        }
    }

    // 5. An address byte.
    pub(crate) fn address_byte(&mut self, byte: u8) -> Answer
        ensures { outcome self.new result ≡ address_byte self.old byte }
    {
        match self.turn {
            Turn::Listen => self.addressed(self.match_on_bus(byte).call),
            _ => Err(Refusal::Unexpected),
        }
    }

    // 8. The status by what the winner's byte matched.
    fn outbid(&mut self, found: Match) -> Answer
        ensures { outcome self.new result ≡ outbid self.old found }
    {
        match found {
            Match::General => self.give(0xD8, 0),
            Match::Own(Direction::Write) => self.give(0x68, 0),
            Match::Own(Direction::Read) => self.give(0xB0, 0),
            Match::Nothing => self.give(0x38, 1),
        }
    }

    // 8. Arbitration lost to a smaller address byte.
    pub(crate) fn address_lost(&mut self, byte: u8) -> Answer
        ensures { outcome self.new result ≡ address_lost self.old byte }
    {
        match self.turn {
            Turn::Address if byte < self.buffer[0] => self.outbid(self.match_on_bus(byte).call),
            _ => Err(Refusal::Unexpected),
        }
    }

    // 9. Arbitration lost in a data byte.
    pub(crate) fn data_lost(&mut self) -> Answer
        ensures { outcome self.new result ≡ data_lost self.old }
    {
        match self.turn {
            Turn::Send | Turn::Receive => self.give(0x38, 0),
            _ => Err(Refusal::Unexpected),
        }
    }

    // 10. START or STOP at an illegal place.
    pub(crate) fn illegal_edge(&mut self) -> Answer
        ensures { outcome self.new result ≡ illegal_edge self.old }
    {
        match self.turn {
            Turn::Off | Turn::Host(_, _) => Err(Refusal::Unexpected),
            Turn::Free | Turn::Busy | Turn::Listen => Ok(0),
            _ => self.give(0x00, 0),
        }
    }

    // 11. SDA held after nine clocks.
    pub(crate) fn data_held(&mut self) -> Answer
        ensures { outcome self.new result ≡ data_held self.old }
    {
        match self.turn {
            Turn::Free if self.control.sta => self.give(0x70, 0),
            Turn::Restarting => self.give(0x70, 0),
            _ => Err(Refusal::Unexpected),
        }
    }

    // 12. SCL low past the time-out. At 38h SI is 1 already, and the hand place stays.
    pub(crate) fn clock_held(&mut self) -> Answer
        ensures { outcome self.new result ≡ clock_held self.old }
    {
        let enabled = self.registers.timeout / 128 == 1;
        match self.turn {
            Turn::Off | Turn::Host(_, _) => {
                if self.turn.is_at_38h() & enabled {
                    self.set_status(0x78, Edge::Stop);
                    return Ok(0);
                }
                Err(Refusal::Unexpected)
            }
            _ if enabled => self.give(0x78, 0),
            _ => Err(Refusal::Unexpected),
        }
    }

    // 13. Idle past the time-out.
    pub(crate) fn idle(&mut self) -> Answer
        ensures { outcome self.new result ≡ idle self.old }
    {
        let enabled = self.registers.timeout / 128 == 1;
        match self.turn {
            Turn::Busy | Turn::Listen if enabled && self.control.sta => self.give(0x08, 0),
            _ => Err(Refusal::Unexpected),
        }
    }
}
