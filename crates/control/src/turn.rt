// The turn: what the controller waits for (document 01's term), with what that wait needs and the record does not hold.
ghost use Rattle.std.specs.Prelude.{◌≡◌, [], ◌∷◌};
ghost use Rattle.control.specs.Turn.{host, waits, wire_turns, data_turns, status_of, at38h};

// Which bus condition ended a slave reception. It matters at status A0h alone; the events write `Stop` with every other.
#[derive(Clone, Copy, Debug, PartialEq, Eq)]
pub enum Edge {
    Stop,
    Start,
}

// By which address the controller was called as a slave receiver.
#[derive(Clone, Copy, Debug, PartialEq, Eq)]
pub enum Called {
    Own,
    General,
}

// What the controller waits for; Address to Restarting are the wire turns. (A status is a number, as the data sheet's codes are.)
#[derive(Clone, Copy, Debug, PartialEq, Eq)]
pub enum Turn {
    Off,
    // SI is 1, and the host has the next move (at 38h the bus has it). The status, and at A0h the bus condition.
    Host(u8, Edge),
    Free,
    Busy,
    Listen,
    Address,
    Send,
    Receive,
    SlaveReceive(Called),
    SlaveSend,
    Stopping,
    Restarting,
}

impl Turn {
    // What I2CSTA reads.
    pub fn status(self) -> u8
        ensures { result ≡ status_of self }
    {
        match self {
            Turn::Host(status, _) => status,
            _ => 0xF8,
        }
    }

    // SI.
    pub fn interrupts(self) -> bool
        ensures { result ≡ waits self (host ∷ []) }
    {
        matches!(self, Turn::Host(_, _))
    }

    // Host at 38h: arbitration was lost, and another master has the bus.
    pub fn is_at_38h(self) -> bool
        ensures { result ≡ at38h self }
    {
        self.status() == 0x38
    }

    // A wire turn (document 01's term): something is under way on the bus.
    pub fn on_wire(self) -> bool
        ensures { result ≡ waits self wire_turns }
    {
        matches!(
            self,
            Turn::Address
                | Turn::Send
                | Turn::Receive
                | Turn::SlaveReceive(_)
                | Turn::SlaveSend
                | Turn::Stopping
                | Turn::Restarting
        )
    }

    // Data bytes are moved in this turn.
    pub fn moves_data(self) -> bool
        ensures { result ≡ waits self data_turns }
    {
        matches!(
            self,
            Turn::Send | Turn::Receive | Turn::SlaveReceive(_) | Turn::SlaveSend
        )
    }
}
