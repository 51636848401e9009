// The words for a turn.
ghost use Rattle.std.specs.Prelude.{◌≡◌};
ghost use Rattle.console.specs.TurnText.{turn_name, called_name};

use control::turn::{Called, Turn};

// Document 01's name of a turn.
#[tactic(auto, unfolding(crate::specs::TurnText::turn_name))]
pub fn turn_name(turn: Turn) -> &'static [u8]
    ensures { result.now ≡ turn_name turn }
{
    match turn {
        Turn::Off => b"Off",
        Turn::Host(_, _) => b"Host",
        Turn::Free => b"Free",
        Turn::Busy => b"Busy",
        Turn::Listen => b"Listen",
        Turn::Address => b"Address",
        Turn::Send => b"Send",
        Turn::Receive => b"Receive",
        Turn::SlaveReceive(_) => b"SlaveReceive",
        Turn::SlaveSend => b"SlaveSend",
        Turn::Stopping => b"Stopping",
        Turn::Restarting => b"Restarting",
    }
}

// The address called, in SlaveReceive.
#[tactic(auto, unfolding(crate::specs::TurnText::called_name))]
pub fn called_name(called: Called) -> &'static [u8]
    ensures { result.now ≡ called_name called }
{
    match called {
        Called::Own => b"own",
        Called::General => b"general",
    }
}
