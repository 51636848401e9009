// What the rules do beside the table, called from another crate, with document 01's values.
use answer::Refusal;
use control::flags::Control;
use control::turn::{Edge, Turn};
use control::writing::after_edge;
use controller::record::Controller;

// A record at a status, amid a move, with I2CCOUNT.
fn waiting(status: u8, count: u8) -> Controller {
    let mut c = Controller::fresh();
    c.registers.count = count;
    c.control.ensio = true;
    c.set_status(status, Edge::Stop);
    c.hand = 3;
    c.moved = 2;
    c.armed = true;
    c
}

#[test]
fn a0h_leads_to_free_or_listen(rt: HostRuntime) {
    assert_eq!(rt; after_edge(Edge::Stop), Turn::Free);
    assert_eq!(rt; after_edge(Edge::Start), Turn::Listen);
}

#[test]
fn a_refused_write_changes_nothing(rt: HostRuntime) {
    let k = Control::from(0x41);
    let unlisted = (None, 2, Err(Refusal::Unlisted));
    let none = (Some(Turn::Send), 0x80, Err(Refusal::BadCount));
    let over = (Some(Turn::Send), 69, Err(Refusal::BadCount));
    for (response, count, refused) in [unlisted, none, over] {
        let mut c = waiting(0x18, count);
        assert_eq!(rt; c.enable(k, response), refused);
        assert_eq!(rt; c, waiting(0x18, count));
    }
}

#[test]
fn an_accepted_write_leads_on(rt: HostRuntime) {
    let sends = (0x18, 0x41, Turn::Send, 0x41);
    let stops = (0x28, 0x50, Turn::Stopping, 0x50);
    let waits = (0x88, 0xD0, Turn::Busy, 0xC0);
    for (status, value, turn, stored) in [sends, stops, waits] {
        let mut c = waiting(status, 68);
        assert_eq!(rt; c.enable(Control::from(value), Some(turn)), Ok(0));
        let mut next = waiting(status, 68);
        next.hand = 0;
        next.moved = 0;
        next.armed = false;
        next.control = Control::from(stored);
        next.turn = turn;
        assert_eq!(rt; c, next);
    }
}
