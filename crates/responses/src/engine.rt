// I2CCON written by the table: a second engine beside the controller's own write, with the same promise.
ghost use Rattle.std.specs.Prelude.{◌≡◌, Some};
ghost use Rattle.control.specs.Writing.{after_edge};
ghost use Rattle.controller.specs.Access.{write_of};
ghost use Rattle.controller.specs.I2ccon.{controlled, bad_count, enabled};
ghost use Rattle.controller.specs.Reply.{outcome, outcome_of};
ghost use Rattle.responses.specs.Engine.{beside_table, by_entry, disabled};

use crate::entry::Entry;
use crate::table::entry_at;
use answer::{Answer, Refusal};
use control::flags::Control;
use control::turn::{Edge, Turn};
use controller::record::Controller;
use controller::reply::Reply;

// An accepted write: the flags and the next turn, and hand place and moved count go back to 0. STO is stored only where it leads to Stopping.
fn accept(c: &mut Controller, k: Control, turn: Turn) -> Answer
    ensures { outcome c.new result ≡ controlled c.old k turn }
{
    let flags = match turn {
        Turn::Stopping => k,
        _ => Control {
            sto: c.control.sto,
            ..k
        },
    };
    c.control = flags;
    c.turn = turn;
    c.hand = 0;
    c.moved = 0;
    c.armed = false;
    Ok(0)
}

// The write would start a buffered data move, and BC is not 1..68.
fn has_bad_count(c: &Controller, k: Control, turn: Turn) -> bool
    ensures { result ≡ bad_count c.now k turn }
{
    let count = c.registers.count % 128;
    let moves = turn.moves_data();
    k.mode & (moves & ((count == 0) | (68 < count)))
}

// To the next turn that an entry names, or refusal 6.
fn lead(c: &mut Controller, k: Control, turn: Turn) -> Answer
    ensures { outcome c.new result ≡ enabled c.old k (Some turn) }
{
    if has_bad_count(c, k, turn) {
        Err(Refusal::BadCount)
    } else {
        accept(c, k, turn)
    }
}

// Where a write at A0h leads.
fn after_edge(edge: Edge) -> Turn
    ensures { result ≡ after_edge edge }
{
    match edge {
        Edge::Stop => Turn::Free,
        Edge::Start => Turn::Listen,
    }
}

// A0h and F8h, beside the table.
fn beside(c: &mut Controller, k: Control) -> Answer
    ensures { outcome c.new result ≡ beside_table c.old k }
{
    match c.turn {
        Turn::Off => accept(c, k, Turn::Free),
        Turn::Host(_, edge) => accept(c, k, after_edge(edge)),
        Turn::Free | Turn::Busy | Turn::Listen => accept(c, k, c.turn),
        _ => Err(Refusal::OnTheWire),
    }
}

// ENSIO 0, beside the table.
fn disable(c: &mut Controller, k: Control) -> Answer
    ensures { outcome c.new result ≡ disabled c.old k }
{
    if c.turn.on_wire() {
        return Err(Refusal::OnTheWire);
    }
    match c.turn.status() {
        0x00 | 0x70 | 0x78 => Err(Refusal::Locked),
        _ => accept(c, Control { sta: false, ..k }, Turn::Off),
    }
}

// What an entry makes of a write with ENSIO 1.
fn follow(c: &mut Controller, k: Control, entry: Entry) -> Answer
    ensures { outcome c.new result ≡ by_entry c.old k entry }
{
    match entry {
        Entry::Never => Err(Refusal::Unsound),
        Entry::Beside => beside(c, k),
        Entry::Stays => accept(c, k, c.turn),
        Entry::Refused(why) => Err(why),
        Entry::Next(next) => lead(c, k, next),
    }
}

// Any value written to I2CCON, of any record, in place: what `Controller::on_write` does with register 3.
pub fn on_write_by_table(c: &mut Controller, value: u8) -> Answer
    ensures { outcome c.new result ≡ write_of c.old 3 value }
{
    if !c.is_sound() {
        return Err(Refusal::Unsound);
    }
    let k = Control::from(value);
    if k.ensio {
        follow(c, k, entry_at(c.turn.status(), k))
    } else {
        disable(c, k)
    }
}

// The same of a record by value.
pub fn write_by_table(mut c: Controller, value: u8) -> Reply
    ensures { outcome_of result ≡ write_of c 3 value }
{
    let answer = on_write_by_table(&mut c, value);
    Reply {
        controller: c,
        answer,
    }
}
