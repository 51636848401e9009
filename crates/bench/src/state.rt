// What is printed of an answer, of the record after it and, for the ward log, of an address byte.
use crate::print::print;
use answer::{refusal_of, value_of};
use console::fixed::{put_reason, put_ward_note};
use console::turn::{called_name, turn_name};
use control::turn::{Edge, Turn};
use controller::record::Controller;
use controller::reply::Reply;
use text::Text;

// A line has at most so many bytes.
const WIDTH: usize = 160;

// The turn's name and what it carries: at A0h the bus condition that ended a slave reception, in SlaveReceive the address called.
fn put_turn(line: &mut Text<WIDTH>, turn: Turn) {
    line.put_word(turn_name(turn));
    match turn {
        Turn::Host(0xA0, Edge::Stop) => line.put_word(b" stop"),
        Turn::Host(0xA0, Edge::Start) => line.put_word(b" start"),
        Turn::SlaveReceive(called) => {
            line.put(b' ');
            line.put_word(called_name(called));
        }
        _ => {}
    }
}

// A name and a number in decimal.
fn put_field(line: &mut Text<WIDTH>, name: &[u8], n: u8) {
    line.put_word(name);
    line.put_decimal(n as usize);
}

// A name and a byte in hexadecimal.
fn put_byte(line: &mut Text<WIDTH>, name: &[u8], byte: u8) {
    line.put_word(name);
    line.put_hex(byte);
}

// What a register reads.
fn reading(c: &Controller, register: u8) -> u8 {
    value_of(c.read(register).answer)
}

// The record, from `status` to the reason.
fn put_state(line: &mut Text<WIDTH>, c: &Controller) {
    put_byte(line, b"status ", reading(c, 0));
    put_byte(line, b" control ", reading(c, 3));
    put_field(line, b" pointer ", c.pointer);
    put_field(line, b" hand ", c.hand);
    put_field(line, b" moved ", c.moved);
    put_field(line, b" armed ", c.armed as u8);
    line.put_word(b" turn ");
    put_turn(line, c.turn);
    put_reason(line, c.reason);
}

// The line for one access or event, given to `before`.
pub(crate) fn print_reply(
    rt: &impl Print,
    before: &Controller,
    kind: u8,
    place: u8,
    value: u8,
    reply: &Reply,
) {
    let refused = refusal_of(reply.answer);
    let mut line = Text::new();
    put_field(&mut line, b"refused ", refused);
    put_byte(&mut line, b" value ", value_of(reply.answer));
    line.put(b' ');
    put_state(&mut line, &reply.controller);
    put_ward_note(&mut line, before, kind, place, value, refused);
    line.put(b'\n');
    print(rt, &line);
}

// The line for the record after a job.
pub(crate) fn print_state(rt: &impl Print, c: &Controller) {
    let mut line = Text::new();
    put_state(&mut line, c);
    line.put(b'\n');
    print(rt, &line);
}

// The line for the buffer.
pub(crate) fn print_buffer(rt: &impl Print, c: &Controller) {
    let mut line: Text<256> = Text::new();
    line.put_word(b"buffer");
    line.put_listed(&c.buffer);
    line.put(b'\n');
    print(rt, &line);
}
