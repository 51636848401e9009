// The record in lent bytes.
ghost use Rattle.std.specs.Prelude.{◌≡◌, true, false, eqb, ltb, length, MatchOption};
ghost use Rattle.notation.specs.Overlay.{laid};
ghost use Rattle.virtual_chip.specs.RecordBytes.{record_in, is_record, decoded, no_record, record_of, head_bytes, bytes_of, stored};

use crate::numbers::{reason_for, turn_for, turn_number};
use control::flags::Control;
use controller::record::{Controller, Registers};

// A flag is 0 or 1. (`bool` has no `TryFrom<u8>`.)
fn flag_for(byte: u8) -> Option<bool>
    ensures { MatchOption result (ltb byte 2 ≡ false) (λ flag. (ltb byte 2 ≡ true) × (flag ≡ eqb byte 1)) }
{
    match byte {
        0 => Some(false),
        1 => Some(true),
        _ => None,
    }
}

// The record in bytes that have the mark, and whose every number names something.
#[tactic(auto, unfolding(crate::specs::RecordBytes::record_in, crate::specs::RecordBytes::flags_in, crate::specs::RecordBytes::decoded), using(notation::proofs::Cases::cases))]
fn parse(memory: &[u8; 88]) -> Option<Controller>
    ensures { MatchOption result (record_in memory.now ≡ false) (λ c. (record_in memory.now ≡ true) × (c ≡ decoded memory.now)) }
{
    if memory[0] != 0x50 || memory[1] != 0x43 {
        return None;
    }
    let turn = turn_for(memory[2], memory[3])?;
    let reason = reason_for(memory[4])?;
    let control = Control {
        aa: flag_for(memory[5])?,
        ensio: flag_for(memory[6])?,
        sta: flag_for(memory[7])?,
        sto: flag_for(memory[8])?,
        mode: flag_for(memory[9])?,
    };
    let armed = flag_for(memory[10])?;
    let mut buffer = [0; 68];
    buffer.copy_from_slice(&memory[20..]);
    Some(Controller {
        buffer,
        hand: memory[11],
        moved: memory[12],
        pointer: memory[13],
        armed,
        registers: Registers {
            count: memory[14],
            own: memory[15],
            low: memory[16],
            high: memory[17],
            timeout: memory[18],
            speed: memory[19],
        },
        control,
        turn,
        reason,
    })
}

// The record, sound or not, if the bytes are one.
pub fn decode(memory: &[u8]) -> Option<Controller>
    ensures { MatchOption result (is_record memory.now ≡ false) (λ c. (is_record memory.now ≡ true) × (c ≡ record_of memory.now)) }
{
    parse(memory.first_chunk()?)
}

// What stands for bytes that are no record: one that is not sound.
fn no_record() -> Controller
    ensures { result ≡ no_record }
{
    Controller {
        pointer: 8,
        ..Controller::fresh()
    }
}

// The record in any bytes.
pub fn load(memory: &[u8]) -> Controller
    ensures { result ≡ record_of memory.now }
{
    decode(memory).unwrap_or_else(no_record)
}

// All but the buffer.
#[tactic(auto, unfolding(crate::specs::RecordBytes::head_bytes, crate::specs::RecordBytes::flag_bytes, crate::specs::RecordBytes::register_bytes), using(crate::proofs::Bytes::flag_byte))]
fn head_bytes(c: Controller) -> [u8; 20]
    ensures { result ≡ head_bytes c }
{
    [
        0x50,
        0x43,
        turn_number(c.turn),
        c.turn.status(),
        c.reason.number(),
        u8::from(c.control.aa),
        u8::from(c.control.ensio),
        u8::from(c.control.sta),
        u8::from(c.control.sto),
        u8::from(c.control.mode),
        u8::from(c.armed),
        c.hand,
        c.moved,
        c.pointer,
        c.registers.count,
        c.registers.own,
        c.registers.low,
        c.registers.high,
        c.registers.timeout,
        c.registers.speed,
    ]
}

// The record is stored, where there is room for it.
pub fn store(memory: &mut [u8], c: Controller)
    ensures { memory.new ≡ laid (stored (length memory.old) c) memory.old }
{
    if let Some(memory) = memory.first_chunk_mut() {
        encode(memory, c);
    }
}

// It fills the bytes.
#[tactic(auto, unfolding(crate::specs::RecordBytes::bytes_of))]
pub(crate) fn encode(memory: &mut [u8; 88], c: Controller)
    ensures { memory.new ≡ bytes_of c }
{
    let (head, places) = memory.split_at_mut(20);
    head.copy_from_slice(&head_bytes(c));
    places.copy_from_slice(&c.buffer);
}
