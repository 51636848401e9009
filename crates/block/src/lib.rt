// I2CDAT, many bytes at once: what as many register accesses give, on one record in place. (By helpers that test once: by `on_read` and `on_write` a read of
// 68 takes 892 to 967 ns and not 560 to 612. docs/DECISIONS.md, 'Speed', measured with the older kit.)
#![tactic(auto)]

ghost use Rattle.std.specs.Prelude.{◌≡◌, length};
ghost use Rattle.block.specs.Block.{reach_of, written, after_reads, values_read};
ghost use Rattle.controller.specs.Access.{read_of};

use controller::record::Controller;

// I2CDAT reaches the places below this: none where the record is not sound, or in a wire turn. (One test for all the bytes.)
fn reach(c: &Controller) -> u8
    ensures { result ≡ reach_of c.now }
{
    if c.is_sound() && !c.turn.on_wire() {
        68
    } else {
        0
    }
}

// Bytes written to I2CDAT, one after the other: from the first that has no place on, all are refused.
pub fn write_block(c: &mut Controller, bytes: &[u8])
    ensures { c.new ≡ written bytes.now c.old }
{
    let end = reach(c);
    for &byte in bytes {
        let full = end <= c.hand;
        if full {
            return;
        }
        c.buffer[c.hand as usize] = byte;
        c.hand += 1;
        c.armed = false;
    }
}

// One byte read from I2CDAT, which reaches the places below `end`: 0 where it is refused.
fn read_byte(c: &mut Controller, end: u8) -> u8
    requires { reach_of c.old ≡ end }
    ensures next { c.new ≡ (read_of c.old 1).next }
    ensures value { result ≡ (read_of c.old 1).value }
    ensures reach { reach_of c.new ≡ end }
{
    let hand = c.hand;
    let past = end <= hand;
    if past {
        return 0;
    }
    c.hand = hand + 1;
    c.buffer[hand as usize]
}

// I2CDAT read once for each place of `bytes`, and what it gave put there.
pub fn read_block(c: &mut Controller, bytes: &mut [u8])
    ensures next { c.new ≡ after_reads (length bytes.old) c.old }
    ensures bytes { bytes.new ≡ values_read (length bytes.old) c.old }
{
    let end = reach(c);
    for byte in bytes.iter_mut() {
        *byte = read_byte(c, end);
    }
}
