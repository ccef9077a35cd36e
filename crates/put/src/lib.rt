// The other direction of `bits`: a number of any width up to 32 bits, put at any bit position of a byte slice, most significant
// bit first. It knows bytes and bits alone: nothing of tables, of places or of refusals.
#![tactic(auto)]

ghost use Rattle.std.specs.Prelude.{◌≡◌, ◌+◌, ◌-◌, ◌*◌, ◌/◌, ◌%◌, ◌^◌, ◌≤◌, ◌<◌, min};
ghost use Rattle.bits.specs.Bits.{widest, field_bits};
ghost use Rattle.bits.specs.Put.{bits_put};

use bits::WIDEST;

// Puts the number's lowest bits, at most 32 of them, from that bit position on. What stands before them stays, what stands behind
// them in their last byte is 0, and what lies past the end of the buffer is lost.
pub fn put(buffer: &mut [u8], at: usize, width: usize, value: u32)
    ensures { buffer.new ≡ bits_put buffer.old at (field_bits (min width widest) value) }
{
    // a byte and a bit of it, so that no sum wraps
    let first = at / 8;
    let from = at % 8;
    let end = width.min(WIDEST);
    // a store of no bits would still clear what stands behind them
    if end == 0 {
        return;
    }
    let take = end.min(8 - from);
    let rest = end - take;
    put_chunk(buffer, first, from, take, value >> rest);
    if 0 < rest {
        put_bytes(buffer, first + 1, rest, value);
    }
}

// Puts the number's lowest bits from the head of that byte on: a byte that they fill is one store, whatever it held.
fn put_bytes(buffer: &mut [u8], first: usize, width: usize, value: u32)
    requires first_bound { first < 2 ^ 63 }
    requires width_le_widest { width ≤ widest }
    ensures { buffer.new ≡ bits_put buffer.old (8 * first) (field_bits width value) }
{
    let whole = width / 8;
    let rest = width % 8;
    for k in 0..whole {
        put_byte(buffer, first + k, value >> (width - 8 * (k + 1)));
    }
    if 0 < rest {
        put_chunk(buffer, first + whole, 0, rest, value);
    }
}

// A byte with the number's lowest `take` bits behind its first `from`, and zeros behind them.
fn joined(byte: u8, from: usize, take: usize, value: u32) -> u8
    requires { from + take ≤ 8 }
    ensures { result ≡ (byte / 2 ^ (8 - from) * 2 ^ take + value % 2 ^ take) * 2 ^ (8 - (from + take)) }
{
    let before = u32::from(byte) >> (8 - from);
    let bits = (before << take) + value % (1 << take);
    (bits << (8 - (from + take))) as u8
}

// Bits that lie within one byte are one store.
fn put_chunk(buffer: &mut [u8], byte: usize, from: usize, take: usize, value: u32)
    requires take_nonzero { 0 < take }
    requires take_bound { from + take ≤ 8 }
    ensures { buffer.new ≡ bits_put buffer.old (8 * byte + from) (field_bits take value) }
{
    // not by `get_mut`, whose contract says nothing of what the slice holds afterwards
    if byte < buffer.len() {
        buffer[byte] = joined(buffer[byte], from, take, value);
    }
}

// The same of eight bits, whatever the byte held.
fn put_byte(buffer: &mut [u8], byte: usize, value: u32)
    ensures { buffer.new ≡ bits_put buffer.old (8 * byte) (field_bits 8 value) }
{
    // as there, not by `get_mut`
    if byte < buffer.len() {
        buffer[byte] = (value % 256) as u8;
    }
}
