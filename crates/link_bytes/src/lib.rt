// All that sees bytes of records and of the store: the head of a received record, the records written, and the store's rows.
// Every function takes any slice and number; where there is no such row, or the output is too short, it changes nothing.
#![tactic(auto)]

ghost use Rattle.std.specs.Prelude.{◌≡◌, cond, ◌&&◌, ◌++◌, ◌+◌, leb, length, get_or};
ghost use Rattle.link_bytes.specs.Records.{two_at, four_at, head_of, short_record, long_record, written, fitted};
ghost use Rattle.link_bytes.specs.Store.{zeros, clear_row, queue_data, take_front, front_of, in_row};

use link_rows::Record;

mod parts;

// The byte at a place, 0 past the end.
pub fn byte(bytes: &[u8], i: usize) -> u8
    ensures { result ≡ get_or bytes.now i 0 }
{
    bytes.get(i).copied().unwrap_or(0)
}

// Numbers of two and of four bytes at a place; a byte past the end is 0.
pub fn two(bytes: &[u8], at: usize) -> u16
    ensures { result ≡ two_at bytes.now at }
{
    let rest = &bytes[at.min(bytes.len())..];
    u16::from_be_bytes([byte(rest, 0), byte(rest, 1)])
}

pub fn four(bytes: &[u8], at: usize) -> u32
    ensures { result ≡ four_at bytes.now at }
{
    let rest = &bytes[at.min(bytes.len())..];
    u32::from_be_bytes([byte(rest, 0), byte(rest, 1), byte(rest, 2), byte(rest, 3)])
}

#[tactic(auto, unfolding(crate::specs::Records::head_of))]
pub fn head(bytes: &[u8]) -> Record
    ensures { result ≡ head_of bytes.now }
{
    Record {
        available: bytes.len(),
        opcode: byte(bytes, 0),
        id: two(bytes, 1),
        count: four(bytes, 3),
    }
}

// Writes the bytes at the front of the output.
pub fn copy(bytes: &[u8], out: &mut [u8])
    ensures { out.new ≡ fitted bytes.now out.old }
{
    if bytes.len() <= out.len() {
        parts::copy(&mut out[..bytes.len()], bytes);
    }
}

pub fn write_short(opcode: u8, id: u16, out: &mut [u8])
    ensures { out.new ≡ fitted (short_record opcode id) out.old }
{
    let [high, low] = id.to_be_bytes();
    copy(&[opcode, high, low], out);
}

pub fn write_long(opcode: u8, id: u16, count: u32, out: &mut [u8])
    ensures { out.new ≡ fitted (long_record opcode id count) out.old }
{
    let [high, low] = id.to_be_bytes();
    let [c3, c2, c1, c0] = count.to_be_bytes();
    copy(&[opcode, high, low, c3, c2, c1, c0], out);
}

// A record with a count, and data after it.
pub fn write_data(opcode: u8, id: u16, count: u32, bytes: &[u8], out: &mut [u8])
    ensures { out.new ≡ fitted (long_record opcode id count ++ bytes.now) out.old }
{
    if Record::LONG_LENGTH + bytes.len() <= out.len() {
        write_long(opcode, id, count, out);
        copy(bytes, &mut out[Record::LONG_LENGTH..]);
    }
}

// Zeroes the slice.
pub fn zero(s: &mut [u8])
    ensures { s.new ≡ zeros (length s.old) }
{
    s.fill(0);
}

// In a whole store, row r has n bytes.
fn in_row(store_len: usize, r: usize, n: usize) -> bool
    ensures { result ≡ in_row store_len r n }
{
    (store_len == Record::STORE_LENGTH) & ((r < Record::ROWS) & (n <= Record::ROW_LENGTH))
}

// Zeroes row r.
pub fn clear_row(store: &mut [u8], r: usize)
    ensures { store.new ≡ cond (in_row (length store.old) r 0) (clear_row store.old r) store.old }
{
    if in_row(store.len(), r, 0) {
        parts::clear(store, r);
    }
}

// Data joins row r's unread bytes.
pub fn queue_data(store: &mut [u8], r: usize, unread: u32, bytes: &[u8])
    ensures { store.new ≡ cond (in_row (length store.old) r (unread + length bytes.now)) (queue_data store.old r unread bytes.now) store.old }
{
    let at = unread as usize;
    if in_row(store.len(), r, at + bytes.len()) {
        parts::queue(store, r, at, bytes);
    }
}

// The first n of row r's unread bytes leave it for the output.
pub fn take_front(store: &mut [u8], r: usize, unread: usize, n: usize, out: &mut [u8])
    ensures kept { store.new ≡ cond (in_row (length store.old) r unread && (leb n unread && leb n (length out.old))) (take_front store.old r unread n) store.old }
    ensures given { out.new ≡ cond (in_row (length store.old) r unread && (leb n unread && leb n (length out.old))) (written (front_of store.old r n) out.old) out.old }
{
    if in_row(store.len(), r, unread) & ((n <= unread) & (n <= out.len())) {
        parts::take(store, r, unread, n, out);
    }
}
