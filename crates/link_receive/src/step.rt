// What a reply does to endpoint, store and output.
ghost use Rattle.std.specs.Prelude.{◌≡◌, cond, false, ◌&&◌, ◌+◌, ◌<◌, ◌≤◌, ltb, length, take, drop};
ghost use Rattle.link_rows.specs.Limits.{OPEN, CLOSEACK, TRANSMIT, row_count, row_length, store_length, long_length};
ghost use Rattle.link_rows.specs.Rows.{is_open, row_of};
ghost use Rattle.link_record_replies.specs.Records.{is, is_acked};
ghost use Rattle.link_changes.specs.Outcome.{Leaves};
ghost use Rattle.link_bytes.specs.Records.{data_of, short_record, fitted};
ghost use Rattle.link_bytes.specs.Store.{clear_row, queue_data};
ghost use Rattle.link_receive.specs.Inner.{Fits, Ready};
ghost use Rattle.link_receive.specs.Receive.{receiving};

use crate::rows;
use link_bytes::{clear_row, head, queue_data, write_short};
use link_changes::downed;
use link_record_replies::{Seen, is_acked, seen_reply};
use link_rows::{Endpoint, Record, Reply, Row, Status, is_ours, row_of};

// The first count bytes of the data go behind the row's unread ones.
fn queue(store: &mut [u8], r: usize, unread: u32, bytes: &[u8], count: u32)
    requires { (length store.old ≡ store_length) × ((r < row_count) × ((unread + count ≤ row_length) × (long_length + count ≤ length bytes.now))) }
    ensures { store.new ≡ queue_data store.old r unread (take count (drop long_length bytes.now)) }
{
    let end = Record::LONG_LENGTH + (count as usize);
    queue_data(store, r, unread, &bytes[Record::LONG_LENGTH..end]);
}

// The store after a record that is accepted.
fn stored(row: Row, store: &mut [u8], bytes: &[u8], h: Record)
    requires { (length store.old ≡ store_length) × ((row_of h.id < row_count) × (((is TRANSMIT h && ltb (length bytes.now) (long_length + h.count)) ≡ false) × Fits row h)) }
    ensures { store.new ≡ cond (is OPEN h) (clear_row store.old (row_of h.id)) (cond (is TRANSMIT h && is_open row.status) (queue_data store.old (row_of h.id) row.unread (data_of h bytes.now)) store.old) }
{
    let r = row_of(h.id);
    if h.opcode == Record::OPEN {
        clear_row(store, r);
        return;
    }
    if (h.opcode == Record::TRANSMIT) & (row.status == Status::Open) {
        queue(store, r, row.unread, bytes, h.count);
    }
}

// The output after a record that is accepted.
fn acked(row: Row, h: Record, out: &mut [u8])
    ensures { out.new ≡ cond (is_acked row h) (fitted (short_record CLOSEACK h.id) out.old) out.old }
{
    if is_acked(row, h) {
        write_short(Record::CLOSEACK, h.id, out);
    }
}

// The record at the front of the bytes, where the tests 2, 3 and 4 are known to pass. The endpoint is changed in place: an accepted
// record stores its row, and the last session number.
pub fn step(e: &mut Endpoint, store: &mut [u8], bytes: &[u8], out: &mut [u8]) -> Reply
    requires { Ready e.old store.old }
    ensures { Leaves (receiving e.old store.old bytes.now out.old) (record { reply = result; endpoint = e.new }) store.new out.new }
{
    let h = head(bytes);
    let r = rows::place(h.id);
    let row = e.rows[r];
    let seen = Seen {
        row,
        ours: is_ours(e.began, h.id),
        last: e.last,
    };
    match seen_reply(seen, h, out.len()) {
        Err(why) => {
            if why.takes_down() {
                *e = downed(*e);
            }
            Err(why)
        }
        Ok(done) => {
            let last = rows::last_after(h, e.last);
            e.rows[r] = rows::row_after(h, row, last);
            e.last = last;
            stored(row, store, bytes, h);
            acked(row, h, out);
            Ok(done)
        }
    }
}
