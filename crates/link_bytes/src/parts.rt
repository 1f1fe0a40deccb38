// The work on one row of a whole store, where the row is known to have the bytes.
ghost use Rattle.std.specs.Prelude.{◌≡◌, ◌++◌, ◌+◌, ◌≤◌, ◌<◌, length, take, drop};
ghost use Rattle.link_rows.specs.Limits.{row_count, row_length, store_length};
ghost use Rattle.link_bytes.specs.Records.{written};
ghost use Rattle.link_bytes.specs.Store.{clear_row, queue_data, take_front, front_of, leave, put_at};

use link_rows::Record;

// Bytes onto as many others, one by one: an archive for C with `copy_from_slice` here would need memmove from outside.
pub fn copy(to: &mut [u8], from: &[u8])
    requires { length to.old ≡ length from.now }
    ensures { to.new ≡ from.now }
{
    for i in 0..from.len() {
        to[i] = from[i];
    }
}

// The m bytes from n on come to the front, one by one as above.
fn shift(s: &mut [u8], n: usize, m: usize)
    requires { n + m ≤ length s.old }
    ensures { s.new ≡ take m (drop n s.old) ++ drop m s.old }
{
    for i in 0..m {
        s[i] = s[i + n];
    }
}

pub fn clear(store: &mut [u8], r: usize)
    requires { (length store.old ≡ store_length) × (r < row_count) }
    ensures { store.new ≡ clear_row store.old r }
{
    let start = Record::ROW_LENGTH * r;
    let stop = start + Record::ROW_LENGTH;
    store[start..stop].fill(0);
}

// The bytes stand in the row from a place on.
fn put(row: &mut [u8], at: usize, bytes: &[u8])
    requires { at + length bytes.now ≤ length row.old }
    ensures { row.new ≡ put_at row.old at bytes.now }
{
    copy(&mut row[at..at + bytes.len()], bytes);
}

pub fn queue(store: &mut [u8], r: usize, unread: usize, bytes: &[u8])
    requires { (length store.old ≡ store_length) × ((r < row_count) × (unread + length bytes.now ≤ row_length)) }
    ensures { store.new ≡ queue_data store.old r unread bytes.now }
{
    let at = Record::ROW_LENGTH * r;
    let end = at + Record::ROW_LENGTH;
    put(&mut store[at..end], unread, bytes);
}

// The first n of the unread bytes leave the row.
fn drop_front(row: &mut [u8], unread: usize, n: usize)
    requires { (n ≤ unread) × (unread ≤ length row.old) }
    ensures { row.new ≡ leave row.old unread n }
{
    shift(row, n, unread - n);
    row[unread - n..unread].fill(0);
}

pub fn take(store: &mut [u8], r: usize, unread: usize, n: usize, out: &mut [u8])
    requires { (length store.old ≡ store_length) × ((r < row_count) × ((unread ≤ row_length) × ((n ≤ unread) × (n ≤ length out.old)))) }
    ensures { (store.new ≡ take_front store.old r unread n) × (out.new ≡ written (front_of store.old r n) out.old) }
{
    let at = Record::ROW_LENGTH * r;
    let end = at + Record::ROW_LENGTH;
    copy(&mut out[..n], &store[at..at + n]);
    drop_front(&mut store[at..end], unread, n);
}
