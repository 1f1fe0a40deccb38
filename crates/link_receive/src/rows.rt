// The later row of a record.
ghost use Rattle.std.specs.Prelude.{◌≡◌, cond, false, ◌&&◌, ◌+◌, ◌≤◌, ltb};
ghost use Rattle.link_rows.specs.Limits.{OPEN, row_length, most_credit};
ghost use Rattle.link_record_replies.specs.Records.{is};
ghost use Rattle.link_rows.specs.Rows.{is_open, next_after};
ghost use Rattle.link_changes.specs.Changes.{credited_row, fed_row, opened_row};
ghost use Rattle.link_receive.specs.Inner.{Fits, Place};
ghost use Rattle.link_receive.specs.Receive.{received_row};

use link_changes::{closed_row, opened_row};
use link_rows::{Record, Row, Status, is_served, next_after, row_of};

// A REQUEST received. On a pending row it has no effect.
fn credited(r: Row, n: u32) -> Row
    requires { (is_open r.status && ltb most_credit (r.output + n)) ≡ false }
    ensures { result ≡ credited_row r n }
{
    if r.status == Status::Open {
        Row {
            output: r.output + n,
            ..r
        }
    } else {
        r
    }
}

// A TRANSMIT received. On a pending row its data is discarded.
fn fed(r: Row, n: u32) -> Row
    requires { (n ≤ r.input) × ((is_open r.status && ltb row_length (r.unread + n)) ≡ false) }
    ensures { result ≡ fed_row r n }
{
    let kept = Row {
        input: r.input - n,
        ..r
    };
    if r.status == Status::Open {
        Row {
            unread: r.unread + n,
            ..kept
        }
    } else {
        kept
    }
}

fn received_row(h: Record, r: Row) -> Row
    requires { Fits r h }
    ensures { result ≡ received_row h r }
{
    match h.opcode {
        Record::REQUEST => credited(r, h.count),
        Record::TRANSMIT => fed(r, h.count),
        _ => closed_row(r),
    }
}

// The last session number after a record that is accepted.
pub fn last_after(h: Record, last: u32) -> u32
    ensures { result ≡ cond (is OPEN h) (next_after last) last }
{
    if h.opcode == Record::OPEN {
        next_after(last)
    } else {
        last
    }
}

// Its row, where an OPEN takes the session number.
pub fn row_after(h: Record, r: Row, session: u32) -> Row
    requires { Fits r h }
    ensures { result ≡ cond (is OPEN h) (opened_row session) (received_row h r) }
{
    if h.opcode == Record::OPEN {
        opened_row(session)
    } else {
        received_row(h, r)
    }
}

// The row of an identifier, and the first one where it has none.
pub fn place(id: u16) -> usize
    ensures { Place id result }
{
    if is_served(id) { row_of(id) } else { 0 }
}
