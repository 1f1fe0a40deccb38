// The test of the row rules. It gathers the session numbers into one array and returns late: a fast loop over 32 rows, with no branch.
ghost use Rattle.std.specs.Prelude.{◌≡◌, not, map, eqb};
ghost use Rattle.link_rows.specs.Rules.{every, distinct, session, row_keeps, Rules};

use crate::{Endpoint, Record, Row, Status};

// A row keeps the rules that speak of one row.
#[tactic(auto, unfolding(crate::specs::Rules::row_keeps))]
pub fn row_keeps(last: u32, down: bool, r: Row) -> bool
    ensures { result ≡ row_keeps last down r }
{
    let closed = r.status == Status::Closed;
    let open = r.status == Status::Open;
    let pending = r.status == Status::Pending;
    let held = (r.unread as usize) + (r.input as usize);
    (held <= Record::ROW_LENGTH)
        & ((open | (r.output == 0))
            & ((r.output <= Record::MOST_CREDIT)
                & ((!closed | (r.input == 0))
                    & ((!pending | (r.unread == 0))
                        & ((closed | (r.session != 0))
                            & (((r.session != 0) | (r.unread == 0))
                                & ((r.session <= last) & (!down | closed))))))))
}

fn none_is(ids: &[u32], s: u32) -> bool
    ensures { result ≡ every (λ y. not (eqb y s)) ids.now }
{
    let mut ok = true;
    for &y in ids {
        ok = ok & (y != s);
    }
    ok
}

fn all_differ(ids: &[u32]) -> bool
    ensures { result ≡ distinct ids.now }
{
    let mut ok = true;
    for i in 0..ids.len() {
        let s = ids[i];
        ok = ok & ((s == 0) | none_is(&ids[i + 1..], s));
    }
    ok
}

// A loop, since rows.map(|r| r.session) copies the rows first: a fifth more instructions for the whole test.
fn sessions(rows: [Row; 32]) -> [u32; 32]
    ensures { result ≡ map session rows }
{
    let mut ids = [0; 32];
    for i in 0..Record::ROWS {
        ids[i] = rows[i].session;
    }
    ids
}

fn each_keeps(rows: &[Row], last: u32, down: bool) -> bool
    ensures { result ≡ every (row_keeps last down) rows.now }
{
    let mut ok = true;
    for &r in rows {
        ok = ok & row_keeps(last, down, r);
    }
    ok
}

pub fn keeps_rules(e: Endpoint) -> bool
    ensures { result ≡ Rules e }
{
    let ids = sessions(e.rows);
    each_keeps(&e.rows, e.last, e.down) & all_differ(&ids)
}
