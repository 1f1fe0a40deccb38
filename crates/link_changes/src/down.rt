// Closing a row, and taking the endpoint down.
ghost use Rattle.std.specs.Prelude.{◌≡◌};
ghost use Rattle.link_changes.specs.Changes.{closed_row, downed};

use link_rows::{Endpoint, Record, Row, Status};

// A CLOSE or CLOSEACK received.
pub fn closed_row(r: Row) -> Row
    ensures { result ≡ closed_row r }
{
    Row {
        status: Status::Closed,
        input: 0,
        output: 0,
        ..r
    }
}

// The endpoint taken down.
pub fn downed(e: Endpoint) -> Endpoint
    ensures { result ≡ downed e }
{
    let mut rows = e.rows;
    for i in 0..Record::ROWS {
        rows[i] = closed_row(e.rows[i]);
    }
    Endpoint {
        down: true,
        rows,
        ..e
    }
}
