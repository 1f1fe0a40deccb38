// Changes of rows and endpoints that several calls share.
#![tactic(auto, unfolding(crate::specs::Changes::opened, crate::specs::Changes::downed))]

ghost use Rattle.std.specs.Prelude.{◌≡◌};
ghost use Rattle.link_changes.specs.Changes.{opened, opened_row, pending_row};

use link_rows::{Endpoint, Record, Row, Status};

mod down;

pub use down::{closed_row, downed};

// A row that is opened, by us or by the other end.
pub fn opened_row(session: u32) -> Row
    ensures { result ≡ opened_row session }
{
    Row {
        status: Status::Open,
        session,
        ..Record::fresh_row()
    }
}

// Row r is opened with the endpoint's next session number.
pub fn opened(e: Endpoint, r: usize) -> Endpoint
    ensures { result ≡ opened e r }
{
    let session = e.next_session();
    Endpoint {
        last: session,
        ..e.with_row(r, opened_row(session))
    }
}

// Our close.
pub fn pending_row(r: Row) -> Row
    ensures { result ≡ pending_row r }
{
    Row {
        status: Status::Pending,
        output: 0,
        unread: 0,
        ..r
    }
}
