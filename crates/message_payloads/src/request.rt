// What a writer has to know of a request.
ghost use Rattle.std.specs.Prelude.{◌≡◌};
ghost use Rattle.message_layout.specs.Message.{payload};
ghost use Rattle.message_put.specs.Puts.{Put};
ghost use Rattle.message_lent.specs.Requests as lent;
ghost use Rattle.message_lent.specs.Requests.{message, header_of};
ghost use Rattle.message_verdict.specs.Writing.{agreeing, allowing};

use message_put::puts::{put_bytes, put_number};
use wire::Width;

// A message that is lent to be written.
pub trait Request {
    // What it is, by the table.
    ghost request: { Self → lent.Request };

    // Its type.
    fn kind(&self) -> u64
        ensures { result ≡ (request self.now).kind };

    fn correlation(&self) -> &[u8]
        ensures { result.now ≡ (request self.now).correlation };

    // The test of 48: whether its ids are ids, and its lists and its xid agree with themselves.
    fn agrees(&self) -> bool
        ensures { result ≡ agreeing (request self.now) };

    // The test of 45: whether its numbers are allowed.
    fn is_allowed(&self) -> bool
        ensures { result ≡ allowing (request self.now) };

    // Its payload: its fields, one after the other.
    fn put(&self, out: &mut [u8], at: usize) -> usize
        ensures { Put (payload (message (request self.now))) out.old at out.new result };
}

// The header: type, correlation and the payload's size.
pub fn put_header(out: &mut [u8], kind: u64, correlation: &[u8], size: usize) -> usize
    ensures { Put (header_of kind correlation.now size) out.old 0 out.new result }
{
    let p = put_number(out, 0, Width::U64, kind);
    let p = put_bytes(out, p, correlation);
    put_number(out, p, Width::U64, size as u64)
}
