// An entry's call, and its record in the transcript.
ghost use Rattle.std.specs.Prelude.{◌≡◌, length};
ghost use Rattle.link_bytes.specs.Store.{zeros};
ghost use Rattle.link_history.specs.Calls.{step};
ghost use Rattle.link_script.specs.Script.{call_of, head_bytes, head_in};
ghost use Rattle.link_bytes.specs.Records.{count_bytes, fitted};
ghost use Rattle.link_script.specs.Inner.{Does, did_of, did_run, answer_of, Fits, Performs};

use crate::{Did, Entry, Kind};
use link_bytes::copy;
use link_calls::{close, open, read, request, transmit};
use link_receive::{Ran, receive, run};
use link_rows::{Answer, Endpoint, number, reported};

// What a call other than run reports.
fn single(a: Answer) -> Did
    ensures { result ≡ did_of a }
{
    let done = reported(a.reply);
    Did {
        reply: a.reply,
        accepted: 0,
        used: done.used,
        written: done.written,
        endpoint: a.endpoint,
    }
}

fn several(r: Ran) -> Did
    ensures { result ≡ did_run r }
{
    Did {
        reply: r.stop,
        accepted: r.accepted,
        used: r.used,
        written: r.written,
        endpoint: r.endpoint,
    }
}

// The call itself.
fn call(e: Endpoint, store: &mut [u8], entry: Entry, bytes: &[u8], out: &mut [u8]) -> Did
    ensures { Does (step (record { endpoint = e; store = store.old }) (call_of (head_in 0 entry) bytes.now out.old)) result store.new out.new }
{
    match entry.kind {
        Kind::Open => single(open(e, store, entry.id, out)),
        Kind::Close => single(close(e, store, entry.id, entry.session, out)),
        Kind::Request => single(request(e, store, entry.id, entry.session, entry.amount, out)),
        Kind::Transmit => single(transmit(e, store, entry.id, entry.session, bytes, out)),
        Kind::Read => single(read(e, store, entry.id, entry.session, out)),
        Kind::Receive => single(receive(e, store, bytes, out)),
        Kind::Run => several(run(e, store, entry.amount as usize, bytes, out)),
    }
}

// The call with its output zeroed first.
fn zeroed(e: Endpoint, store: &mut [u8], entry: Entry, bytes: &[u8], out: &mut [u8]) -> Did
    ensures { Does (step (record { endpoint = e; store = store.old }) (call_of (head_in 0 entry) bytes.now (zeros (length out.old)))) result store.new out.new }
{
    out.fill(0);
    call(e, store, entry, bytes, out)
}

// The four low bytes of a count.
fn count_bytes(n: usize) -> [u8; 4]
    ensures { result ≡ count_bytes n }
{
    let [_, _, _, _, c3, c2, c1, c0] = n.to_be_bytes();
    [c3, c2, c1, c0]
}

// The head of a record.
fn write_head(entry: Entry, d: Did, out: &mut [u8])
    ensures { out.new ≡ fitted (head_bytes (head_in 0 entry) (answer_of d)) out.old }
{
    let [s3, s2, s1, s0] = reported(d.reply).session.to_be_bytes();
    let [a3, a2, a1, a0] = count_bytes(d.accepted);
    let [u3, u2, u1, u0] = count_bytes(d.used);
    let [w3, w2, w1, w0] = count_bytes(d.written);
    let [r1, r0] = entry.room.to_be_bytes();
    let bytes = [
        entry.kind.into(),
        number(d.reply),
        s3,
        s2,
        s1,
        s0,
        a3,
        a2,
        a1,
        a0,
        u3,
        u2,
        u1,
        u0,
        w3,
        w2,
        w1,
        w0,
        r1,
        r0,
    ];
    copy(&bytes, out);
}

// The entry at the front of the bytes: its call, and its record at the front of what is left of the transcript.
pub fn perform(
    e: Endpoint,
    store: &mut [u8],
    entry: Entry,
    bytes: &[u8],
    out: &mut [u8],
) -> Endpoint
    requires { Fits entry bytes.now out.old }
    ensures { Performs (record { endpoint = e; store = store.old }) bytes.now out.old result store.new out.new }
{
    let end = Entry::ENTRY_LENGTH + entry.size as usize;
    let length = Entry::RECORD_LENGTH + entry.room as usize;
    let did = zeroed(
        e,
        store,
        entry,
        &bytes[Entry::ENTRY_LENGTH..end],
        &mut out[Entry::RECORD_LENGTH..length],
    );
    write_head(entry, did, out);
    did.endpoint
}
