// The link for C. Each function reads the endpoint from the lent numbers, makes the call, and puts the later endpoint back.
// Numbers that are no endpoint are refused by the call itself, as an endpoint that breaks the row rules, and are not written.
// `whole` goes beside the numbers, since they are tested once for a call and the call may lend them on; the three lines of each call stay
// as they are, since a closure for the call would have to say in a clause of its own what each call promises.
#![tactic(auto)]

ghost use Rattle.std.specs.Prelude.{◌≡◌, cond, eqb};
ghost use Rattle.link_rows.specs.Limits.{store_length};
ghost use Rattle.link_rows.specs.Replies.{number_of};
ghost use Rattle.link_calls.specs.Calls.{opening, closing, requesting, transmitting, reading};
ghost use Rattle.link_receive.specs.Receive.{receiving};
ghost use Rattle.link_receive.specs.Run.{running};
ghost use Rattle.boundary_link.specs.Mirror.{is_endpoint, endpoint_in, numbers_after};
ghost use Rattle.boundary_link.specs.Promise.{Leaves, Opens, Receives, Runs, Makes};

use link_calls::{close, make, open, read, request, transmit};
use link_receive::{receive, run};
use link_rows::{Endpoint, Record, Refusal, Reply, number, reported};

mod mirror;

use mirror::{NUMBERS, is_endpoint, load, put, save};

// Why nothing is made where there are not 163 numbers: the store's length before the endpoint, as in every call.
fn unmade(store_len: usize) -> u64
    ensures { result ≡ cond (eqb store_len store_length) 3 2 }
{
    if store_len == Record::STORE_LENGTH {
        3
    } else {
        2
    }
}

// Keeps the later endpoint, and gives the reply's number.
fn finish(endpoint: &mut [u32], whole: bool, reply: Reply, later: Endpoint) -> u64
    requires { whole ≡ is_endpoint endpoint.old }
    ensures { (result ≡ number_of reply) × (endpoint.new ≡ numbers_after endpoint.old later) }
{
    save(endpoint, whole, later);
    number(reply).into()
}

// A fresh endpoint, over whatever numbers stand there, and its store.
#[unsafe(no_mangle)]
pub extern "C" fn sootlark_make(began: bool, endpoint: &mut [u32], store: &mut [u8]) -> u64
    ensures { Makes began endpoint.old store.old result endpoint.new store.new }
{
    if endpoint.len() != NUMBERS {
        return unmade(store.len());
    }
    let a = make(began, store);
    put(endpoint, a.endpoint);
    number(a.reply).into()
}

// Opens an identifier's row for the next session.
#[unsafe(no_mangle)]
pub extern "C" fn sootlark_open(
    endpoint: &mut [u32],
    store: &mut [u8],
    id: u16,
    out: &mut [u8],
    session: &mut u32,
    written: &mut usize,
) -> u64
    ensures { Opens (opening (endpoint_in endpoint.old) store.old id out.old) endpoint.old result session.new written.new endpoint.new store.new out.new }
{
    let whole = is_endpoint(endpoint);
    let a = open(load(endpoint, whole), store, id, out);
    let done = reported(a.reply);
    *session = done.session;
    *written = done.written;
    finish(endpoint, whole, a.reply, a.endpoint)
}

// Closes a session from our side.
#[unsafe(no_mangle)]
pub extern "C" fn sootlark_close(
    endpoint: &mut [u32],
    store: &mut [u8],
    id: u16,
    session: u32,
    out: &mut [u8],
    written: &mut usize,
) -> u64
    ensures { Leaves (closing (endpoint_in endpoint.old) store.old id session out.old) endpoint.old result written.new endpoint.new store.new out.new }
{
    let whole = is_endpoint(endpoint);
    let a = close(load(endpoint, whole), store, id, session, out);
    *written = reported(a.reply).written;
    finish(endpoint, whole, a.reply, a.endpoint)
}

// Grants the other end more credit.
#[unsafe(no_mangle)]
pub extern "C" fn sootlark_request(
    endpoint: &mut [u32],
    store: &mut [u8],
    id: u16,
    session: u32,
    amount: u32,
    out: &mut [u8],
    written: &mut usize,
) -> u64
    ensures { Leaves (requesting (endpoint_in endpoint.old) store.old id session amount out.old) endpoint.old result written.new endpoint.new store.new out.new }
{
    let whole = is_endpoint(endpoint);
    let a = request(load(endpoint, whole), store, id, session, amount, out);
    *written = reported(a.reply).written;
    finish(endpoint, whole, a.reply, a.endpoint)
}

// Sends bytes of a session.
#[unsafe(no_mangle)]
pub extern "C" fn sootlark_transmit(
    endpoint: &mut [u32],
    store: &mut [u8],
    id: u16,
    session: u32,
    bytes: &[u8],
    out: &mut [u8],
    written: &mut usize,
) -> u64
    ensures { Leaves (transmitting (endpoint_in endpoint.old) store.old id session bytes.now out.old) endpoint.old result written.new endpoint.new store.new out.new }
{
    let whole = is_endpoint(endpoint);
    let a = transmit(load(endpoint, whole), store, id, session, bytes, out);
    *written = reported(a.reply).written;
    finish(endpoint, whole, a.reply, a.endpoint)
}

// Unread bytes of a session.
#[unsafe(no_mangle)]
pub extern "C" fn sootlark_link_read(
    endpoint: &mut [u32],
    store: &mut [u8],
    id: u16,
    session: u32,
    out: &mut [u8],
    written: &mut usize,
) -> u64
    ensures { Leaves (reading (endpoint_in endpoint.old) store.old id session out.old) endpoint.old result written.new endpoint.new store.new out.new }
{
    let whole = is_endpoint(endpoint);
    let a = read(load(endpoint, whole), store, id, session, out);
    *written = reported(a.reply).written;
    finish(endpoint, whole, a.reply, a.endpoint)
}

// One record.
#[unsafe(no_mangle)]
pub extern "C" fn sootlark_receive(
    endpoint: &mut [u32],
    store: &mut [u8],
    bytes: &[u8],
    out: &mut [u8],
    session: &mut u32,
    used: &mut usize,
    written: &mut usize,
) -> u64
    ensures { Receives (receiving (endpoint_in endpoint.old) store.old bytes.now out.old) endpoint.old result session.new used.new written.new endpoint.new store.new out.new }
{
    let whole = is_endpoint(endpoint);
    let a = receive(load(endpoint, whole), store, bytes, out);
    let done = reported(a.reply);
    *session = done.session;
    *used = done.used;
    *written = done.written;
    finish(endpoint, whole, a.reply, a.endpoint)
}

// At most n records.
#[unsafe(no_mangle)]
pub extern "C" fn sootlark_run(
    endpoint: &mut [u32],
    store: &mut [u8],
    n: usize,
    bytes: &[u8],
    out: &mut [u8],
    accepted: &mut usize,
    used: &mut usize,
    written: &mut usize,
) -> u64
    ensures { Runs (running n (endpoint_in endpoint.old) store.old bytes.now out.old) endpoint.old result accepted.new used.new written.new endpoint.new store.new out.new }
{
    let whole = is_endpoint(endpoint);
    let a = run(load(endpoint, whole), store, n, bytes, out);
    *accepted = a.accepted;
    *used = a.used;
    *written = a.written;
    finish(endpoint, whole, a.stop, a.endpoint)
}
