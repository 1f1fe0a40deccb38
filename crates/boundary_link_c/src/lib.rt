// The link of include/sootlark.h, as C calls it: each function is that of the library boundary_link of the same name, with the same
// clauses. A crate is a library or an archive for C, so the archive is a crate of its own.
#![tactic(auto)]

ghost use Rattle.link_calls.specs.Calls.{opening, closing, requesting, transmitting, reading};
ghost use Rattle.link_receive.specs.Receive.{receiving};
ghost use Rattle.link_receive.specs.Run.{running};
ghost use Rattle.boundary_link.specs.Mirror.{endpoint_in};
ghost use Rattle.boundary_link.specs.Promise.{Leaves, Opens, Receives, Runs, Makes};

// A fresh endpoint, over whatever numbers stand there, and its store.
#[unsafe(no_mangle)]
pub extern "C" fn sootlark_make(began: bool, endpoint: &mut [u32], store: &mut [u8]) -> u64
    ensures { Makes began endpoint.old store.old result endpoint.new store.new }
{
    boundary_link::sootlark_make(began, endpoint, store)
}

// Opens an identifier's row for the next session.
#[unsafe(no_mangle)]
pub extern "C" fn sootlark_open(
    endpoint: &mut [u32],
    store: &mut [u8],
    id: u16,
    out: &mut [u8],
    session: &mut u32,
    written: &mut usize,
) -> u64
    ensures { Opens (opening (endpoint_in endpoint.old) store.old id out.old) endpoint.old result session.new written.new endpoint.new store.new out.new }
{
    boundary_link::sootlark_open(endpoint, store, id, out, session, written)
}

// Closes a session from our side.
#[unsafe(no_mangle)]
pub extern "C" fn sootlark_close(
    endpoint: &mut [u32],
    store: &mut [u8],
    id: u16,
    session: u32,
    out: &mut [u8],
    written: &mut usize,
) -> u64
    ensures { Leaves (closing (endpoint_in endpoint.old) store.old id session out.old) endpoint.old result written.new endpoint.new store.new out.new }
{
    boundary_link::sootlark_close(endpoint, store, id, session, out, written)
}

// Grants the other end more credit.
#[unsafe(no_mangle)]
pub extern "C" fn sootlark_request(
    endpoint: &mut [u32],
    store: &mut [u8],
    id: u16,
    session: u32,
    amount: u32,
    out: &mut [u8],
    written: &mut usize,
) -> u64
    ensures { Leaves (requesting (endpoint_in endpoint.old) store.old id session amount out.old) endpoint.old result written.new endpoint.new store.new out.new }
{
    boundary_link::sootlark_request(endpoint, store, id, session, amount, out, written)
}

// Sends bytes of a session.
#[unsafe(no_mangle)]
pub extern "C" fn sootlark_transmit(
    endpoint: &mut [u32],
    store: &mut [u8],
    id: u16,
    session: u32,
    bytes: &[u8],
    out: &mut [u8],
    written: &mut usize,
) -> u64
    ensures { Leaves (transmitting (endpoint_in endpoint.old) store.old id session bytes.now out.old) endpoint.old result written.new endpoint.new store.new out.new }
{
    boundary_link::sootlark_transmit(endpoint, store, id, session, bytes, out, written)
}

// Unread bytes of a session.
#[unsafe(no_mangle)]
pub extern "C" fn sootlark_link_read(
    endpoint: &mut [u32],
    store: &mut [u8],
    id: u16,
    session: u32,
    out: &mut [u8],
    written: &mut usize,
) -> u64
    ensures { Leaves (reading (endpoint_in endpoint.old) store.old id session out.old) endpoint.old result written.new endpoint.new store.new out.new }
{
    boundary_link::sootlark_link_read(endpoint, store, id, session, out, written)
}

// One record.
#[unsafe(no_mangle)]
pub extern "C" fn sootlark_receive(
    endpoint: &mut [u32],
    store: &mut [u8],
    bytes: &[u8],
    out: &mut [u8],
    session: &mut u32,
    used: &mut usize,
    written: &mut usize,
) -> u64
    ensures { Receives (receiving (endpoint_in endpoint.old) store.old bytes.now out.old) endpoint.old result session.new used.new written.new endpoint.new store.new out.new }
{
    boundary_link::sootlark_receive(endpoint, store, bytes, out, session, used, written)
}

// At most n records.
#[unsafe(no_mangle)]
pub extern "C" fn sootlark_run(
    endpoint: &mut [u32],
    store: &mut [u8],
    n: usize,
    bytes: &[u8],
    out: &mut [u8],
    accepted: &mut usize,
    used: &mut usize,
    written: &mut usize,
) -> u64
    ensures { Runs (running n (endpoint_in endpoint.old) store.old bytes.now out.old) endpoint.old result accepted.new used.new written.new endpoint.new store.new out.new }
{
    boundary_link::sootlark_run(endpoint, store, n, bytes, out, accepted, used, written)
}
