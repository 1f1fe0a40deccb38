// Writes each message into a fresh output, reads back the part that was handed back, and prints a line for each:
// `T answer N used U read N type T used U after K`, where K is how many bytes after the message changed.
#![tactic(auto)]

use message_lent::columns::{Domains, Messages, Queues, Services};
use message_lent::requests::{
    ConnectReply, ConnectRequest, DequeueReply, DisconnectReply, DisconnectRequest, DiscoveryReply,
    DiscoveryRequest, RollbackReply, RollbackRequest, ServiceReply, TopologyUpdate,
};
use message_lent::strings::Strings;
use message_lent::xid::Xid;
use message_payloads::request::Request;
use message_read::read;
use message_verdict::part_written;
use message_write::write;
use std::io;
use std::io::Write;

// What an output holds before it is written.
const BEFORE: u8 = 0xee;

fn main(rt: HostRuntime) -> io::Result<()> {
    let mut writer = rt.stdout();
    disconnects(&mut writer)?;
    connects(&mut writer)?;
    replies(&mut writer)?;
    rollbacks(&mut writer)?;
    discoveries(&mut writer)?;
    updates(&mut writer)?;
    discovered(&mut writer)?;
    dequeues(&mut writer)?;
    largest(&mut writer)
}

// 7202 and 7203, at a version that has them, and at one that does not or is not served.
fn disconnects<W: Write>(writer: &mut W) -> io::Result<()> {
    disconnect_request(writer, 1001)?;
    disconnect_request(writer, 1000)?;
    disconnect_reply(writer, 1004)?;
    disconnect_reply(writer, 1005)
}

fn disconnect_request<W: Write>(writer: &mut W, version: u64) -> io::Result<()> {
    let id = [0x11u8; 16];
    case(
        writer,
        version,
        &DisconnectRequest {
            correlation: &id,
            execution: &id,
        },
    )
}

fn disconnect_reply<W: Write>(writer: &mut W, version: u64) -> io::Result<()> {
    let id = [0x11u8; 16];
    case(
        writer,
        version,
        &DisconnectReply {
            correlation: &id,
            execution: &id,
        },
    )
}

// 7200 with no version, one and three, and with an id of 3 bytes; 7201.
fn connects<W: Write>(writer: &mut W) -> io::Result<()> {
    let id = [0x22u8; 16];
    let one = [1005u64; 1];
    let three = [1003u64; 3];
    connect_request(writer, &id, &three[..0])?;
    connect_request(writer, &id, &one)?;
    connect_request(writer, &id, &three)?;
    connect_request(writer, b"abc", &three)?;
    connect_reply(writer, 1004)?;
    connect_reply(writer, 1005)
}

fn connect_request<W: Write>(writer: &mut W, id: &[u8], versions: &[u64]) -> io::Result<()> {
    let e = [0x11u8; 16];
    case(
        writer,
        1000,
        &ConnectRequest {
            correlation: &e,
            execution: &e,
            domain_id: id,
            domain_name: b"abc",
            versions,
        },
    )
}

fn connect_reply<W: Write>(writer: &mut W, chosen: u64) -> io::Result<()> {
    let id = [0x11u8; 16];
    case(
        writer,
        1000,
        &ConnectReply {
            correlation: &id,
            execution: &id,
            domain_id: &id,
            domain_name: b"abc",
            version: chosen,
        },
    )
}

// 3103, and with a state of 256.
fn replies<W: Write>(writer: &mut W) -> io::Result<()> {
    service_reply(writer, 3)?;
    service_reply(writer, 256)
}

fn service_reply<W: Write>(writer: &mut W, state: u64) -> io::Result<()> {
    let id = [0x11u8; 16];
    case(
        writer,
        1003,
        &ServiceReply {
            correlation: &id,
            execution: &id,
            code_result: 7,
            code_user: 8,
            transaction_state: state,
            buffer_type: b"abc",
            buffer_data: b"defgh",
        },
    )
}

// 5205 and 5206: formatID 0; lengths 2 and 3; 64 and 64; 65 and 0, and 0 and 65, with their bytes; 65 and 0 with 64 bytes; formatID 0
// with lengths and data.
fn rollbacks<W: Write>(writer: &mut W) -> io::Result<()> {
    let long = [0x33u8; 128];
    rollback_request(writer, 0, 0, 0, b"")?;
    rollback_request(writer, 1, 2, 3, b"abcde")?;
    rollback_request(writer, 1, 64, 64, &long)?;
    rollback_request(writer, 1, 65, 0, &long[..65])?;
    rollback_request(writer, 1, 0, 65, &long[..65])?;
    rollback_request(writer, 1, 65, 0, &long[..64])?;
    rollback_request(writer, 0, 2, 3, b"abcde")?;
    rollback_reply(writer, 0, 0)?;
    rollback_reply(writer, 1, 0x8000_0000_0000_0000)
}

fn rollback_request<W: Write>(
    writer: &mut W,
    format: u64,
    gtrid: u64,
    bqual: u64,
    content: &[u8],
) -> io::Result<()> {
    let id = [0x11u8; 16];
    let xid = Xid {
        format,
        gtrid,
        bqual,
        content,
    };
    case(
        writer,
        1000,
        &RollbackRequest {
            correlation: &id,
            execution: &id,
            xid,
            resource: 9,
            flags: 10,
        },
    )
}

// Two lengths whose sum wraps to 0, or 0 and 0.
fn rollback_reply<W: Write>(writer: &mut W, format: u64, half: u64) -> io::Result<()> {
    let id = [0x11u8; 16];
    let xid = Xid {
        format,
        gtrid: half,
        bqual: half,
        content: b"",
    };
    case(
        writer,
        1004,
        &RollbackReply {
            correlation: &id,
            execution: &id,
            xid,
            resource: 9,
            state: 10,
        },
    )
}

// 7300: no names; a service; three services and two queues; a run one byte too long.
fn discoveries<W: Write>(writer: &mut W) -> io::Result<()> {
    let none = [0u64; 0];
    let one = [1u64; 1];
    let two = [2u64; 2];
    let three = [2u64; 3];
    discovery_request(writer, &none, b"", &none, b"")?;
    discovery_request(writer, &one, b"s", &none, b"")?;
    discovery_request(writer, &three, b"aabbcc", &two, b"ddee")?;
    discovery_request(writer, &three, b"aabbccx", &two, b"ddee")
}

fn discovery_request<W: Write>(
    writer: &mut W,
    lengths: &[u64],
    services: &[u8],
    queue_lengths: &[u64],
    queues: &[u8],
) -> io::Result<()> {
    let id = [0x11u8; 16];
    let services = Strings {
        lengths,
        run: services,
    };
    let queues = Strings {
        lengths: queue_lengths,
        run: queues,
    };
    case(
        writer,
        1000,
        &DiscoveryRequest {
            correlation: &id,
            execution: &id,
            domain_id: &id,
            domain_name: b"abc",
            services,
            queues,
        },
    )
}

// 7302: no domain, one, two; ids one byte short; lengths that wrap to 0.
fn updates<W: Write>(writer: &mut W) -> io::Result<()> {
    let ids = [0x22u8; 32];
    let two = [3u64; 2];
    let wrap = [0x8000_0000_0000_0000u64; 2];
    topology_update(writer, &ids[..0], &two[..0], b"")?;
    topology_update(writer, &ids[..16], &two[..1], b"abc")?;
    topology_update(writer, &ids, &two, b"abcdef")?;
    topology_update(writer, &ids[..31], &two, b"abcdef")?;
    topology_update(writer, &ids, &wrap, b"")
}

fn topology_update<W: Write>(
    writer: &mut W,
    ids: &[u8],
    lengths: &[u64],
    names: &[u8],
) -> io::Result<()> {
    let id = [0x11u8; 16];
    let names = Strings {
        lengths,
        run: names,
    };
    let domains = Domains { ids, names };
    case(
        writer,
        1002,
        &TopologyUpdate {
            correlation: &id,
            execution: &id,
            domains,
        },
    )
}

// 7311: nothing; a service; two services and two queues; a mode of 65,536.
fn discovered<W: Write>(writer: &mut W) -> io::Result<()> {
    let none = [0u64; 0];
    let one = [1u64; 1];
    let two = [1u64; 2];
    let mode = [65536u64; 1];
    discovery_reply(writer, &none, b"", &none, &none, b"")?;
    discovery_reply(writer, &one, b"s", &one, &none, b"")?;
    discovery_reply(writer, &two, b"st", &two, &two, b"qr")?;
    discovery_reply(writer, &one, b"s", &mode, &none, b"")
}

// Each service has its name as its category too, and the numbers 1.
fn discovery_reply<W: Write>(
    writer: &mut W,
    lengths: &[u64],
    names: &[u8],
    modes: &[u64],
    ones: &[u64],
    queues: &[u8],
) -> io::Result<()> {
    let id = [0x11u8; 16];
    let names = Strings {
        lengths,
        run: names,
    };
    let services = Services {
        names,
        categories: names,
        modes,
        timeouts: lengths,
        hops: lengths,
    };
    let queue_names = Strings {
        lengths: ones,
        run: queues,
    };
    let queues = Queues {
        names: queue_names,
        counts: ones,
        delays: ones,
        enqueues: ones,
        dequeues: ones,
    };
    case(
        writer,
        1004,
        &DiscoveryReply {
            correlation: &id,
            execution: &id,
            domain_id: &id,
            domain_name: b"abc",
            services,
            queues,
        },
    )
}

// 6201: no message, one, two.
fn dequeues<W: Write>(writer: &mut W) -> io::Result<()> {
    let ids = [0x22u8; 32];
    let ones = [1u64; 2];
    dequeue_reply(writer, &ids[..0], &ones[..0], b"")?;
    dequeue_reply(writer, &ids[..16], &ones[..1], b"p")?;
    dequeue_reply(writer, &ids, &ones, b"pp")
}

// The four strings of a message are the same, and its numbers 1.
fn dequeue_reply<W: Write>(
    writer: &mut W,
    ids: &[u8],
    ones: &[u64],
    strings: &[u8],
) -> io::Result<()> {
    let id = [0x11u8; 16];
    let strings = Strings {
        lengths: ones,
        run: strings,
    };
    let messages = Messages {
        ids,
        properties: strings,
        replies: strings,
        availables: ones,
        types: strings,
        contents: strings,
        redelivereds: ones,
        timestamps: ones,
    };
    case(
        writer,
        1002,
        &DequeueReply {
            correlation: &id,
            execution: &id,
            messages,
        },
    )
}

// 3103 of 65,536 bytes, and one byte more; a 7202 into an output one byte too short.
fn largest<W: Write>(writer: &mut W) -> io::Result<()> {
    let over = [0x44u8; 65457];
    large_reply(writer, &over[..65456])?;
    large_reply(writer, &over)?;
    short_output(writer)
}

fn large_reply<W: Write>(writer: &mut W, content: &[u8]) -> io::Result<()> {
    let mut out = [BEFORE; 65600];
    let id = [0x11u8; 16];
    show(
        writer,
        &mut out,
        1004,
        &ServiceReply {
            correlation: &id,
            execution: &id,
            code_result: 7,
            code_user: 8,
            transaction_state: 0,
            buffer_type: b"abc",
            buffer_data: content,
        },
    )
}

fn short_output<W: Write>(writer: &mut W) -> io::Result<()> {
    let mut out = [BEFORE; 47];
    let id = [0x11u8; 16];
    show(
        writer,
        &mut out,
        1004,
        &DisconnectRequest {
            correlation: &id,
            execution: &id,
        },
    )
}

// A case with an output of 512 bytes.
fn case<W: Write, R: Request>(writer: &mut W, version: u64, request: &R) -> io::Result<()> {
    let mut out = [BEFORE; 512];
    show(writer, &mut out, version, request)
}

// Writes a message, and the line of what came of it.
fn show<W: Write, R: Request>(
    writer: &mut W,
    out: &mut [u8],
    version: u64,
    request: &R,
) -> io::Result<()> {
    let kind = request.kind();
    let answer = write(out, version, request);
    let (number, used) = match answer {
        Ok(used) => (0u64, used),
        Err(fault) => (fault.into(), 0),
    };
    write!(writer, "{kind} answer {number} used {used}")?;
    match read(part_written(out, answer), version) {
        Ok(accepted) => {
            write!(
                writer,
                " read 0 type {} used {}",
                accepted.kind, accepted.used
            )?;
        }
        Err(refused) => {
            let number: u64 = refused.fault.into();
            write!(writer, " read {number} used 0")?;
        }
    }
    let after = changed(out, used);
    writeln!(writer, " after {after}")
}

// How many bytes from a place on are not as they were before.
fn changed(out: &[u8], from: usize) -> usize {
    let mut n: usize = 0;
    for &byte in &out[from.min(out.len())..] {
        if byte != BEFORE {
            n = n.saturating_add(1);
        }
    }
    n
}
