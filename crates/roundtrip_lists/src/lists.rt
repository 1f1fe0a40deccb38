// The types with lists, each of n elements: element i has strings of (i + 1) % 3 bytes.
use crate::gather::{Joined, Numbers};
use crate::report::report;
use message_fields::{correlation, part};
use message_layout::role;
use message_lent::columns::{Domains, Messages, Queues, Services};
use message_lent::requests::{
    ConnectRequest, DequeueReply, DiscoveryReply, DiscoveryRequest, TopologyUpdate,
};
use message_lent::strings::Strings;
use message_verdict::{Written, part_written};
use message_write::write;
use roundtrip_report::bytes;
use std::io;
use std::io::Write;
use wire::values::part_at;

// The lengths of five strings; they sum to 1 for the first and 6 for all.
const LENGTHS: [u64; 5] = [1, 2, 0, 1, 2];

const NUMBERS: [u64; 5] = [0, 18446744073709551615, 7, 1, 90000000000];

const MODES: [u64; 5] = [0, 1, 2, 3, 0];

const FLAGS: [u64; 5] = [1, 0, 1, 0, 1];

// The first n numbers, or as many as there are.
fn first<'a>(numbers: &'a [u64], n: usize) -> &'a [u64] {
    &numbers[..n.min(numbers.len())]
}

// The first n strings.
fn strings<'a>(lengths: &'a [u64], run: &'a [u8], n: usize) -> Strings<'a> {
    let size = match n {
        0 => 0,
        1 => 1,
        _ => 6,
    };
    Strings {
        lengths: first(lengths, n),
        run: part_at(run, 0, size),
    }
}

// The ids of n elements.
fn ids_of<'a>(ids: &'a [u8], n: usize) -> &'a [u8] {
    let size = match n {
        0 => 0,
        1 => 16,
        _ => 80,
    };
    part_at(ids, 0, size)
}

pub fn connect_request<W: Write>(writer: &mut W, n: usize) -> io::Result<()> {
    let mut out = [170u8; 512];
    let mut again = [170u8; 512];
    let a = write(
        &mut out,
        1004,
        &ConnectRequest {
            correlation: &[1u8; 16],
            execution: &[2u8; 16],
            domain_id: &[3u8; 16],
            domain_name: b"ward",
            versions: first(&NUMBERS, n),
        },
    );
    let m = part_written(&out, a);
    let b = connect_request_again(m, &mut again);
    report(writer, 7200, n as u64, a, m, 1004, part_written(&again, b))
}

// Writes what was read of it.
fn connect_request_again(m: &[u8], out: &mut [u8]) -> Written {
    let versions = Numbers::of(m, 1004, role::PROTOCOL_VERSIONS, role::OFFERED);
    write(
        out,
        1004,
        &ConnectRequest {
            correlation: bytes(correlation(m, 1004)),
            execution: bytes(part(m, 1004, role::EXECUTION)),
            domain_id: bytes(part(m, 1004, role::DOMAIN_ID)),
            domain_name: bytes(part(m, 1004, role::DOMAIN_NAME)),
            versions: versions.lent(),
        },
    )
}

pub fn discovery_request<W: Write>(writer: &mut W, n: usize) -> io::Result<()> {
    let run = [120u8; 6];
    let names = strings(&LENGTHS, &run, n);
    let mut out = [170u8; 512];
    let mut again = [170u8; 512];
    let a = write(
        &mut out,
        1004,
        &DiscoveryRequest {
            correlation: &[1u8; 16],
            execution: &[2u8; 16],
            domain_id: &[3u8; 16],
            domain_name: b"ward",
            services: names,
            queues: names,
        },
    );
    let m = part_written(&out, a);
    let b = discovery_request_again(m, &mut again);
    report(writer, 7300, n as u64, a, m, 1004, part_written(&again, b))
}

// Writes what was read of it.
fn discovery_request_again(m: &[u8], out: &mut [u8]) -> Written {
    discovery_request_of(
        m,
        &Joined::of(m, 1004, role::SERVICES, role::NAME),
        &Joined::of(m, 1004, role::QUEUES, role::NAME),
        out,
    )
}

fn discovery_request_of<'a>(
    m: &'a [u8],
    services: &'a Joined,
    queues: &'a Joined,
    out: &mut [u8],
) -> Written {
    let services = services.lent();
    let queues = queues.lent();
    write(
        out,
        1004,
        &DiscoveryRequest {
            correlation: bytes(correlation(m, 1004)),
            execution: bytes(part(m, 1004, role::EXECUTION)),
            domain_id: bytes(part(m, 1004, role::DOMAIN_ID)),
            domain_name: bytes(part(m, 1004, role::DOMAIN_NAME)),
            services,
            queues,
        },
    )
}

pub fn topology_update<W: Write>(writer: &mut W, n: usize) -> io::Result<()> {
    let run = [120u8; 6];
    let ids = [5u8; 80];
    let names = strings(&LENGTHS, &run, n);
    let domains = Domains {
        ids: ids_of(&ids, n),
        names,
    };
    let mut out = [170u8; 512];
    let mut again = [170u8; 512];
    let a = write(
        &mut out,
        1004,
        &TopologyUpdate {
            correlation: &[1u8; 16],
            execution: &[2u8; 16],
            domains,
        },
    );
    let m = part_written(&out, a);
    let b = topology_update_again(m, &mut again);
    report(writer, 7302, n as u64, a, m, 1004, part_written(&again, b))
}

// Writes what was read of it.
fn topology_update_again(m: &[u8], out: &mut [u8]) -> Written {
    topology_update_of(
        m,
        &Joined::of(m, 1004, role::DOMAINS, role::ID),
        &Joined::of(m, 1004, role::DOMAINS, role::NAME),
        out,
    )
}

fn topology_update_of<'a>(
    m: &'a [u8],
    ids: &'a Joined,
    names: &'a Joined,
    out: &mut [u8],
) -> Written {
    let names = names.lent();
    let domains = Domains {
        ids: ids.ids(),
        names,
    };
    write(
        out,
        1004,
        &TopologyUpdate {
            correlation: bytes(correlation(m, 1004)),
            execution: bytes(part(m, 1004, role::EXECUTION)),
            domains,
        },
    )
}

pub fn discovery_reply<W: Write>(writer: &mut W, n: usize) -> io::Result<()> {
    let run = [120u8; 6];
    let names = strings(&LENGTHS, &run, n);
    let numbers = first(&NUMBERS, n);
    let flags = first(&FLAGS, n);
    let services = Services {
        names,
        categories: names,
        modes: first(&MODES, n),
        timeouts: numbers,
        hops: numbers,
    };
    let queues = Queues {
        names,
        counts: numbers,
        delays: numbers,
        enqueues: flags,
        dequeues: flags,
    };
    let mut out = [170u8; 512];
    let mut again = [170u8; 512];
    let a = write(
        &mut out,
        1004,
        &DiscoveryReply {
            correlation: &[1u8; 16],
            execution: &[2u8; 16],
            domain_id: &[3u8; 16],
            domain_name: b"ward",
            services,
            queues,
        },
    );
    let m = part_written(&out, a);
    let b = discovery_reply_again(m, &mut again);
    report(writer, 7311, n as u64, a, m, 1004, part_written(&again, b))
}

// Writes what was read of it.
fn discovery_reply_again(m: &[u8], out: &mut [u8]) -> Written {
    discovery_reply_of(m, &ReadServices::of(m), &ReadQueues::of(m), out)
}

// The services of a 7311.
#[derive(Clone, Copy, Debug)]
struct ReadServices {
    names: Joined,
    categories: Joined,
    modes: Numbers,
    timeouts: Numbers,
    hops: Numbers,
}

impl ReadServices {
    fn of(m: &[u8]) -> ReadServices {
        ReadServices {
            names: Joined::of(m, 1004, role::SERVICES, role::NAME),
            categories: Joined::of(m, 1004, role::SERVICES, role::CATEGORY),
            modes: Numbers::of(m, 1004, role::SERVICES, role::TRANSACTION),
            timeouts: Numbers::of(m, 1004, role::SERVICES, role::TIMEOUT),
            hops: Numbers::of(m, 1004, role::SERVICES, role::HOPS),
        }
    }

    fn lent<'a>(&'a self) -> Services<'a> {
        let names = self.names.lent();
        let categories = self.categories.lent();
        Services {
            names,
            categories,
            modes: self.modes.lent(),
            timeouts: self.timeouts.lent(),
            hops: self.hops.lent(),
        }
    }
}

// The queues of a 7311.
#[derive(Clone, Copy, Debug)]
struct ReadQueues {
    names: Joined,
    counts: Numbers,
    delays: Numbers,
    enqueues: Numbers,
    dequeues: Numbers,
}

impl ReadQueues {
    fn of(m: &[u8]) -> ReadQueues {
        ReadQueues {
            names: Joined::of(m, 1004, role::QUEUES, role::NAME),
            counts: Numbers::of(m, 1004, role::QUEUES, role::RETRY_COUNT),
            delays: Numbers::of(m, 1004, role::QUEUES, role::RETRY_DELAY),
            enqueues: Numbers::of(m, 1004, role::QUEUES, role::ENQUEUE),
            dequeues: Numbers::of(m, 1004, role::QUEUES, role::DEQUEUE),
        }
    }

    fn lent<'a>(&'a self) -> Queues<'a> {
        let names = self.names.lent();
        Queues {
            names,
            counts: self.counts.lent(),
            delays: self.delays.lent(),
            enqueues: self.enqueues.lent(),
            dequeues: self.dequeues.lent(),
        }
    }
}

fn discovery_reply_of<'a>(
    m: &'a [u8],
    services: &'a ReadServices,
    queues: &'a ReadQueues,
    out: &mut [u8],
) -> Written {
    let services = services.lent();
    let queues = queues.lent();
    write(
        out,
        1004,
        &DiscoveryReply {
            correlation: bytes(correlation(m, 1004)),
            execution: bytes(part(m, 1004, role::EXECUTION)),
            domain_id: bytes(part(m, 1004, role::DOMAIN_ID)),
            domain_name: bytes(part(m, 1004, role::DOMAIN_NAME)),
            services,
            queues,
        },
    )
}

pub fn dequeue_reply<W: Write>(writer: &mut W, n: usize) -> io::Result<()> {
    let run = [120u8; 6];
    let ids = [5u8; 80];
    let strings = strings(&LENGTHS, &run, n);
    let numbers = first(&NUMBERS, n);
    let messages = Messages {
        ids: ids_of(&ids, n),
        properties: strings,
        replies: strings,
        availables: numbers,
        types: strings,
        contents: strings,
        redelivereds: numbers,
        timestamps: numbers,
    };
    let mut out = [170u8; 512];
    let mut again = [170u8; 512];
    let a = write(
        &mut out,
        1002,
        &DequeueReply {
            correlation: &[1u8; 16],
            execution: &[2u8; 16],
            messages,
        },
    );
    let m = part_written(&out, a);
    let b = dequeue_reply_again(m, &mut again);
    report(writer, 6201, n as u64, a, m, 1002, part_written(&again, b))
}

// Writes what was read of it.
fn dequeue_reply_again(m: &[u8], out: &mut [u8]) -> Written {
    dequeue_reply_of(m, &ReadMessages::of(m), out)
}

// The messages of a 6201.
#[derive(Clone, Copy, Debug)]
struct ReadMessages {
    ids: Joined,
    properties: Joined,
    replies: Joined,
    availables: Numbers,
    types: Joined,
    contents: Joined,
    redelivereds: Numbers,
    timestamps: Numbers,
}

impl ReadMessages {
    fn of(m: &[u8]) -> ReadMessages {
        ReadMessages {
            ids: Joined::of(m, 1002, role::MESSAGES, role::ID),
            properties: Joined::of(m, 1002, role::MESSAGES, role::PROPERTIES),
            replies: Joined::of(m, 1002, role::MESSAGES, role::REPLY_QUEUE),
            availables: Numbers::of(m, 1002, role::MESSAGES, role::AVAILABLE),
            types: Joined::of(m, 1002, role::MESSAGES, role::DATA_TYPE),
            contents: Joined::of(m, 1002, role::MESSAGES, role::DATA),
            redelivereds: Numbers::of(m, 1002, role::MESSAGES, role::REDELIVERED),
            timestamps: Numbers::of(m, 1002, role::MESSAGES, role::TIMESTAMP),
        }
    }

    fn lent<'a>(&'a self) -> Messages<'a> {
        let properties = self.properties.lent();
        let replies = self.replies.lent();
        let types = self.types.lent();
        let contents = self.contents.lent();
        Messages {
            ids: self.ids.ids(),
            properties,
            replies,
            availables: self.availables.lent(),
            types,
            contents,
            redelivereds: self.redelivereds.lent(),
            timestamps: self.timestamps.lent(),
        }
    }
}

fn dequeue_reply_of<'a>(m: &'a [u8], messages: &'a ReadMessages, out: &mut [u8]) -> Written {
    let messages = messages.lent();
    write(
        out,
        1002,
        &DequeueReply {
            correlation: bytes(correlation(m, 1002)),
            execution: bytes(part(m, 1002, role::EXECUTION)),
            messages,
        },
    )
}
