//! The printed examples of document 003: each payload decoded from its base64, put behind a header and read, every value compared with
//! the one that 003 prints beside it. Each message is read again with its payload cut short by a byte, and with a byte added.
#![tactic(auto)]

use crate::example::{Example, Tally};
use message_layout::role;
use std::io;
use std::io::Write;
use wire::values::XidNumber;

mod example;

fn main(rt: HostRuntime) -> io::Result<()> {
    let mut writer = rt.stdout();
    let mut total = Tally::default();
    total.add(connect_request(&mut writer)?);
    total.add(connect_reply(&mut writer)?);
    total.add(disconnect_request(&mut writer)?);
    total.add(disconnect_reply(&mut writer)?);
    total.add(discovery_request(&mut writer)?);
    total.add(topology_update(&mut writer)?);
    total.add(discovery_reply(&mut writer)?);
    total.add(service_reply(&mut writer)?);
    total.add(rollback_request(&mut writer)?);
    total.add(rollback_reply(&mut writer)?);
    total.add(dequeue_reply(&mut writer)?);
    let Tally { same, all } = total;
    writeln!(writer, "11 examples, values {same} of {all}")
}

fn connect_request<W: Write>(writer: &mut W) -> io::Result<Tally> {
    let example = Example::new(
        7200,
        1004,
        "cHPL9BRESkGHswCG8UP8YDFdrMYYLkwSv5h376kky4YAAAAAAAAACGRvbWFpbiBBAAAAAAAAAAUAAAAAAAAD7AAAAAAAAAPrAAAAAAAAA+oAAAAAAAAD6QAAAAAAAAPo",
    )?;
    let of = example.message();
    let tally = Tally::of(&[
        of.coded(role::EXECUTION, "cHPL9BRESkGHswCG8UP8YA=="),
        of.coded(role::DOMAIN_ID, "MV2sxhguTBK/mHfvqSTLhg=="),
        of.part(role::DOMAIN_NAME, b"domain A"),
        of.count(role::PROTOCOL_VERSIONS, 5),
        of.element_number(role::PROTOCOL_VERSIONS, 0, role::OFFERED, 1004),
        of.element_number(role::PROTOCOL_VERSIONS, 1, role::OFFERED, 1003),
        of.element_number(role::PROTOCOL_VERSIONS, 2, role::OFFERED, 1002),
        of.element_number(role::PROTOCOL_VERSIONS, 3, role::OFFERED, 1001),
        of.element_number(role::PROTOCOL_VERSIONS, 4, role::OFFERED, 1000),
    ]);
    example.print(writer, tally)
}

fn connect_reply<W: Write>(writer: &mut W) -> io::Result<Tally> {
    let example = Example::new(
        7201,
        1004,
        "cHPL9BRESkGHswCG8UP8YDFdrMYYLkwSv5h376kky4YAAAAAAAAACGRvbWFpbiBBAAAAAAAAA+g=",
    )?;
    let of = example.message();
    let tally = Tally::of(&[
        of.coded(role::EXECUTION, "cHPL9BRESkGHswCG8UP8YA=="),
        of.coded(role::DOMAIN_ID, "MV2sxhguTBK/mHfvqSTLhg=="),
        of.part(role::DOMAIN_NAME, b"domain A"),
        of.number(role::PROTOCOL_VERSION, 1000),
    ]);
    example.print(writer, tally)
}

fn disconnect_request<W: Write>(writer: &mut W) -> io::Result<Tally> {
    let example = Example::new(7202, 1004, "cHPL9BRESkGHswCG8UP8YA==")?;
    let of = example.message();
    let tally = Tally::of(&[of.coded(role::EXECUTION, "cHPL9BRESkGHswCG8UP8YA==")]);
    example.print(writer, tally)
}

fn disconnect_reply<W: Write>(writer: &mut W) -> io::Result<Tally> {
    let example = Example::new(7203, 1004, "cHPL9BRESkGHswCG8UP8YA==")?;
    let of = example.message();
    let tally = Tally::of(&[of.coded(role::EXECUTION, "cHPL9BRESkGHswCG8UP8YA==")]);
    example.print(writer, tally)
}

fn discovery_request<W: Write>(writer: &mut W) -> io::Result<Tally> {
    let example = Example::new(
        7300,
        1004,
        "cHPL9BRESkGHswCG8UP8YDFdrMYYLkwSv5h376kky4YAAAAAAAAACGRvbWFpbiBBAAAAAAAAAAMAAAAAAAAACHNlcnZpY2UxAAAAAAAAAAhzZXJ2aWNlMgAAAAAAAAAIc2VydmljZTMAAAAAAAAAAwAAAAAAAAAGcXVldWUxAAAAAAAAAAZxdWV1ZTIAAAAAAAAABnF1ZXVlMw==",
    )?;
    let of = example.message();
    let tally = Tally::of(&[
        of.coded(role::EXECUTION, "cHPL9BRESkGHswCG8UP8YA=="),
        of.coded(role::DOMAIN_ID, "MV2sxhguTBK/mHfvqSTLhg=="),
        of.part(role::DOMAIN_NAME, b"domain A"),
        of.count(role::SERVICES, 3),
        of.element(role::SERVICES, 0, role::NAME, b"service1"),
        of.element(role::SERVICES, 1, role::NAME, b"service2"),
        of.element(role::SERVICES, 2, role::NAME, b"service3"),
        of.count(role::QUEUES, 3),
        of.element(role::QUEUES, 0, role::NAME, b"queue1"),
        of.element(role::QUEUES, 1, role::NAME, b"queue2"),
        of.element(role::QUEUES, 2, role::NAME, b"queue3"),
    ]);
    example.print(writer, tally)
}

fn topology_update<W: Write>(writer: &mut W) -> io::Result<Tally> {
    let example = Example::new(
        7302,
        1004,
        "cHPL9BRESkGHswCG8UP8YAAAAAAAAAAB4fa3w39zSgmCoKsVgbIfogAAAAAAAAABQg==",
    )?;
    let of = example.message();
    let tally = Tally::of(&[
        of.coded(role::EXECUTION, "cHPL9BRESkGHswCG8UP8YA=="),
        of.count(role::DOMAINS, 1),
        of.coded_element(role::DOMAINS, 0, role::ID, "4fa3w39zSgmCoKsVgbIfog=="),
        of.element(role::DOMAINS, 0, role::NAME, b"B"),
    ]);
    example.print(writer, tally)
}

fn discovery_reply<W: Write>(writer: &mut W) -> io::Result<Tally> {
    let example = Example::new(
        7311,
        1004,
        "cHPL9BRESkGHswCG8UP8YOL2t8N/c0oJgqCrFYGyH6UAAAAAAAAACGRvbWFpbiBCAAAAAAAAAAEAAAAAAAAACHNlcnZpY2UxAAAAAAAAAAdleGFtcGxlAAEAAAAU9GsEAAAAAAAAAAAAAAAAAAAAAAEAAAAAAAAABnF1ZXVlMQAAAAAAAAAKAAAAAAA9CQABAA==",
    )?;
    let of = example.message();
    let tally = Tally::of(&[
        of.coded(role::EXECUTION, "cHPL9BRESkGHswCG8UP8YA=="),
        of.coded(role::DOMAIN_ID, "4va3w39zSgmCoKsVgbIfpQ=="),
        of.part(role::DOMAIN_NAME, b"domain B"),
        of.count(role::SERVICES, 1),
        of.element(role::SERVICES, 0, role::NAME, b"service1"),
        of.element(role::SERVICES, 0, role::CATEGORY, b"example"),
        of.element_number(role::SERVICES, 0, role::TRANSACTION, 1),
        of.element_number(role::SERVICES, 0, role::TIMEOUT, 90000000000),
        of.element_number(role::SERVICES, 0, role::HOPS, 0),
        of.count(role::QUEUES, 1),
        of.element(role::QUEUES, 0, role::NAME, b"queue1"),
        of.element_number(role::QUEUES, 0, role::RETRY_COUNT, 10),
        of.element_number(role::QUEUES, 0, role::RETRY_DELAY, 4000000),
        of.element_number(role::QUEUES, 0, role::ENQUEUE, 1),
        of.element_number(role::QUEUES, 0, role::DEQUEUE, 0),
    ]);
    example.print(writer, tally)
}

fn service_reply<W: Write>(writer: &mut W) -> io::Result<Tally> {
    let example = Example::new(
        3103,
        1004,
        "cHPL9BRESkGHswCG8UP8YAAAAAsAAAAAAAAAKgAAAAAAAAAACC5iaW5hcnkvAAAAAAAAAICAgYKDhIWGh4iJiouMjY6PkJGSk5SVlpeYmZqbnJ2en6ChoqOkpaanqKmqq6ytrq+wsbKztLW2t7i5uru8vb6/wMHCw8TFxsfIycrLzM3Oz9DR0tPU1dbX2Nna29zd3t/g4eLj5OXm5+jp6uvs7e7v8PHy8/T19vf4+fr7/P3+/w==",
    )?;
    let of = example.message();
    let tally = Tally::of(&[
        of.coded(role::EXECUTION, "cHPL9BRESkGHswCG8UP8YA=="),
        of.number(role::CODE_RESULT, 11),
        of.number(role::CODE_USER, 42),
        of.number(role::TRANSACTION_STATE, 0),
        of.part(role::BUFFER_TYPE, b".binary/"),
        of.coded(
            role::BUFFER_DATA,
            "gIGCg4SFhoeIiYqLjI2Oj5CRkpOUlZaXmJmam5ydnp+goaKjpKWmp6ipqqusra6vsLGys7S1tre4ubq7vL2+v8DBwsPExcbHyMnKy8zNzs/Q0dLT1NXW19jZ2tvc3d7f4OHi4+Tl5ufo6err7O3u7/Dx8vP09fb3+Pn6+/z9/v8=",
        ),
    ]);
    example.print(writer, tally)
}

fn rollback_request<W: Write>(writer: &mut W) -> io::Result<Tally> {
    let example = Example::new(
        5205,
        1004,
        "cHPL9BRESkGHswCG8UP8YAAAAAAAAAAqAAAAAAAAABAAAAAAAAAAEFtsG/byS0gNvbze9Uw6CFFbbBv28ktIDb283vVMOghSAAAAKgAAAAAAAAAA",
    )?;
    let of = example.message();
    let tally = Tally::of(&[
        of.coded(role::EXECUTION, "cHPL9BRESkGHswCG8UP8YA=="),
        of.xid(XidNumber::FormatId, 42),
        of.xid(XidNumber::GtridLength, 16),
        of.xid(XidNumber::BqualLength, 16),
        of.coded(role::XID, "W2wb9vJLSA29vN71TDoIUVtsG/byS0gNvbze9Uw6CFI="),
        of.number(role::RESOURCE, 42),
        of.number(role::FLAGS, 0),
    ]);
    example.print(writer, tally)
}

fn rollback_reply<W: Write>(writer: &mut W) -> io::Result<Tally> {
    let example = Example::new(
        5206,
        1004,
        "cHPL9BRESkGHswCG8UP8YAAAAAAAAAAqAAAAAAAAABAAAAAAAAAAEFtsG/byS0gNvbze9Uw6CFFbbBv28ktIDb283vVMOghSAAAAKgAAAAA=",
    )?;
    let of = example.message();
    let tally = Tally::of(&[
        of.coded(role::EXECUTION, "cHPL9BRESkGHswCG8UP8YA=="),
        of.xid(XidNumber::FormatId, 42),
        of.xid(XidNumber::GtridLength, 16),
        of.xid(XidNumber::BqualLength, 16),
        of.coded(role::XID, "W2wb9vJLSA29vN71TDoIUVtsG/byS0gNvbze9Uw6CFI="),
        of.number(role::RESOURCE, 42),
        of.number(role::STATE, 0),
    ]);
    example.print(writer, tally)
}

fn dequeue_reply<W: Write>(writer: &mut W) -> io::Result<Tally> {
    let example = Example::new(
        6201,
        1002,
        "cHPL9BRESkGHswCG8UP8YAAAAAAAAAABUy+LbBV2Tcqf6CowAt5XngAAAAAAAAAVcHJvcGVydHkgMTpwcm9wZXJ0eSAyAAAAAAAAAAZxdWV1ZUIVpWN406nwoAAAAAAAAAAGLmpzb24vAAAAAAAAAAJ7fQAAAAAAAAABFaVjeNOp8KA=",
    )?;
    let of = example.message();
    let tally = Tally::of(&[
        of.coded(role::EXECUTION, "cHPL9BRESkGHswCG8UP8YA=="),
        of.count(role::MESSAGES, 1),
        of.coded_element(role::MESSAGES, 0, role::ID, "Uy+LbBV2Tcqf6CowAt5Xng=="),
        of.element(
            role::MESSAGES,
            0,
            role::PROPERTIES,
            b"property 1:property 2",
        ),
        of.element(role::MESSAGES, 0, role::REPLY_QUEUE, b"queueB"),
        of.element_number(role::MESSAGES, 0, role::AVAILABLE, 1559762216552100000),
        of.element(role::MESSAGES, 0, role::DATA_TYPE, b".json/"),
        of.coded_element(role::MESSAGES, 0, role::DATA, "e30="),
        of.element_number(role::MESSAGES, 0, role::REDELIVERED, 1),
        of.element_number(role::MESSAGES, 0, role::TIMESTAMP, 1559762216552100000),
    ]);
    example.print(writer, tally)
}
