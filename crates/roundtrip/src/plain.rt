// The types without lists.
use crate::trip::round_trip;
use message_layout::role;
use message_lent::requests::{
    ConnectReply, DisconnectReply, DisconnectRequest, RollbackReply, RollbackRequest, ServiceReply,
};
use message_lent::xid::Xid;
use message_write::write;
use std::io;
use std::io::Write;

const CORRELATION: [u8; 16] = [1; 16];

const EXECUTION: [u8; 16] = [2; 16];

pub fn disconnect_request<W: Write>(writer: &mut W) -> io::Result<()> {
    let request = DisconnectRequest {
        correlation: &CORRELATION,
        execution: &EXECUTION,
    };
    round_trip(writer, &request, |m, out| {
        let again = DisconnectRequest {
            correlation: m.correlation(),
            execution: m.part(role::EXECUTION),
        };
        write(out, m.version, &again)
    })
}

pub fn disconnect_reply<W: Write>(writer: &mut W) -> io::Result<()> {
    let request = DisconnectReply {
        correlation: &CORRELATION,
        execution: &EXECUTION,
    };
    round_trip(writer, &request, |m, out| {
        let again = DisconnectReply {
            correlation: m.correlation(),
            execution: m.part(role::EXECUTION),
        };
        write(out, m.version, &again)
    })
}

pub fn connect_reply<W: Write>(writer: &mut W) -> io::Result<()> {
    let request = ConnectReply {
        correlation: &CORRELATION,
        execution: &EXECUTION,
        domain_id: &[3; 16],
        domain_name: b"ward",
        version: 1003,
    };
    round_trip(writer, &request, |m, out| {
        let again = ConnectReply {
            correlation: m.correlation(),
            execution: m.part(role::EXECUTION),
            domain_id: m.part(role::DOMAIN_ID),
            domain_name: m.part(role::DOMAIN_NAME),
            version: m.number(role::PROTOCOL_VERSION),
        };
        write(out, m.version, &again)
    })
}

pub fn service_reply<W: Write>(writer: &mut W) -> io::Result<()> {
    let request = ServiceReply {
        correlation: &CORRELATION,
        execution: &EXECUTION,
        code_result: u32::MAX,
        code_user: u64::MAX,
        transaction_state: 3,
        buffer_type: b".json/",
        buffer_data: b"{ }",
    };
    round_trip(writer, &request, |m, out| {
        let again = ServiceReply {
            correlation: m.correlation(),
            execution: m.part(role::EXECUTION),
            code_result: m.narrow(role::CODE_RESULT),
            code_user: m.number(role::CODE_USER),
            transaction_state: m.number(role::TRANSACTION_STATE),
            buffer_type: m.part(role::BUFFER_TYPE),
            buffer_data: m.part(role::BUFFER_DATA),
        };
        write(out, m.version, &again)
    })
}

pub fn rollback_request<W: Write>(writer: &mut W, xid: Xid<'_>) -> io::Result<()> {
    let request = RollbackRequest {
        correlation: &CORRELATION,
        execution: &EXECUTION,
        xid,
        resource: 42,
        flags: 6,
    };
    round_trip(writer, &request, |m, out| {
        let again = RollbackRequest {
            correlation: m.correlation(),
            execution: m.part(role::EXECUTION),
            xid: m.xid(),
            resource: m.narrow(role::RESOURCE),
            flags: m.number(role::FLAGS),
        };
        write(out, m.version, &again)
    })
}

pub fn rollback_reply<W: Write>(writer: &mut W, xid: Xid<'_>) -> io::Result<()> {
    let request = RollbackReply {
        correlation: &CORRELATION,
        execution: &EXECUTION,
        xid,
        resource: 42,
        state: 6,
    };
    round_trip(writer, &request, |m, out| {
        let again = RollbackReply {
            correlation: m.correlation(),
            execution: m.part(role::EXECUTION),
            xid: m.xid(),
            resource: m.narrow(role::RESOURCE),
            state: m.narrow(role::STATE),
        };
        write(out, m.version, &again)
    })
}
