// The requests about services that are called, transactions and messages: 3103, 5205, 5206 and 6201.
#![tactic(auto, unfolding(message_lent::specs::Requests::service_reply, message_lent::specs::Requests::rollback_request, message_lent::specs::Requests::rollback_reply, message_lent::specs::Requests::dequeue_reply))]

ghost use Rattle.message_lent.specs.Requests.{service_reply, rollback_request, rollback_reply, dequeue_reply};

use crate::request::Request;
use message_lent::columns::Columns;
use message_lent::requests::{DequeueReply, RollbackReply, RollbackRequest, ServiceReply};
use message_lent::tests::{ids_agree, number_allowed};
use message_put::lists::put_list;
use message_put::puts::{put_bytes, put_number, put_string, put_xid};
use wire::{Limits, Width};

// 3103.
impl<'a> Request for ServiceReply<'a> {
    ghost request = { service_reply };

    fn kind(&self) -> u64 {
        3103
    }

    fn correlation(&self) -> &[u8] {
        self.correlation
    }

    fn agrees(&self) -> bool {
        ids_agree(self.correlation, self.execution)
    }

    fn is_allowed(&self) -> bool {
        number_allowed(Width::U8, Limits::at_most(3), self.transaction_state)
    }

    fn put(&self, out: &mut [u8], at: usize) -> usize {
        let p = put_bytes(out, at, self.execution);
        let p = put_number(out, p, Width::U32, self.code_result as u64);
        let p = put_number(out, p, Width::U64, self.code_user);
        let p = put_number(out, p, Width::U8, self.transaction_state);
        let p = put_string(out, p, self.buffer_type);
        put_string(out, p, self.buffer_data)
    }
}

// 5205.
impl<'a> Request for RollbackRequest<'a> {
    ghost request = { rollback_request };

    fn kind(&self) -> u64 {
        5205
    }

    fn correlation(&self) -> &[u8] {
        self.correlation
    }

    fn agrees(&self) -> bool {
        ids_agree(self.correlation, self.execution) & self.xid.agrees()
    }

    fn is_allowed(&self) -> bool {
        self.xid.is_allowed()
    }

    fn put(&self, out: &mut [u8], at: usize) -> usize {
        let p = put_bytes(out, at, self.execution);
        let p = put_xid(out, p, &self.xid);
        let p = put_number(out, p, Width::U32, self.resource as u64);
        put_number(out, p, Width::U64, self.flags)
    }
}

// 5206.
impl<'a> Request for RollbackReply<'a> {
    ghost request = { rollback_reply };

    fn kind(&self) -> u64 {
        5206
    }

    fn correlation(&self) -> &[u8] {
        self.correlation
    }

    fn agrees(&self) -> bool {
        ids_agree(self.correlation, self.execution) & self.xid.agrees()
    }

    fn is_allowed(&self) -> bool {
        self.xid.is_allowed()
    }

    fn put(&self, out: &mut [u8], at: usize) -> usize {
        let p = put_bytes(out, at, self.execution);
        let p = put_xid(out, p, &self.xid);
        let p = put_number(out, p, Width::U32, self.resource as u64);
        put_number(out, p, Width::U32, self.state as u64)
    }
}

// 6201.
impl<'a> Request for DequeueReply<'a> {
    ghost request = { dequeue_reply };

    fn kind(&self) -> u64 {
        6201
    }

    fn correlation(&self) -> &[u8] {
        self.correlation
    }

    fn agrees(&self) -> bool {
        ids_agree(self.correlation, self.execution) & self.messages.agrees()
    }

    fn is_allowed(&self) -> bool {
        true
    }

    fn put(&self, out: &mut [u8], at: usize) -> usize {
        let p = put_bytes(out, at, self.execution);
        put_list(out, p, &self.messages)
    }
}
