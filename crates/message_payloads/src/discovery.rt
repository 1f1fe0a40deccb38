// The requests that tell of services, queues and domains: 7300, 7302 and 7311.
#![tactic(auto, unfolding(message_lent::specs::Requests::discovery_request, message_lent::specs::Requests::topology_update, message_lent::specs::Requests::discovery_reply))]

ghost use Rattle.message_lent.specs.Requests.{discovery_request, topology_update, discovery_reply};

use crate::request::Request;
use message_lent::columns::Columns;
use message_lent::requests::{DiscoveryReply, DiscoveryRequest, TopologyUpdate};
use message_lent::tests::{all_allowed, ids_agree, is_id};
use message_put::lists::put_list;
use message_put::puts::{put_bytes, put_string};
use wire::{Limits, Width};

// 7300.
impl<'a> Request for DiscoveryRequest<'a> {
    ghost request = { discovery_request };

    fn kind(&self) -> u64 {
        7300
    }

    fn correlation(&self) -> &[u8] {
        self.correlation
    }

    fn agrees(&self) -> bool {
        ids_agree(self.correlation, self.execution)
            & is_id(self.domain_id)
            & self.services.agrees()
            & self.queues.agrees()
    }

    fn is_allowed(&self) -> bool {
        true
    }

    fn put(&self, out: &mut [u8], at: usize) -> usize {
        let p = put_bytes(out, at, self.execution);
        let p = put_bytes(out, p, self.domain_id);
        let p = put_string(out, p, self.domain_name);
        let p = put_list(out, p, &self.services);
        put_list(out, p, &self.queues)
    }
}

// 7302.
impl<'a> Request for TopologyUpdate<'a> {
    ghost request = { topology_update };

    fn kind(&self) -> u64 {
        7302
    }

    fn correlation(&self) -> &[u8] {
        self.correlation
    }

    fn agrees(&self) -> bool {
        ids_agree(self.correlation, self.execution) & self.domains.agrees()
    }

    fn is_allowed(&self) -> bool {
        true
    }

    fn put(&self, out: &mut [u8], at: usize) -> usize {
        let p = put_bytes(out, at, self.execution);
        put_list(out, p, &self.domains)
    }
}

// 7311.
impl<'a> Request for DiscoveryReply<'a> {
    ghost request = { discovery_reply };

    fn kind(&self) -> u64 {
        7311
    }

    fn correlation(&self) -> &[u8] {
        self.correlation
    }

    fn agrees(&self) -> bool {
        ids_agree(self.correlation, self.execution)
            & is_id(self.domain_id)
            & self.services.agrees()
            & self.queues.agrees()
    }

    fn is_allowed(&self) -> bool {
        all_allowed(Width::U16, Limits::at_most(3), self.services.modes)
            & all_allowed(Width::U8, Limits::at_most(1), self.queues.enqueues)
            & all_allowed(Width::U8, Limits::at_most(1), self.queues.dequeues)
    }

    fn put(&self, out: &mut [u8], at: usize) -> usize {
        let p = put_bytes(out, at, self.execution);
        let p = put_bytes(out, p, self.domain_id);
        let p = put_string(out, p, self.domain_name);
        let p = put_list(out, p, &self.services);
        put_list(out, p, &self.queues)
    }
}
