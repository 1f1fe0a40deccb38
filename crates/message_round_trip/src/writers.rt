// The round trip of each request with nothing left to suppose. The statements of specs/Every suppose what the
// types of the arguments say. The functions here have arguments of those types, lend them to the functions of
// types, which prove it of them, and promise the statement alone. They do nothing else.
// The eleven that end in `_back` are lent a request as message_write is, but write nothing: what is answered and
// left is `writing` and `written`, by the contract of `write`, and the promise is about these.
ghost use Rattle.message_lent.specs.Requests.{connect_request, connect_reply, disconnect_request, disconnect_reply, discovery_request, topology_update, discovery_reply, service_reply, rollback_request, rollback_reply, dequeue_reply};
ghost use Rattle.message_round_trip.specs.Back.{ConnectRequestBack, ConnectReplyBack, DisconnectRequestBack, DisconnectReplyBack, DiscoveryRequestBack, TopologyUpdateBack, DiscoveryReplyBack, ServiceReplyBack, RollbackRequestBack, RollbackReplyBack, DequeueReplyBack};
ghost use Rattle.message_round_trip.specs.Every.{BackAt, EveryAgain};

use crate::types::{
    bytes_lent, domain_lent, ids_lent, number_lent, numbers_lent, small_number_lent, strings_lent,
    xid_lent,
};
use message_lent::requests::{
    ConnectReply, ConnectRequest, DequeueReply, DisconnectReply, DisconnectRequest, DiscoveryReply,
    DiscoveryRequest, RollbackReply, RollbackRequest, ServiceReply, TopologyUpdate,
};

// 7200.
pub fn connect_request_back(out: &[u8], version: u64, request: &ConnectRequest)
    ensures { BackAt version 7200 connect_request (ConnectRequestBack version) request.now out.now }
{
    ids_lent(request.correlation, request.execution);
    domain_lent(request.domain_id, request.domain_name);
    numbers_lent(request.versions);
}

// 7201.
pub fn connect_reply_back(out: &[u8], version: u64, request: &ConnectReply)
    ensures { BackAt version 7201 connect_reply (ConnectReplyBack version) request.now out.now }
{
    ids_lent(request.correlation, request.execution);
    domain_lent(request.domain_id, request.domain_name);
    number_lent(request.version);
}

// 7202.
pub fn disconnect_request_back(out: &[u8], version: u64, request: &DisconnectRequest)
    ensures { BackAt version 7202 disconnect_request (DisconnectRequestBack version) request.now out.now }
{
    ids_lent(request.correlation, request.execution);
}

// 7203.
pub fn disconnect_reply_back(out: &[u8], version: u64, request: &DisconnectReply)
    ensures { BackAt version 7203 disconnect_reply (DisconnectReplyBack version) request.now out.now }
{
    ids_lent(request.correlation, request.execution);
}

// 7300.
pub fn discovery_request_back(out: &[u8], version: u64, request: &DiscoveryRequest)
    ensures { BackAt version 7300 discovery_request (DiscoveryRequestBack version) request.now out.now }
{
    ids_lent(request.correlation, request.execution);
    domain_lent(request.domain_id, request.domain_name);
    strings_lent(request.services.lengths, request.services.run);
    strings_lent(request.queues.lengths, request.queues.run);
}

// 7302.
pub fn topology_update_back(out: &[u8], version: u64, request: &TopologyUpdate)
    ensures { BackAt version 7302 topology_update (TopologyUpdateBack version) request.now out.now }
{
    ids_lent(request.correlation, request.execution);
    bytes_lent(request.domains.ids);
    strings_lent(request.domains.names.lengths, request.domains.names.run);
}

// 7311.
pub fn discovery_reply_back(out: &[u8], version: u64, request: &DiscoveryReply)
    ensures { BackAt version 7311 discovery_reply (DiscoveryReplyBack version) request.now out.now }
{
    ids_lent(request.correlation, request.execution);
    domain_lent(request.domain_id, request.domain_name);
    let services = &request.services;
    strings_lent(services.names.lengths, services.names.run);
    strings_lent(services.categories.lengths, services.categories.run);
    numbers_lent(services.modes);
    numbers_lent(services.timeouts);
    numbers_lent(services.hops);
    let queues = &request.queues;
    strings_lent(queues.names.lengths, queues.names.run);
    numbers_lent(queues.counts);
    numbers_lent(queues.delays);
    numbers_lent(queues.enqueues);
    numbers_lent(queues.dequeues);
}

// 3103.
pub fn service_reply_back(out: &[u8], version: u64, request: &ServiceReply)
    ensures { BackAt version 3103 service_reply (ServiceReplyBack version) request.now out.now }
{
    ids_lent(request.correlation, request.execution);
    small_number_lent(request.code_result);
    number_lent(request.code_user);
    number_lent(request.transaction_state);
    bytes_lent(request.buffer_type);
    bytes_lent(request.buffer_data);
}

// 5205.
pub fn rollback_request_back(out: &[u8], version: u64, request: &RollbackRequest)
    ensures { BackAt version 5205 rollback_request (RollbackRequestBack version) request.now out.now }
{
    ids_lent(request.correlation, request.execution);
    xid_lent(
        request.xid.format,
        request.xid.gtrid,
        request.xid.bqual,
        request.xid.content,
    );
    small_number_lent(request.resource);
    number_lent(request.flags);
}

// 5206.
pub fn rollback_reply_back(out: &[u8], version: u64, request: &RollbackReply)
    ensures { BackAt version 5206 rollback_reply (RollbackReplyBack version) request.now out.now }
{
    ids_lent(request.correlation, request.execution);
    xid_lent(
        request.xid.format,
        request.xid.gtrid,
        request.xid.bqual,
        request.xid.content,
    );
    small_number_lent(request.resource);
    small_number_lent(request.state);
}

// 6201.
pub fn dequeue_reply_back(out: &[u8], version: u64, request: &DequeueReply)
    ensures { BackAt version 6201 dequeue_reply (DequeueReplyBack version) request.now out.now }
{
    ids_lent(request.correlation, request.execution);
    let messages = &request.messages;
    bytes_lent(messages.ids);
    strings_lent(messages.properties.lengths, messages.properties.run);
    strings_lent(messages.replies.lengths, messages.replies.run);
    numbers_lent(messages.availables);
    strings_lent(messages.types.lengths, messages.types.run);
    strings_lent(messages.contents.lengths, messages.contents.run);
    numbers_lent(messages.redelivereds);
    numbers_lent(messages.timestamps);
}

// What is read of lent bytes is written again to the same bytes, whichever of the eleven types they are.
pub fn again(out: &[u8], version: u64, message: &[u8])
    ensures { EveryAgain version message.now out.now }
{
    bytes_lent(message);
}
