// What each writer is lent, by name, in the order of document 01's table. A contract sees each as the record of that name of specs/Requests.
ghost use Rattle.message_lent.specs.Requests as lent;

use crate::columns::{Domains, Messages, Queues, Services};
use crate::strings::Strings;
use crate::xid::Xid;
use std::marker::Model;

// 7200.
#[derive(Debug, Drop)]
pub struct ConnectRequest<'a> {
    pub correlation: &'a [u8],
    pub execution: &'a [u8],
    pub domain_id: &'a [u8],
    pub domain_name: &'a [u8],
    pub versions: &'a [u64],
}

impl<'a> Model for ConnectRequest<'a> {
    ghost Value = { lent.ConnectRequest };

    ghost view = { λ q. record {
      correlation = q.correlation.now;
      execution = q.execution.now;
      domain_id = q.domain_id.now;
      domain_name = q.domain_name.now;
      versions = q.versions.now;
    } };
}

// 7201; the version is the chosen one, or 0.
#[derive(Debug, Drop)]
pub struct ConnectReply<'a> {
    pub correlation: &'a [u8],
    pub execution: &'a [u8],
    pub domain_id: &'a [u8],
    pub domain_name: &'a [u8],
    pub version: u64,
}

impl<'a> Model for ConnectReply<'a> {
    ghost Value = { lent.ConnectReply };

    ghost view = { λ q. record {
      correlation = q.correlation.now;
      execution = q.execution.now;
      domain_id = q.domain_id.now;
      domain_name = q.domain_name.now;
      version = q.version;
    } };
}

// 7202.
#[derive(Debug, Drop)]
pub struct DisconnectRequest<'a> {
    pub correlation: &'a [u8],
    pub execution: &'a [u8],
}

impl<'a> Model for DisconnectRequest<'a> {
    ghost Value = { lent.DisconnectRequest };

    ghost view = { λ q. record { correlation = q.correlation.now; execution = q.execution.now } };
}

// 7203.
#[derive(Debug, Drop)]
pub struct DisconnectReply<'a> {
    pub correlation: &'a [u8],
    pub execution: &'a [u8],
}

impl<'a> Model for DisconnectReply<'a> {
    ghost Value = { lent.DisconnectReply };

    ghost view = { λ q. record { correlation = q.correlation.now; execution = q.execution.now } };
}

// 7300.
#[derive(Debug, Drop)]
pub struct DiscoveryRequest<'a> {
    pub correlation: &'a [u8],
    pub execution: &'a [u8],
    pub domain_id: &'a [u8],
    pub domain_name: &'a [u8],
    pub services: Strings<'a>,
    pub queues: Strings<'a>,
}

impl<'a> Model for DiscoveryRequest<'a> {
    ghost Value = { lent.DiscoveryRequest };

    ghost view = { λ q. record {
      correlation = q.correlation.now;
      execution = q.execution.now;
      domain_id = q.domain_id.now;
      domain_name = q.domain_name.now;
      service_name_lengths = q.services.lengths.now;
      service_names = q.services.run.now;
      queue_name_lengths = q.queues.lengths.now;
      queue_names = q.queues.run.now;
    } };
}

// 7302.
#[derive(Debug, Drop)]
pub struct TopologyUpdate<'a> {
    pub correlation: &'a [u8],
    pub execution: &'a [u8],
    pub domains: Domains<'a>,
}

impl<'a> Model for TopologyUpdate<'a> {
    ghost Value = { lent.TopologyUpdate };

    ghost view = { λ q. record {
      correlation = q.correlation.now;
      execution = q.execution.now;
      domain_ids = q.domains.ids.now;
      domain_name_lengths = q.domains.names.lengths.now;
      domain_names = q.domains.names.run.now;
    } };
}

// 7311.
#[derive(Debug, Drop)]
pub struct DiscoveryReply<'a> {
    pub correlation: &'a [u8],
    pub execution: &'a [u8],
    pub domain_id: &'a [u8],
    pub domain_name: &'a [u8],
    pub services: Services<'a>,
    pub queues: Queues<'a>,
}

impl<'a> Model for DiscoveryReply<'a> {
    ghost Value = { lent.DiscoveryReply };

    ghost view = { λ q. record {
      correlation = q.correlation.now;
      execution = q.execution.now;
      domain_id = q.domain_id.now;
      domain_name = q.domain_name.now;
      service_name_lengths = q.services.names.lengths.now;
      service_names = q.services.names.run.now;
      category_lengths = q.services.categories.lengths.now;
      categories = q.services.categories.run.now;
      modes = q.services.modes.now;
      timeouts = q.services.timeouts.now;
      hops = q.services.hops.now;
      queue_name_lengths = q.queues.names.lengths.now;
      queue_names = q.queues.names.run.now;
      retry_counts = q.queues.counts.now;
      retry_delays = q.queues.delays.now;
      enqueues = q.queues.enqueues.now;
      dequeues = q.queues.dequeues.now;
    } };
}

// 3103.
#[derive(Debug, Drop)]
pub struct ServiceReply<'a> {
    pub correlation: &'a [u8],
    pub execution: &'a [u8],
    pub code_result: u32,
    pub code_user: u64,
    pub transaction_state: u64,
    pub buffer_type: &'a [u8],
    pub buffer_data: &'a [u8],
}

impl<'a> Model for ServiceReply<'a> {
    ghost Value = { lent.ServiceReply };

    ghost view = { λ q. record {
      correlation = q.correlation.now;
      execution = q.execution.now;
      code_result = q.code_result;
      code_user = q.code_user;
      transaction_state = q.transaction_state;
      buffer_type = q.buffer_type.now;
      buffer_data = q.buffer_data.now;
    } };
}

// 5205.
#[derive(Debug, Drop)]
pub struct RollbackRequest<'a> {
    pub correlation: &'a [u8],
    pub execution: &'a [u8],
    pub xid: Xid<'a>,
    pub resource: u32,
    pub flags: u64,
}

impl<'a> Model for RollbackRequest<'a> {
    ghost Value = { lent.RollbackRequest };

    ghost view = { λ q. record {
      correlation = q.correlation.now;
      execution = q.execution.now;
      format_id = q.xid.format;
      gtrid_length = q.xid.gtrid;
      bqual_length = q.xid.bqual;
      xid_data = q.xid.content.now;
      resource = q.resource;
      flags = q.flags;
    } };
}

// 5206.
#[derive(Debug, Drop)]
pub struct RollbackReply<'a> {
    pub correlation: &'a [u8],
    pub execution: &'a [u8],
    pub xid: Xid<'a>,
    pub resource: u32,
    pub state: u32,
}

impl<'a> Model for RollbackReply<'a> {
    ghost Value = { lent.RollbackReply };

    ghost view = { λ q. record {
      correlation = q.correlation.now;
      execution = q.execution.now;
      format_id = q.xid.format;
      gtrid_length = q.xid.gtrid;
      bqual_length = q.xid.bqual;
      xid_data = q.xid.content.now;
      resource = q.resource;
      state = q.state;
    } };
}

// 6201.
#[derive(Debug, Drop)]
pub struct DequeueReply<'a> {
    pub correlation: &'a [u8],
    pub execution: &'a [u8],
    pub messages: Messages<'a>,
}

impl<'a> Model for DequeueReply<'a> {
    ghost Value = { lent.DequeueReply };

    ghost view = { λ q. record {
      correlation = q.correlation.now;
      execution = q.execution.now;
      ids = q.messages.ids.now;
      properties_lengths = q.messages.properties.lengths.now;
      properties = q.messages.properties.run.now;
      reply_queue_lengths = q.messages.replies.lengths.now;
      reply_queues = q.messages.replies.run.now;
      availables = q.messages.availables.now;
      data_type_lengths = q.messages.types.lengths.now;
      data_types = q.messages.types.run.now;
      data_lengths = q.messages.contents.lengths.now;
      data_bytes = q.messages.contents.run.now;
      redelivereds = q.messages.redelivereds.now;
      timestamps = q.messages.timestamps.now;
    } };
}
