// The writing calls of include/sootlark.h: each makes the request that it is lent, and reports what message_write answers as a number and a length.
ghost use Rattle.std.specs.Prelude.{◌≡◌, length};
ghost use Rattle.message_verdict.specs.Writing.{writing, written, number_of, used_of};
ghost use Rattle.message_lent.specs.Requests.{disconnect_request, disconnect_reply, connect_request, connect_reply, discovery_request, topology_update, discovery_reply, service_reply, rollback_request, rollback_reply, dequeue_reply};

// 7202.
#[unsafe(no_mangle)]
pub extern "C" fn sootlark_write_disconnect_request(
    out: &mut [u8],
    version: u64,
    correlation: &[u8],
    execution: &[u8],
    used: &mut usize,
) -> u64
    ensures { let q = disconnect_request (record {
      correlation = correlation.entry.now;
      execution = execution.now;
    }) in (result ≡ number_of (writing version q (length out.old)))
        × (used.new ≡ used_of (writing version q (length out.old)))
        × (out.new ≡ written version q out.old) }
{
    boundary_message::writing::sootlark_write_disconnect_request(
        out,
        version,
        correlation,
        execution,
        used,
    )
}

// 7203.
#[unsafe(no_mangle)]
pub extern "C" fn sootlark_write_disconnect_reply(
    out: &mut [u8],
    version: u64,
    correlation: &[u8],
    execution: &[u8],
    used: &mut usize,
) -> u64
    ensures { let q = disconnect_reply (record {
      correlation = correlation.entry.now;
      execution = execution.now;
    }) in (result ≡ number_of (writing version q (length out.old)))
        × (used.new ≡ used_of (writing version q (length out.old)))
        × (out.new ≡ written version q out.old) }
{
    boundary_message::writing::sootlark_write_disconnect_reply(
        out,
        version,
        correlation,
        execution,
        used,
    )
}

// 7200.
#[unsafe(no_mangle)]
pub extern "C" fn sootlark_write_connect_request(
    out: &mut [u8],
    version: u64,
    correlation: &[u8],
    execution: &[u8],
    id: &[u8],
    name: &[u8],
    versions: &[u64],
    used: &mut usize,
) -> u64
    ensures { let q = connect_request (record {
      correlation = correlation.entry.now;
      execution = execution.now;
      domain_id = id.now;
      domain_name = name.now;
      versions = versions.now;
    }) in (result ≡ number_of (writing version q (length out.old)))
        × (used.new ≡ used_of (writing version q (length out.old)))
        × (out.new ≡ written version q out.old) }
{
    boundary_message::writing::sootlark_write_connect_request(
        out,
        version,
        correlation,
        execution,
        id,
        name,
        versions,
        used,
    )
}

// 7201.
#[unsafe(no_mangle)]
pub extern "C" fn sootlark_write_connect_reply(
    out: &mut [u8],
    version: u64,
    correlation: &[u8],
    execution: &[u8],
    id: &[u8],
    name: &[u8],
    chosen: u64,
    used: &mut usize,
) -> u64
    ensures { let q = connect_reply (record {
      correlation = correlation.entry.now;
      execution = execution.now;
      domain_id = id.now;
      domain_name = name.now;
      version = chosen;
    }) in (result ≡ number_of (writing version q (length out.old)))
        × (used.new ≡ used_of (writing version q (length out.old)))
        × (out.new ≡ written version q out.old) }
{
    boundary_message::writing::sootlark_write_connect_reply(
        out,
        version,
        correlation,
        execution,
        id,
        name,
        chosen,
        used,
    )
}

// 7300.
#[unsafe(no_mangle)]
pub extern "C" fn sootlark_write_discovery_request(
    out: &mut [u8],
    version: u64,
    correlation: &[u8],
    execution: &[u8],
    id: &[u8],
    name: &[u8],
    service_lengths: &[u64],
    services: &[u8],
    queue_lengths: &[u64],
    queues: &[u8],
    used: &mut usize,
) -> u64
    ensures { let q = discovery_request (record {
      correlation = correlation.entry.now;
      execution = execution.now;
      domain_id = id.now;
      domain_name = name.now;
      service_name_lengths = service_lengths.now;
      service_names = services.now;
      queue_name_lengths = queue_lengths.now;
      queue_names = queues.now;
    }) in (result ≡ number_of (writing version q (length out.old)))
        × (used.new ≡ used_of (writing version q (length out.old)))
        × (out.new ≡ written version q out.old) }
{
    boundary_message::writing::sootlark_write_discovery_request(
        out,
        version,
        correlation,
        execution,
        id,
        name,
        service_lengths,
        services,
        queue_lengths,
        queues,
        used,
    )
}

// 7302.
#[unsafe(no_mangle)]
pub extern "C" fn sootlark_write_topology_update(
    out: &mut [u8],
    version: u64,
    correlation: &[u8],
    execution: &[u8],
    ids: &[u8],
    lengths: &[u64],
    names: &[u8],
    used: &mut usize,
) -> u64
    ensures { let q = topology_update (record {
      correlation = correlation.entry.now;
      execution = execution.now;
      domain_ids = ids.now;
      domain_name_lengths = lengths.now;
      domain_names = names.now;
    }) in (result ≡ number_of (writing version q (length out.old)))
        × (used.new ≡ used_of (writing version q (length out.old)))
        × (out.new ≡ written version q out.old) }
{
    boundary_message::writing::sootlark_write_topology_update(
        out,
        version,
        correlation,
        execution,
        ids,
        lengths,
        names,
        used,
    )
}

// 7311.
#[unsafe(no_mangle)]
pub extern "C" fn sootlark_write_discovery_reply(
    out: &mut [u8],
    version: u64,
    correlation: &[u8],
    execution: &[u8],
    id: &[u8],
    name: &[u8],
    service_lengths: &[u64],
    services: &[u8],
    category_lengths: &[u64],
    categories: &[u8],
    modes: &[u64],
    timeouts: &[u64],
    hops: &[u64],
    queue_lengths: &[u64],
    queues: &[u8],
    counts: &[u64],
    delays: &[u64],
    enqueues: &[u64],
    dequeues: &[u64],
    used: &mut usize,
) -> u64
    ensures { let q = discovery_reply (record {
      correlation = correlation.entry.now;
      execution = execution.now;
      domain_id = id.now;
      domain_name = name.now;
      service_name_lengths = service_lengths.now;
      service_names = services.now;
      category_lengths = category_lengths.now;
      categories = categories.now;
      modes = modes.now;
      timeouts = timeouts.now;
      hops = hops.now;
      queue_name_lengths = queue_lengths.now;
      queue_names = queues.now;
      retry_counts = counts.now;
      retry_delays = delays.now;
      enqueues = enqueues.now;
      dequeues = dequeues.now;
    }) in (result ≡ number_of (writing version q (length out.old)))
        × (used.new ≡ used_of (writing version q (length out.old)))
        × (out.new ≡ written version q out.old) }
{
    boundary_message::writing::sootlark_write_discovery_reply(
        out,
        version,
        correlation,
        execution,
        id,
        name,
        service_lengths,
        services,
        category_lengths,
        categories,
        modes,
        timeouts,
        hops,
        queue_lengths,
        queues,
        counts,
        delays,
        enqueues,
        dequeues,
        used,
    )
}

// 3103.
#[unsafe(no_mangle)]
pub extern "C" fn sootlark_write_service_reply(
    out: &mut [u8],
    version: u64,
    correlation: &[u8],
    execution: &[u8],
    res: u32,
    user: u64,
    state: u64,
    kind: &[u8],
    content: &[u8],
    used: &mut usize,
) -> u64
    ensures { let q = service_reply (record {
      correlation = correlation.entry.now;
      execution = execution.now;
      code_result = res;
      code_user = user;
      transaction_state = state;
      buffer_type = kind.now;
      buffer_data = content.now;
    }) in (result ≡ number_of (writing version q (length out.old)))
        × (used.new ≡ used_of (writing version q (length out.old)))
        × (out.new ≡ written version q out.old) }
{
    boundary_message::writing::sootlark_write_service_reply(
        out,
        version,
        correlation,
        execution,
        res,
        user,
        state,
        kind,
        content,
        used,
    )
}

// 5205.
#[unsafe(no_mangle)]
pub extern "C" fn sootlark_write_rollback_request(
    out: &mut [u8],
    version: u64,
    correlation: &[u8],
    execution: &[u8],
    format: u64,
    gtrid: u64,
    bqual: u64,
    content: &[u8],
    resource: u32,
    flags: u64,
    used: &mut usize,
) -> u64
    ensures { let q = rollback_request (record {
      correlation = correlation.entry.now;
      execution = execution.now;
      format_id = format;
      gtrid_length = gtrid;
      bqual_length = bqual;
      xid_data = content.now;
      resource = resource;
      flags = flags;
    }) in (result ≡ number_of (writing version q (length out.old)))
        × (used.new ≡ used_of (writing version q (length out.old)))
        × (out.new ≡ written version q out.old) }
{
    boundary_message::writing::sootlark_write_rollback_request(
        out,
        version,
        correlation,
        execution,
        format,
        gtrid,
        bqual,
        content,
        resource,
        flags,
        used,
    )
}

// 5206.
#[unsafe(no_mangle)]
pub extern "C" fn sootlark_write_rollback_reply(
    out: &mut [u8],
    version: u64,
    correlation: &[u8],
    execution: &[u8],
    format: u64,
    gtrid: u64,
    bqual: u64,
    content: &[u8],
    resource: u32,
    state: u32,
    used: &mut usize,
) -> u64
    ensures { let q = rollback_reply (record {
      correlation = correlation.entry.now;
      execution = execution.now;
      format_id = format;
      gtrid_length = gtrid;
      bqual_length = bqual;
      xid_data = content.now;
      resource = resource;
      state = state;
    }) in (result ≡ number_of (writing version q (length out.old)))
        × (used.new ≡ used_of (writing version q (length out.old)))
        × (out.new ≡ written version q out.old) }
{
    boundary_message::writing::sootlark_write_rollback_reply(
        out,
        version,
        correlation,
        execution,
        format,
        gtrid,
        bqual,
        content,
        resource,
        state,
        used,
    )
}

// 6201.
#[unsafe(no_mangle)]
pub extern "C" fn sootlark_write_dequeue_reply(
    out: &mut [u8],
    version: u64,
    correlation: &[u8],
    execution: &[u8],
    ids: &[u8],
    property_lengths: &[u64],
    properties: &[u8],
    reply_lengths: &[u64],
    replies: &[u8],
    availables: &[u64],
    type_lengths: &[u64],
    types: &[u8],
    content_lengths: &[u64],
    contents: &[u8],
    redelivereds: &[u64],
    timestamps: &[u64],
    used: &mut usize,
) -> u64
    ensures { let q = dequeue_reply (record {
      correlation = correlation.entry.now;
      execution = execution.now;
      ids = ids.now;
      properties_lengths = property_lengths.now;
      properties = properties.now;
      reply_queue_lengths = reply_lengths.now;
      reply_queues = replies.now;
      availables = availables.now;
      data_type_lengths = type_lengths.now;
      data_types = types.now;
      data_lengths = content_lengths.now;
      data_bytes = contents.now;
      redelivereds = redelivereds.now;
      timestamps = timestamps.now;
    }) in (result ≡ number_of (writing version q (length out.old)))
        × (used.new ≡ used_of (writing version q (length out.old)))
        × (out.new ≡ written version q out.old) }
{
    boundary_message::writing::sootlark_write_dequeue_reply(
        out,
        version,
        correlation,
        execution,
        ids,
        property_lengths,
        properties,
        reply_lengths,
        replies,
        availables,
        type_lengths,
        types,
        content_lengths,
        contents,
        redelivereds,
        timestamps,
        used,
    )
}
