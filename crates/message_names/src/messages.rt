// The names of the fields of each message type: of each field, the names of its pieces.
ghost use Rattle.std.specs.Prelude.{◌≡◌};
ghost use Rattle.message_layout.specs.Table.{entries_of};
ghost use Rattle.message_names.specs.Names.{told, names_in};

// Fields of several types.
const EXECUTION: &[&str] = &["execution"];

const DOMAIN_ID: &[&str] = &["domain.id"];

const DOMAIN_NAME: &[&str] = &["domain.name.size", "domain.name.data"];

const SERVICES: &[&str] = &["content.services.size"];

const QUEUES: &[&str] = &["content.queues.size"];

const XID: &[&str] = &[
    "xid.formatID",
    "xid.gtrid_length",
    "xid.bqual_length",
    "xid.data",
];

const RESOURCE: &[&str] = &["resource"];

// The names of a type's fields, which are none where the type is unknown.
#[tactic(auto, unfolding(message_layout::specs::Table::entries_of))]
pub fn message_names(message: u64) -> &'static [&'static [&'static str]]
    ensures { told result ≡ names_in (entries_of message) }
{
    match message {
        7200 => &[
            EXECUTION,
            DOMAIN_ID,
            DOMAIN_NAME,
            &["protocol.versions.size"],
        ],
        7201 => &[EXECUTION, DOMAIN_ID, DOMAIN_NAME, &["protocol.version"]],
        7202 | 7203 => &[EXECUTION],
        7300 | 7311 => &[EXECUTION, DOMAIN_ID, DOMAIN_NAME, SERVICES, QUEUES],
        7302 => &[EXECUTION, &["domains.size"]],
        3103 => &[
            EXECUTION,
            &["code.result"],
            &["code.user"],
            &["transaction_state"],
            &["buffer.type.size", "buffer.type.data"],
            &["buffer.data.size", "buffer.data.data"],
        ],
        5205 => &[EXECUTION, XID, RESOURCE, &["flags"]],
        5206 => &[EXECUTION, XID, RESOURCE, &["state"]],
        6201 => &[EXECUTION, &["message.size"]],
        _ => &[],
    }
}
