// The fields of each type, in order.
ghost use Rattle.std.specs.Prelude.{◌≡◌};
ghost use Rattle.message_layout.specs.Table.{entries_of};
ghost use Rattle.message_layout.specs.Rows.{row_of};

use crate::limits::{CHOSEN_VERSION, ID};
use crate::{Element, Field, Kind, role};
use wire::{Item, Limits, Width};

// Kinds of fields: an id, a string, and numbers that are not judged.
pub const BYTES: Kind = Kind::One {
    item: Item::Raw { size: ID },
};

pub const STRING: Kind = Kind::One { item: Item::Str };

pub const NUMBER: Kind = Kind::One {
    item: Item::Num {
        width: Width::U64,
        limits: Limits::ANY,
    },
};

const SHORT: Kind = Kind::One {
    item: Item::Num {
        width: Width::U32,
        limits: Limits::ANY,
    },
};

// Kinds of one field each: a chosen version, and a transaction's state.
const CHOSEN: Kind = Kind::One {
    item: Item::Num {
        width: Width::U64,
        limits: CHOSEN_VERSION,
    },
};

const STATES: Kind = Kind::One {
    item: Item::Num {
        width: Width::U8,
        limits: Limits {
            most: 3,
            ..Limits::ANY
        },
    },
};

// The fields.
const EXECUTION: Field = Field {
    role: role::EXECUTION,
    kind: BYTES,
};

const DOMAIN_ID: Field = Field {
    role: role::DOMAIN_ID,
    kind: BYTES,
};

const DOMAIN_NAME: Field = Field {
    role: role::DOMAIN_NAME,
    kind: STRING,
};

const PROTOCOL_VERSIONS: Field = Field {
    role: role::PROTOCOL_VERSIONS,
    kind: Kind::List {
        element: Element::Version,
    },
};

const PROTOCOL_VERSION: Field = Field {
    role: role::PROTOCOL_VERSION,
    kind: CHOSEN,
};

const SERVICE_NAMES: Field = Field {
    role: role::SERVICES,
    kind: Kind::List {
        element: Element::ServiceName,
    },
};

const QUEUE_NAMES: Field = Field {
    role: role::QUEUES,
    kind: Kind::List {
        element: Element::QueueName,
    },
};

const SERVICES: Field = Field {
    role: role::SERVICES,
    kind: Kind::List {
        element: Element::Service,
    },
};

const QUEUES: Field = Field {
    role: role::QUEUES,
    kind: Kind::List {
        element: Element::Queue,
    },
};

const DOMAINS: Field = Field {
    role: role::DOMAINS,
    kind: Kind::List {
        element: Element::Domain,
    },
};

const CODE_RESULT: Field = Field {
    role: role::CODE_RESULT,
    kind: SHORT,
};

const CODE_USER: Field = Field {
    role: role::CODE_USER,
    kind: NUMBER,
};

const TRANSACTION_STATE: Field = Field {
    role: role::TRANSACTION_STATE,
    kind: STATES,
};

const BUFFER_TYPE: Field = Field {
    role: role::BUFFER_TYPE,
    kind: STRING,
};

const BUFFER_DATA: Field = Field {
    role: role::BUFFER_DATA,
    kind: STRING,
};

const XID: Field = Field {
    role: role::XID,
    kind: Kind::Xid,
};

const RESOURCE: Field = Field {
    role: role::RESOURCE,
    kind: SHORT,
};

const FLAGS: Field = Field {
    role: role::FLAGS,
    kind: NUMBER,
};

const STATE: Field = Field {
    role: role::STATE,
    kind: SHORT,
};

const MESSAGES: Field = Field {
    role: role::MESSAGES,
    kind: Kind::List {
        element: Element::Message,
    },
};

// The row of a type, which is empty where the type is unknown.
#[tactic(auto, unfolding(crate::specs::Table::entries_of))]
pub fn message_row(message: u64) -> &'static [Field]
    ensures { result.now ≡ row_of (entries_of message) }
{
    match message {
        7200 => &[EXECUTION, DOMAIN_ID, DOMAIN_NAME, PROTOCOL_VERSIONS],
        7201 => &[EXECUTION, DOMAIN_ID, DOMAIN_NAME, PROTOCOL_VERSION],
        7202 | 7203 => &[EXECUTION],
        7300 => &[
            EXECUTION,
            DOMAIN_ID,
            DOMAIN_NAME,
            SERVICE_NAMES,
            QUEUE_NAMES,
        ],
        7302 => &[EXECUTION, DOMAINS],
        7311 => &[EXECUTION, DOMAIN_ID, DOMAIN_NAME, SERVICES, QUEUES],
        3103 => &[
            EXECUTION,
            CODE_RESULT,
            CODE_USER,
            TRANSACTION_STATE,
            BUFFER_TYPE,
            BUFFER_DATA,
        ],
        5205 => &[EXECUTION, XID, RESOURCE, FLAGS],
        5206 => &[EXECUTION, XID, RESOURCE, STATE],
        6201 => &[EXECUTION, MESSAGES],
        _ => &[],
    }
}
