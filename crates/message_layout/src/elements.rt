// The fields of each kind of list element, as rows like those of the types.
ghost use Rattle.std.specs.Prelude.{◌≡◌};
ghost use Rattle.message_layout.specs.Table.{item_entries, item_fields, entries_from, entry_at};
ghost use Rattle.message_layout.specs.Rows.{row_of};

use crate::rows::{BYTES, NUMBER, STRING, message_row};
use crate::{Element, Field, Kind, Source, role};
use wire::{Item, Limits, Width};

// Kinds of fields: a service's transaction mode, and a boolean.
const MODE: Kind = Kind::One {
    item: Item::Num {
        width: Width::U16,
        limits: Limits {
            most: 3,
            ..Limits::ANY
        },
    },
};

const FLAG: Kind = Kind::One {
    item: Item::Num {
        width: Width::U8,
        limits: Limits {
            most: 1,
            ..Limits::ANY
        },
    },
};

// The fields.
const OFFERED: Field = Field {
    role: role::OFFERED,
    kind: NUMBER,
};

const NAME: Field = Field {
    role: role::NAME,
    kind: STRING,
};

const CATEGORY: Field = Field {
    role: role::CATEGORY,
    kind: STRING,
};

const TRANSACTION: Field = Field {
    role: role::TRANSACTION,
    kind: MODE,
};

const TIMEOUT: Field = Field {
    role: role::TIMEOUT,
    kind: NUMBER,
};

const HOPS: Field = Field {
    role: role::HOPS,
    kind: NUMBER,
};

const RETRY_COUNT: Field = Field {
    role: role::RETRY_COUNT,
    kind: NUMBER,
};

const RETRY_DELAY: Field = Field {
    role: role::RETRY_DELAY,
    kind: NUMBER,
};

const ENQUEUE: Field = Field {
    role: role::ENQUEUE,
    kind: FLAG,
};

const DEQUEUE: Field = Field {
    role: role::DEQUEUE,
    kind: FLAG,
};

const ID: Field = Field {
    role: role::ID,
    kind: BYTES,
};

const PROPERTIES: Field = Field {
    role: role::PROPERTIES,
    kind: STRING,
};

const REPLY_QUEUE: Field = Field {
    role: role::REPLY_QUEUE,
    kind: STRING,
};

const AVAILABLE: Field = Field {
    role: role::AVAILABLE,
    kind: NUMBER,
};

const DATA_TYPE: Field = Field {
    role: role::DATA_TYPE,
    kind: STRING,
};

const DATA: Field = Field {
    role: role::DATA,
    kind: STRING,
};

const REDELIVERED: Field = Field {
    role: role::REDELIVERED,
    kind: NUMBER,
};

const TIMESTAMP: Field = Field {
    role: role::TIMESTAMP,
    kind: NUMBER,
};

// The field k of a message type or of an element, if it has so many.
pub fn field_at(source: Source, k: u64) -> Option<Field>
    ensures { result ≡ entry_at (entries_from source) k }
{
    row_of(source).get(k as usize).copied()
}

// The row of a message type or of an element.
#[tactic(auto, unfolding(crate::specs::Table::entries_from))]
pub fn row_of(source: Source) -> &'static [Field]
    ensures { result.now ≡ row_of (entries_from source) }
{
    match source {
        Source::Message { kind } => message_row(kind),
        Source::Element { element } => item_row(element),
    }
}

// The row of an element.
fn item_row(element: Element) -> &'static [Field]
    ensures { result.now ≡ row_of (item_fields (item_entries element)) }
{
    match element {
        Element::Version => &[OFFERED],
        Element::ServiceName | Element::QueueName => &[NAME],
        Element::Domain => &[ID, NAME],
        Element::Service => &[NAME, CATEGORY, TRANSACTION, TIMEOUT, HOPS],
        Element::Queue => &[NAME, RETRY_COUNT, RETRY_DELAY, ENQUEUE, DEQUEUE],
        Element::Message => {
            &[
                ID,
                PROPERTIES,
                REPLY_QUEUE,
                AVAILABLE,
                DATA_TYPE,
                DATA,
                REDELIVERED,
                TIMESTAMP,
            ]
        }
    }
}
