// The roles of fields: our numbers for document 003's names. A name of elements of several lists has one role. A number that is none of
// these is the role of no field.

// Of a message.
pub const EXECUTION: u64 = 0;

pub const DOMAIN_ID: u64 = 1;

pub const DOMAIN_NAME: u64 = 2;

pub const PROTOCOL_VERSIONS: u64 = 3;

pub const PROTOCOL_VERSION: u64 = 4;

pub const SERVICES: u64 = 5;

pub const QUEUES: u64 = 6;

pub const DOMAINS: u64 = 7;

pub const CODE_RESULT: u64 = 8;

pub const CODE_USER: u64 = 9;

pub const TRANSACTION_STATE: u64 = 10;

pub const BUFFER_TYPE: u64 = 11;

pub const BUFFER_DATA: u64 = 12;

pub const XID: u64 = 13;

pub const RESOURCE: u64 = 14;

pub const FLAGS: u64 = 15;

pub const STATE: u64 = 16;

pub const MESSAGES: u64 = 17;

// Of a list's elements.
pub const OFFERED: u64 = 18;

pub const NAME: u64 = 19;

pub const CATEGORY: u64 = 20;

pub const TRANSACTION: u64 = 21;

pub const TIMEOUT: u64 = 22;

pub const HOPS: u64 = 23;

pub const RETRY_COUNT: u64 = 24;

pub const RETRY_DELAY: u64 = 25;

pub const ENQUEUE: u64 = 26;

pub const DEQUEUE: u64 = 27;

pub const ID: u64 = 28;

pub const PROPERTIES: u64 = 29;

pub const REPLY_QUEUE: u64 = 30;

pub const AVAILABLE: u64 = 31;

pub const DATA_TYPE: u64 = 32;

pub const DATA: u64 = 33;

pub const REDELIVERED: u64 = 34;

pub const TIMESTAMP: u64 = 35;
