// Document 01's fourteen cases, 8 and 9 as document 02's T-03 has them. specs/Table has the table, specs/Expected the statement that
// the definitions answer what it expects, proofs/Fourteen the theorem. Here the same table stands as rows, for the program that runs
// it.
#![tactic(auto)]

ghost use Rattle.std.specs.Prelude.{◌≡◌};
ghost use Rattle.cases.specs.Table.{table, told};

use wire::Width;

// A number of that width, so many times.
#[derive(Clone, Copy, PartialEq, Eq, Debug)]
pub struct Piece {
    pub width: Width,
    pub value: u64,
    pub times: usize,
}

// What is done: of messages, reading one and choosing among offers; of the link, making a fresh endpoint that did not begin it, a record
// received, and our calls for identifier 0x8000.
#[derive(Clone, Copy, Debug)]
pub enum Deed {
    ReadMessage {
        version: u64,
        message: &'static [Piece],
    },
    ChooseVersion {
        offers: &'static [Piece],
    },
    Make,
    Receive {
        record: &'static [Piece],
    },
    Request {
        session: u32,
        amount: u32,
    },
    Close {
        session: u32,
    },
    ReadQueue {
        session: u32,
    },
}

// A row: the case's number; what is done; and what is expected: the number answered, the place, the value (the used length of a message,
// the version chosen, the bytes that a link call wrote), and the bytes at the front of the output, behind which nothing is changed.
#[derive(Clone, Copy, Debug)]
pub struct Row {
    pub case: u64,
    pub deed: Deed,
    pub number: u64,
    pub place: u64,
    pub value: u64,
    pub output: &'static [Piece],
}

// A number of one of the widths, once, or as often as is said.
macro_rules! number {
    ($width:ident, $value:expr) => {
        number!($width, $value; 1)
    };
    ($width:ident, $value:expr; $times:expr) => {
        Piece {
            width: Width::$width,
            value: $value,
            times: $times,
        }
    };
}

// A message: its header, with a correlation of 11 hex, and its payload.
macro_rules! message {
    ($kind:expr, $size:expr, $($payload:expr),*) => {
        &[number!(U64, $kind), number!(U8, 0x11; 16), number!(U64, $size), $($payload),*]
    };
}

// A 5205 with formatID 1, two lengths, and data of their sum.
macro_rules! branch {
    ($size:expr, $gtrid:expr, $bqual:expr, $sum:expr) => {
        message!(
            5205,
            $size,
            ID,
            number!(U64, 1),
            number!(U64, $gtrid),
            number!(U64, $bqual),
            number!(U8, 0x44; $sum),
            number!(U32, 1),
            number!(U64, 0)
        )
    };
}

// A record of the link for identifier 0x8000, and one with a count.
macro_rules! short {
    ($opcode:expr) => {
        &[number!(U8, $opcode), number!(U16, 0x8000)]
    };
}

macro_rules! long {
    ($opcode:expr, $count:expr $(, $data:expr)*) => {
        &[number!(U8, $opcode), number!(U16, 0x8000), number!(U32, $count) $(, $data)*]
    };
}

// A row: its case and deed, and the number, place, value and output expected.
macro_rules! row {
    ($case:expr, $deed:expr => $number:expr, $place:expr, $value:expr, $output:expr) => {
        Row {
            case: $case,
            deed: $deed,
            number: $number,
            place: $place,
            value: $value,
            output: $output,
        }
    };
}

// The 16 bytes of an id.
const ID: Piece = number!(U8, 0x22; 16);

// The rows.
const TABLE: &[Row] = &[
    // 1: no bytes
    row!(1, Deed::ReadMessage { version: 1004, message: &[] } => 1, 0, 0, &[]),
    row!(1, Deed::Make => 0, 0, 0, &[]),
    row!(1, Deed::Receive { record: &[] } => 1, 0, 0, &[]),
    // 2: a 7202 at 1001, and at 1000
    row!(2, Deed::ReadMessage { version: 1001, message: message!(7202, 16, ID) } => 0, 0, 48, &[]),
    row!(2, Deed::ReadMessage { version: 1000, message: message!(7202, 16, ID) } => 42, 0, 0, &[]),
    // 3: its size 17, one byte added
    row!(3, Deed::ReadMessage {
        version: 1001,
        message: message!(7202, 17, ID, number!(U8, 0x33))
    } => 46, 16, 0, &[]),
    // 4: its size 15
    row!(4, Deed::ReadMessage { version: 1001, message: message!(7202, 15, ID) } => 44, 0, 0, &[]),
    // 5: its size 65,505
    row!(5, Deed::ReadMessage { version: 1001, message: message!(7202, 65505, ID) } => 43, 0, 0, &[]),
    // 6: a 7201 naming 1005, after a name of three bytes
    row!(6, Deed::ReadMessage {
        version: 1004,
        message: message!(7201, 51, ID, ID, number!(U64, 3), number!(U8, 0x61; 3), number!(U64, 1005))
    } => 45, 43, 0, &[]),
    // 7: a 5205 with formatID 0
    row!(7, Deed::ReadMessage {
        version: 1004,
        message: message!(5205, 36, ID, number!(U64, 0), number!(U32, 1), number!(U64, 0))
    } => 0, 0, 68, &[]),
    // 8 and 9: lengths 64 and 64, 65 and 0 (document 02's T-03)
    row!(8, Deed::ReadMessage { version: 1004, message: branch!(180, 64, 64, 128) } => 0, 0, 212, &[]),
    row!(9, Deed::ReadMessage { version: 1004, message: branch!(117, 65, 0, 65) } => 45, 24, 0, &[]),
    // 10: offers of 1005, 1003, 1003, and none
    row!(10, Deed::ChooseVersion {
        offers: &[number!(U64, 1005), number!(U64, 1003; 2)]
    } => 0, 0, 1003, &[]),
    row!(10, Deed::ChooseVersion { offers: &[] } => 0, 0, 0, &[]),
    // 11: a request of 1,024 on a new session, and 1 more
    row!(11, Deed::Make => 0, 0, 0, &[]),
    row!(11, Deed::Receive { record: short!(0xE1) } => 0, 0, 0, &[]),
    row!(11, Deed::Request { session: 1, amount: 1024 } => 0, 0, 7, long!(0xE4, 1024)),
    row!(11, Deed::Request { session: 1, amount: 1 } => 11, 0, 0, &[]),
    // 12: a TRANSMIT of 1 with no input credit, before its data and with it
    row!(12, Deed::Make => 0, 0, 0, &[]),
    row!(12, Deed::Receive { record: short!(0xE1) } => 0, 0, 0, &[]),
    row!(12, Deed::Receive { record: long!(0xE5, 1) } => 27, 0, 0, &[]),
    row!(12, Deed::Make => 0, 0, 0, &[]),
    row!(12, Deed::Receive { record: short!(0xE1) } => 0, 0, 0, &[]),
    row!(12, Deed::Receive { record: long!(0xE5, 1, number!(U8, 7)) } => 27, 0, 0, &[]),
    // 13: a CLOSE on a pending row, with no CLOSEACK
    row!(13, Deed::Make => 0, 0, 0, &[]),
    row!(13, Deed::Receive { record: short!(0xE1) } => 0, 0, 0, &[]),
    row!(13, Deed::Close { session: 1 } => 0, 0, 3, short!(0xE2)),
    row!(13, Deed::Receive { record: short!(0xE2) } => 0, 0, 0, &[]),
    // 14: three unread bytes, CLOSE, OPEN; the old number, and the new one
    row!(14, Deed::Make => 0, 0, 0, &[]),
    row!(14, Deed::Receive { record: short!(0xE1) } => 0, 0, 0, &[]),
    row!(14, Deed::Request { session: 1, amount: 1024 } => 0, 0, 7, long!(0xE4, 1024)),
    row!(14, Deed::Receive { record: long!(0xE5, 3, number!(U8, 7; 3)) } => 0, 0, 0, &[]),
    row!(14, Deed::Receive { record: short!(0xE2) } => 0, 0, 3, short!(0xE3)),
    row!(14, Deed::Receive { record: short!(0xE1) } => 0, 0, 0, &[]),
    row!(14, Deed::ReadQueue { session: 1 } => 8, 0, 0, &[]),
    row!(14, Deed::ReadQueue { session: 2 } => 0, 0, 0, &[]),
];

// The rows, which are done one after another.
pub fn rows() -> &'static [Row]
    ensures { told result ≡ table }
{
    TABLE
}
