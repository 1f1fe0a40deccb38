// The link's types: a row, an endpoint, the head of a record with its opcodes and limits, and the replies.
// The test of the row rules is in rules.rt.
#![tactic(auto, unfolding(crate::specs::Replies::refuse, crate::specs::Rows::fresh_endpoint, crate::specs::Rows::is_served, crate::specs::Rows::row_of, crate::specs::Rows::opens_half, crate::specs::Rows::next_after))]

ghost use Rattle.std.specs.Prelude.{◌≡◌, Ok};
ghost use Rattle.link_rows.specs.Rows.{fresh_row, fresh_endpoint, is_served, is_high, row_of, opens_half, is_ours, row_at, with_row, is_spent, next_after, next_session};
ghost use Rattle.link_rows.specs.Replies.{refuse, refusal_number, number_of, session_of, used_by, written_by, takes_down};

mod rules;

pub use rules::keeps_rules;

#[derive(Clone, Copy, PartialEq, Eq, Debug)]
pub enum Status {
    Closed,
    Open,
    // We sent CLOSE.
    Pending,
}

// One connection identifier's row.
#[derive(Clone, Copy, PartialEq, Eq, Debug)]
pub struct Row {
    pub status: Status,
    // The latest session number, 0 before the first.
    pub session: u32,
    // The input request count: granted to the other end, not yet used.
    pub input: u32,
    // The output request count: granted to us.
    pub output: u32,
    // The unread bytes, at the front of the row's part of the store.
    pub unread: u32,
}

#[derive(Clone, Copy, PartialEq, Eq, Debug)]
pub struct Endpoint {
    // This end began the link, and so opens the high identifiers.
    pub began: bool,
    pub down: bool,
    // The last session number given.
    pub last: u32,
    pub rows: [Row; 32],
}

// The head of a record: all of it that decides anything.
#[derive(Clone, Copy, PartialEq, Eq, Debug)]
pub struct Record {
    // How many bytes were lent, of this record and after it.
    pub available: usize,
    pub opcode: u8,
    pub id: u16,
    pub count: u32,
}

// Why a call or a record is refused. Its number is that of document 01's table of link replies.
#[derive(Clone, Copy, PartialEq, Eq, Debug)]
pub enum Refusal {
    NotWhole,
    StoreLength,
    RowRules,
    LinkDown,
    NotServed,
    OtherHalf,
    NotClosed,
    SessionsSpent,
    WrongSession,
    NotOpen,
    Empty,
    AboveRoom,
    AboveOutput,
    OutputShort,
    UnknownOpcode,
    UnknownIdentifier,
    CountNotPositive,
    OpenInOurHalf,
    OpenOnRowNotClosed,
    OnClosedRow,
    CloseackNotPending,
    AboveInput,
    CreditOverflow,
    QueueOverflow,
    OpenSessionsSpent,
}

// What is reported of a call or a record that is accepted. session is 0 unless a row was opened, used is the bytes of a received record,
// and written the bytes written to the output.
#[derive(Clone, Copy, PartialEq, Eq, Debug, Default)]
pub struct Done {
    pub session: u32,
    pub used: usize,
    pub written: usize,
}

pub type Reply = Result<Done, Refusal>;

// A call's reply with the later endpoint.
#[derive(Clone, Copy, PartialEq, Eq, Debug)]
pub struct Answer {
    pub reply: Reply,
    pub endpoint: Endpoint,
}

impl Record {
    pub const OPEN: u8 = 0xE1;

    pub const CLOSE: u8 = 0xE2;

    pub const CLOSEACK: u8 = 0xE3;

    pub const REQUEST: u8 = 0xE4;

    pub const TRANSMIT: u8 = 0xE5;
    // The bytes of a record without a count, and of one with a count and no data.
    pub const SHORT_LENGTH: usize = 3;

    pub const LONG_LENGTH: usize = 7;

    pub const ROWS: usize = 32;

    pub const ROW_LENGTH: usize = 1024;

    pub const STORE_LENGTH: usize = 32768;
    // The greatest count and the greatest output request count.
    pub const MOST_CREDIT: u32 = 2147483647;

    pub const LAST_SESSION: u32 = 4294967295;
    // The identifiers served are those below HALF, and as many from HIGH on.
    pub const HALF: u16 = 16;

    pub const HIGH: u16 = 0x8000;

    pub fn fresh_row() -> Row
        ensures { result ≡ fresh_row }
    {
        Row {
            status: Status::Closed,
            session: 0,
            input: 0,
            output: 0,
            unread: 0,
        }
    }

    pub fn fresh_endpoint(began: bool) -> Endpoint
        ensures { result ≡ fresh_endpoint began }
    {
        Endpoint {
            began,
            down: false,
            last: 0,
            rows: [Record::fresh_row(); 32],
        }
    }
}

impl Endpoint {
    // The row of a number, and a fresh one where there is none.
    pub fn row(self, r: usize) -> Row
        ensures { result ≡ row_at self r }
    {
        if r < Record::ROWS {
            self.rows[r]
        } else {
            Record::fresh_row()
        }
    }

    // The endpoint with another row there, and unchanged where there is none.
    pub fn with_row(self, r: usize, row: Row) -> Endpoint
        ensures { result ≡ with_row self r row }
    {
        let mut after = self;
        if r < Record::ROWS {
            after.rows[r] = row;
        }
        after
    }

    // This end opens the identifier.
    pub fn opens(self, id: u16) -> bool
        ensures { result ≡ is_ours self id }
    {
        is_ours(self.began, id)
    }

    pub fn is_spent(self) -> bool
        ensures { result ≡ is_spent self }
    {
        Record::LAST_SESSION <= self.last
    }

    // The next session number, 0 where they are spent.
    pub fn next_session(self) -> u32
        ensures { result ≡ next_session self }
    {
        next_after(self.last)
    }
}

// The half that an end opens, by whether it began the link.
pub fn is_ours(began: bool, id: u16) -> bool
    ensures { result ≡ opens_half began id }
{
    if began { is_high(id) } else { !is_high(id) }
}

// The session number after the last one given, 0 where they are spent.
pub fn next_after(last: u32) -> u32
    ensures { result ≡ next_after last }
{
    if Record::LAST_SESSION <= last {
        0
    } else {
        last + 1
    }
}

pub fn is_high(id: u16) -> bool
    ensures { result ≡ is_high id }
{
    Record::HIGH <= id
}

pub fn is_served(id: u16) -> bool
    ensures { result ≡ is_served id }
{
    (id < Record::HALF) | ((Record::HIGH <= id) & (id < Record::HIGH + Record::HALF))
}

// The row of an identifier: the low ones first.
pub fn row_of(id: u16) -> usize
    ensures { result ≡ row_of id }
{
    if Record::HIGH <= id {
        (id - Record::HIGH) as usize + (Record::HALF as usize)
    } else {
        id as usize
    }
}

// One line of the table: a call or a record is refused where the test holds.
pub fn refuse(why: Refusal, test: bool) -> Result<(), Refusal>
    ensures { result ≡ refuse why test (Ok tt) }
{
    if test { Err(why) } else { Ok(()) }
}

impl From<Refusal> for u8 {
    ghost from_gives = { λ why n. n ≡ refusal_number why };

    fn from(why: Refusal) -> u8 {
        match why {
            Refusal::NotWhole => 1,
            Refusal::StoreLength => 2,
            Refusal::RowRules => 3,
            Refusal::LinkDown => 4,
            Refusal::NotServed => 5,
            Refusal::OtherHalf => 6,
            Refusal::NotClosed => 7,
            Refusal::SessionsSpent => 14,
            Refusal::WrongSession => 8,
            Refusal::NotOpen => 9,
            Refusal::Empty => 10,
            Refusal::AboveRoom => 11,
            Refusal::AboveOutput => 12,
            Refusal::OutputShort => 13,
            Refusal::UnknownOpcode => 20,
            Refusal::UnknownIdentifier => 21,
            Refusal::CountNotPositive => 22,
            Refusal::OpenInOurHalf => 23,
            Refusal::OpenOnRowNotClosed => 24,
            Refusal::OnClosedRow => 25,
            Refusal::CloseackNotPending => 26,
            Refusal::AboveInput => 27,
            Refusal::CreditOverflow => 28,
            Refusal::QueueOverflow => 29,
            Refusal::OpenSessionsSpent => 30,
        }
    }
}

impl Refusal {
    // The violations, numbered from 20 on, take the endpoint down.
    pub fn takes_down(self) -> bool
        ensures { result ≡ takes_down self }
    {
        20 <= u8::from(self)
    }
}

// The number of a reply: 0, or the refusal's.
pub fn number(reply: Reply) -> u8
    ensures { result ≡ number_of reply }
{
    match reply {
        Ok(_) => 0,
        Err(why) => why.into(),
    }
}

// The values that a reply reports. A refusal reports 0.
pub fn reported(reply: Reply) -> Done
    ensures session { result.session ≡ session_of reply }
    ensures used { result.used ≡ used_by reply }
    ensures written { result.written ≡ written_by reply }
{
    reply.unwrap_or_default()
}
