// The wire: numbers, field kinds and layouts. It knows no message.
// Specifications: specs/Numbers, Replies, Layout, Values, Decoding, Reading, Contents.
#![tactic(auto)]

ghost use Rattle.std.specs.Prelude.{◌≡◌};
ghost use Rattle.wire.specs.Layout.{size, at_most};
ghost use Rattle.wire.specs.Replies.{number};
ghost use Rattle.wire.specs.Values.{allowed};

mod digits;
pub mod fields;
pub mod numbers;
pub mod values;

// Why a message part refuses: document 01's message replies other than 0, and one of our own.
#[derive(Clone, Copy, PartialEq, Eq, Debug)]
pub enum Fault {
    NotWhole,
    NoSuchVersion,
    UnknownType,
    NotInVersion,
    TooLarge,
    RunsPast,
    NotAllowed,
    BytesAfter,
    OutputShort,
    ListsDiffer,
    NoElement,
    NoField,
}

// Why a field is refused, and the place that is answered.
#[derive(Clone, Copy, PartialEq, Eq, Debug)]
pub struct Refused {
    pub fault: Fault,
    pub place: usize,
}

// What reading a field comes to: the place after it, or why it is refused.
pub type Outcome = Result<usize, Refused>;

// The widths of the numbers.
#[derive(Clone, Copy, PartialEq, Eq, Debug)]
pub enum Width {
    U8,
    U16,
    U32,
    U64,
}

// What is allowed of a number: at most `most`, or from `from` to `to`.
#[derive(Clone, Copy, PartialEq, Eq, Debug)]
pub struct Limits {
    pub most: u64,
    pub from: u64,
    pub to: u64,
}

// A field that is no list: some bytes; a number within limits; a string, which is document 01's S.
#[derive(Clone, Copy, PartialEq, Eq, Debug)]
pub enum Item {
    Raw { size: usize },
    Num { width: Width, limits: Limits },
    Str,
}

// Document 01's number of a fault.
impl From<Fault> for u64 {
    ghost from_gives = { λ fault n. n ≡ number fault };

    fn from(fault: Fault) -> u64
        ensures { result ≡ number fault }
    {
        match fault {
            Fault::NotWhole => 1,
            Fault::NoSuchVersion => 40,
            Fault::UnknownType => 41,
            Fault::NotInVersion => 42,
            Fault::TooLarge => 43,
            Fault::RunsPast => 44,
            Fault::NotAllowed => 45,
            Fault::BytesAfter => 46,
            Fault::OutputShort => 47,
            Fault::ListsDiffer => 48,
            Fault::NoElement => 49,
            Fault::NoField => 50,
        }
    }
}

impl Limits {
    // A number that is not judged.
    pub const ANY: Limits = Limits {
        most: 0xffff_ffff_ffff_ffff,
        from: 0,
        to: 0,
    };

    // A number that is at most that.
    pub fn at_most(most: u64) -> Limits
        ensures { result ≡ at_most most }
    {
        Limits {
            most,
            from: 0,
            to: 0,
        }
    }

    // Whether a value is allowed.
    #[tactic(auto, unfolding(crate::specs::Values::allowed))]
    pub fn allows(self, value: u64) -> bool
        ensures { result ≡ allowed self value }
    {
        value <= self.most || (self.from <= value && value <= self.to)
    }
}

// How many bytes a width has.
pub fn bytes_in(width: Width) -> usize
    ensures { result ≡ size width }
{
    match width {
        Width::U8 => 1,
        Width::U16 => 2,
        Width::U32 => 4,
        Width::U64 => 8,
    }
}
