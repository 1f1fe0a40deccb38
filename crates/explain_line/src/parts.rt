// A reason in numbers.
ghost use Rattle.std.specs.Prelude.{◌≡◌};
ghost use Rattle.explain_line.specs.Parts.{numbers_of, numbers_in};

use message_walk::{Detail, Reason};

// Document 01's number, or 0 where a message is accepted; which parts of the reason apply, as the sum of 1 for the field, 2 for the element, 4
// for needed and had, 8 for the value, 16 for the bytes left over; and these parts, 0 where one does not apply: the element that the field is
// in, the bytes that the field needs and those that are there, the value found, the bytes left over.
#[derive(Clone, Copy, PartialEq, Eq, Debug)]
pub struct Numbers {
    pub number: u64,
    pub parts: u64,
    pub element: u64,
    pub needed: u64,
    pub had: u64,
    pub value: u64,
    pub left: u64,
}

impl Numbers {
    // Those of an accepted message.
    const NONE: Numbers = Numbers {
        number: 0,
        parts: 0,
        element: 0,
        needed: 0,
        had: 0,
        value: 0,
        left: 0,
    };

    // Those of a reason.
    pub fn of(reason: Option<Reason>) -> Numbers
        ensures { result ≡ numbers_of reason }
    {
        let Some(reason) = reason else {
            return Numbers::NONE;
        };
        let numbers = Numbers::in_detail(reason.detail);
        let field = u64::from(reason.field.is_some());
        let element = 2 * u64::from(reason.index.is_some());
        Numbers {
            number: u64::from(reason.fault),
            parts: field + element + numbers.parts,
            element: reason.index.unwrap_or(0),
            ..numbers
        }
    }

    // Those of what is wrong.
    fn in_detail(detail: Detail) -> Numbers
        ensures { result ≡ numbers_in detail }
    {
        match detail {
            Detail::Room { needed, had } => Numbers {
                parts: 4,
                needed: needed as u64,
                had: had as u64,
                ..Numbers::NONE
            },
            Detail::Value { value } => Numbers {
                parts: 8,
                value,
                ..Numbers::NONE
            },
            Detail::Left { left } => Numbers {
                parts: 16,
                left: left as u64,
                ..Numbers::NONE
            },
        }
    }
}
