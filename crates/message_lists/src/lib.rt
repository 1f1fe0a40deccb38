// The lists of a message: their counts, and the fields of their elements by role. Each call reads the whole message first.
// Specifications: specs/Elements. Theorems: proofs/Parts (a part's bytes, number and place, as C has them).
#![tactic(auto)]

ghost use Rattle.std.specs.Prelude.{◌≡◌};
ghost use Rattle.message_read.specs.Reading.{reading};
ghost use Rattle.message_fields.specs.Contents.{lent};
ghost use Rattle.message_lists.specs.Elements.{count_of, element_answer, element_value};

use crate::elements::{count_in, element_under};
use message_fields::{Part, Value, under};

pub mod elements;
mod skip;

// How many elements the list of that role has.
pub fn count(message: &[u8], version: u64, list: u64) -> Value
    ensures { result ≡ count_of (reading version message.now) list message.now }
{
    count_in(under(message, version, list)?)
}

// The bytes of a field of element n of a list, or why there are none: NoElement where there is no such element; NoField where
// it has no bytes of that role; the reading's refusal.
pub fn element_part<'a>(message: &'a [u8], version: u64, list: u64, n: u64, role: u64) -> Part<'a>
    ensures { lent result ≡ element_answer (reading version message.now) list n role message.now }
{
    let held = under(message, version, list)?;
    element_under(held, n, role)?.part()
}

// The number of a field of element n of a list.
pub fn element_number(message: &[u8], version: u64, list: u64, n: u64, role: u64) -> Value
    ensures { result ≡ element_value (reading version message.now) list n role message.now }
{
    element_under(under(message, version, list)?, n, role)?.number()
}
