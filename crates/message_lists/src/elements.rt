// The elements of a list that was found.
ghost use Rattle.std.specs.Prelude.{◌≡◌, ◌+◌, drop};
ghost use Rattle.message_layout.specs.Table.{items_of};
ghost use Rattle.message_fields.specs.Contents.{content_count};
ghost use Rattle.message_fields.specs.Fields.{content_at, seen};
ghost use Rattle.message_lists.specs.Elements.{from_element, element_at, element_sought};

use crate::skip::skip;
use message_fields::seek::{find, within};
use message_fields::{Found, Held, Value};
use message_layout::{Element, Source};
use wire::numbers::number_at;
use wire::{Fault, Refused, Width};

// That there is no such list, or no such element in it.
const NO_ELEMENT: Refused = Refused {
    fault: Fault::NoElement,
    place: 0,
};

// The count of a list.
pub fn count_in(held: Held<'_>) -> Value
    ensures { result ≡ content_count (content_at held.entry.found held.entry.bytes.now) }
{
    match held.found {
        Some(Found::List { element: _, place }) => Ok(number_at(held.bytes, place, Width::U64)),
        _ => Err(NO_ELEMENT),
    }
}

// What element n of a list holds under a role.
pub fn element_under<'a>(list: Held<'a>, n: u64, role: u64) -> Result<Held<'a>, Refused>
    ensures { seen result ≡ element_sought list.entry.found n role list.entry.bytes.now }
{
    let Some(Found::List { element, place }) = list.found else {
        return Err(NO_ELEMENT);
    };
    if n >= number_at(list.bytes, place, Width::U64) {
        return Err(NO_ELEMENT);
    }
    let bytes = element_at(list.bytes, element, place, n);
    let found = find(bytes, Source::Element { element }, role);
    Ok(Held { bytes, found })
}

// The bytes from element n on, of a list whose count stands at a place.
pub fn element_at<'a>(s: &'a [u8], kind: Element, place: usize, n: u64) -> &'a [u8]
    ensures { result.now ≡ element_at kind place n s.now }
{
    from_element(&s[within(s, place, 8)..], kind, n)
}

// The bytes from element n on, of elements that stand at the front of those given: of what follows the first one, those from
// element n - 1 on. Where no bytes are left it stops, whatever n is: every element takes at least eight bytes, so the calls, one
// in the other, are at most an eighth of the bytes lent, and two. That is tested on where the first one ends, so that a step's length
// is a difference, and not the smaller of two.
pub fn from_element<'a>(elements: &'a [u8], kind: Element, n: u64) -> &'a [u8]
    ensures { result.now ≡ from_element n (items_of kind) elements.now }
{
    if n == 0 {
        return elements;
    }
    let end = skip(elements, kind);
    if end == elements.len() {
        return &elements[end..];
    }
    from_element(&elements[end..], kind, n - 1)
}
