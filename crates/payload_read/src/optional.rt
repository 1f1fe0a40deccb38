// The items of an element, one after the other, by the table: the part that follows a flag. It is read once in a message, so it need not be as
// fast as the elements of a list; and it does not call `element`, which stands in line where it is called.
ghost use Rattle.std.specs.Prelude.{◌≡◌};
ghost use Rattle.wire.specs.Reading.{read_items};
ghost use Rattle.message_layout.specs.Table.{items_of};
ghost use Rattle.payload_read.specs.Inner.{read_one};

use message_layout::elements::row_of;
use message_layout::{Element, Kind, Source};
use wire::Outcome;
use wire::fields::item_field;

// The items of an element.
pub fn items(s: &[u8], o: Outcome, element: Element) -> Outcome
    ensures { result ≡ read_items (items_of element) s.now o }
{
    let mut o = o;
    for field in row_of(Source::Element { element }) {
        o = one_item(s, o, field.kind);
    }
    o
}

// A field of an element, which is one item.
fn one_item(s: &[u8], o: Outcome, kind: Kind) -> Outcome
    ensures { result ≡ read_one kind s.now o }
{
    match kind {
        Kind::One { item } => item_field(s, o, item),
        Kind::List { element: _ } | Kind::Optional { element: _ } | Kind::Xid => o,
    }
}
