// Stepping past an element of a list that was accepted: places by the layout alone, which need no outcome. A place past the end counts as the
// end. Each kind of element is spelled out: one loop over the row of message_layout took two to three times the instructions.
ghost use Rattle.std.specs.Prelude.{◌≡◌};
ghost use Rattle.wire.specs.Decoding.{after_item, after_items};
ghost use Rattle.wire.specs.declared.Item.TheVariants.{Str};
ghost use Rattle.message_layout.specs.Table.{items_of};
ghost use Rattle.message_layout.specs.declared.Element.TheVariants.{Service, Queue, Message};
ghost use Rattle.message_fields.specs.Fields.{within};

use message_fields::seek::within;
use message_layout::Element;
use message_layout::limits::ID;
use wire::Width;
use wire::numbers::number_at;

// The place after the first element of some.
pub fn skip(s: &[u8], kind: Element) -> usize
    ensures { result ≡ within s.now (after_items (items_of kind) s.now 0) }
{
    match kind {
        Element::Version => within(s, 0, 8),
        Element::ServiceName | Element::QueueName => after_string(s, 0),
        Element::Domain => after_string(s, within(s, 0, ID)),
        Element::Service => after_service(s),
        Element::Queue => after_queue(s),
        Element::Message => after_message(s),
    }
}

// The place after a string.
fn after_string(s: &[u8], at: usize) -> usize
    ensures { result ≡ within s.now (after_item Str s.now at) }
{
    let size = number_at(s, at, Width::U64);
    within(s, at.saturating_add(8), size as usize)
}

fn after_service(s: &[u8]) -> usize
    ensures { result ≡ within s.now (after_items (items_of Service) s.now 0) }
{
    let name = after_string(s, 0);
    let category = after_string(s, name);
    within(s, category, 2 + 8 + 8)
}

fn after_queue(s: &[u8]) -> usize
    ensures { result ≡ within s.now (after_items (items_of Queue) s.now 0) }
{
    let name = after_string(s, 0);
    within(s, name, 8 + 8 + 1 + 1)
}

fn after_message(s: &[u8]) -> usize
    ensures { result ≡ within s.now (after_items (items_of Message) s.now 0) }
{
    let id = within(s, 0, ID);
    let properties = after_string(s, id);
    let reply = after_string(s, properties);
    let available = within(s, reply, 8);
    let data_type = after_string(s, available);
    let data = after_string(s, data_type);
    within(s, data, 8 + 8)
}
