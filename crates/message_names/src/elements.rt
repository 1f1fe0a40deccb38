// The names of the fields of each kind of list element: of each field, the names of its pieces.
ghost use Rattle.std.specs.Prelude.{◌≡◌};
ghost use Rattle.message_layout.specs.Table.{item_entries, item_fields};
ghost use Rattle.message_names.specs.Names.{told, names_in};

use message_layout::Element;

// The names of an element's fields.
pub fn element_names(element: Element) -> &'static [&'static [&'static str]]
    ensures { told result ≡ names_in (item_fields (item_entries element)) }
{
    match element {
        Element::Version => &[&["protocol.versions.element"]],
        Element::ServiceName => {
            &[&[
                "content.services.element.size",
                "content.services.element.data",
            ]]
        }
        Element::QueueName => &[&["content.queues.element.size", "content.queues.element.data"]],
        Element::Domain => &[
            &["domains.element.id"],
            &["domains.element.name.size", "domains.element.name.data"],
        ],
        Element::Service => &[
            &[
                "content.services.element.name.size",
                "content.services.element.name.data",
            ],
            &[
                "content.services.element.category.size",
                "content.services.element.category.data",
            ],
            &["content.services.element.transaction"],
            &["content.services.element.timeout.duration"],
            &["content.services.element.hops"],
        ],
        Element::Queue => &[
            &[
                "content.queues.element.name.size",
                "content.queues.element.name.data",
            ],
            &["content.queues.element.retry.count"],
            &["content.queues.element.retry.delay"],
            &["content.queues.element.enable.enqueue"],
            &["content.queues.element.enable.dequeue"],
        ],
        Element::Message => &[
            &["message.element.id"],
            &[
                "message.element.attributes.properties.size",
                "message.element.attributes.properties.data",
            ],
            &[
                "message.element.attributes.reply.size",
                "message.element.attributes.reply.data",
            ],
            &["message.element.attributes.available"],
            &[
                "message.element.payload.type.size",
                "message.element.payload.type.data",
            ],
            &[
                "message.element.payload.data.size",
                "message.element.payload.data.data",
            ],
            &["message.element.redelivered"],
            &["message.element.timestamp"],
        ],
    }
}
