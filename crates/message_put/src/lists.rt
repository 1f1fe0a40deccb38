// Putting a list: the number of its elements, and the elements one after the other.
#![tactic(auto, unfolding(message_layout::specs::Table::items_of, message_lent::specs::Lent::firsts, message_lent::specs::Lent::first, message_lent::specs::Lists::service_names, message_lent::specs::Lists::domains, message_lent::specs::Lists::services, message_lent::specs::Lists::queues, message_lent::specs::Lists::messages, wire::specs::Values::encode_items, wire::specs::Values::encode_item))]

ghost use Rattle.wire.specs.Values.{encode_items};
ghost use Rattle.message_layout.specs.Table.{items_of};
ghost use Rattle.message_layout.specs.declared.Element.TheVariants.{Version};
ghost use Rattle.message_put.specs.Puts.{Put};
ghost use Rattle.message_lent.specs.Lent.{firsts};
ghost use Rattle.message_lent.specs.Lists.{list_bytes, versions};

use crate::puts::{put_bytes, put_number, put_string};
use message_layout::limits::ID;
use message_lent::columns::{Columns, Domains, Messages, Queues, Services};
use message_lent::strings::{Strings, front, nth};
use wire::Width;

// Columns whose elements are put.
pub trait PutFirst: Columns {
    // Element i: its items, one after the other.
    fn put_nth(&self, out: &mut [u8], at: usize, i: usize) -> usize
        ensures { Put (encode_items (items_of Self.element) (firsts (items_of Self.element) (Self.from self.now i))) out.old at out.new result };

    // The first element.
    fn put_first(&self, out: &mut [u8], at: usize) -> usize
        ensures { Put (encode_items (items_of Self.element) (firsts (items_of Self.element) (Self.lent self.now).1)) out.old at out.new result }
    {
        self.put_nth(out, at, 0)
    }
}

// A list that is lent as columns.
pub fn put_list<C: PutFirst + Copy>(out: &mut [u8], at: usize, columns: &C) -> usize
    ensures { Put (list_bytes C.element (C.lent columns.now)) out.old at out.new result }
{
    let n = columns.count();
    let mut p = put_number(out, at, Width::U64, n as u64);
    let mut left = *columns;
    for i in 0..n {
        let after = left.after(i);
        p = left.put_nth(out, p, i);
        left = after;
    }
    p
}

// 7200's versions. Past the end of the output they are counted at once.
pub fn put_versions(out: &mut [u8], at: usize, numbers: &[u64]) -> usize
    ensures { Put (list_bytes Version (versions numbers.now)) out.old at out.new result }
{
    let mut p = put_number(out, at, Width::U64, numbers.len() as u64);
    if out.len() <= p {
        return p.saturating_add(numbers.len() * 8);
    }
    for &number in numbers {
        p = put_number(out, p, Width::U64, number);
    }
    p
}

// 7300: a name.
impl<'a> PutFirst for Strings<'a> {
    fn put_nth(&self, out: &mut [u8], at: usize, i: usize) -> usize {
        put_string(out, at, self.nth(i))
    }
}

// 7302: a domain's id and name.
impl<'a> PutFirst for Domains<'a> {
    fn put_nth(&self, out: &mut [u8], at: usize, i: usize) -> usize {
        let p = put_bytes(out, at, front(self.ids, ID as u64));
        put_string(out, p, self.names.nth(i))
    }
}

// 7311: a service's name, category, transaction mode, timeout and hops.
impl<'a> PutFirst for Services<'a> {
    fn put_nth(&self, out: &mut [u8], at: usize, i: usize) -> usize {
        let p = put_string(out, at, self.names.nth(i));
        let p = put_string(out, p, self.categories.nth(i));
        let p = put_number(out, p, Width::U16, nth(self.modes, i));
        let p = put_number(out, p, Width::U64, nth(self.timeouts, i));
        put_number(out, p, Width::U64, nth(self.hops, i))
    }
}

// 7311: a queue's name, retry count and delay, and whether it enqueues and dequeues.
impl<'a> PutFirst for Queues<'a> {
    fn put_nth(&self, out: &mut [u8], at: usize, i: usize) -> usize {
        let p = put_string(out, at, self.names.nth(i));
        let p = put_number(out, p, Width::U64, nth(self.counts, i));
        let p = put_number(out, p, Width::U64, nth(self.delays, i));
        let p = put_number(out, p, Width::U8, nth(self.enqueues, i));
        put_number(out, p, Width::U8, nth(self.dequeues, i))
    }
}

// 6201: a message's id, properties, reply, time of availability, type, data, redeliveries and time.
impl<'a> PutFirst for Messages<'a> {
    fn put_nth(&self, out: &mut [u8], at: usize, i: usize) -> usize {
        let p = put_bytes(out, at, front(self.ids, ID as u64));
        let p = put_string(out, p, self.properties.nth(i));
        let p = put_string(out, p, self.replies.nth(i));
        let p = put_number(out, p, Width::U64, nth(self.availables, i));
        let p = put_string(out, p, self.types.nth(i));
        let p = put_string(out, p, self.contents.nth(i));
        let p = put_number(out, p, Width::U64, nth(self.redelivereds, i));
        put_number(out, p, Width::U64, nth(self.timestamps, i))
    }
}
