// Lists as they are lent: a column for each item of an element, and the test of 48 on them.
#![tactic(auto, unfolding(message_layout::specs::Table::items_of, crate::specs::Lent::agrees, crate::specs::Lent::columns_agree, crate::specs::Lent::column_agrees, crate::specs::Lent::rests, crate::specs::Lent::rest, crate::specs::Lists::service_names, crate::specs::Lists::domains, crate::specs::Lists::services, crate::specs::Lists::queues, crate::specs::Lists::messages), using(crate::proofs::Agree::services_agree_lem, crate::proofs::Agree::queues_agree_lem, crate::proofs::Agree::messages_agree_lem, crate::proofs::Agree::domains_agree_lem, crate::proofs::Agree::names_agree_lem))]

ghost use Rattle.std.specs.Prelude.{◌≡◌, ◌+◌, ℕ, drop, refl};
ghost use Rattle.message_layout.specs.Table.{field_of, items_of, list};
ghost use Rattle.message_layout.specs.declared.Element as of;
ghost use Rattle.message_layout.specs.declared.Element.TheVariants as element;
ghost use Rattle.message_lent.specs.Lent as form;
ghost use Rattle.message_lent.specs.Lent.{Lent, agrees, rests};
ghost use Rattle.message_lent.specs.Lists.{service_names, domains, services, queues, messages};

use crate::strings::{Strings, after, first, rest};
use crate::tests::{numbers_agree, run_agrees};
use message_layout::limits::ID;

// The columns of a list's elements.
pub trait Columns {
    ghost element: { of.Element };

    // The list that they stand for.
    ghost lent: { Self → Lent (field_of (list element)) };

    // The columns of the elements from element i on. Lengths and numbers are lent as those of all elements; strings and ids, as those that are left.
    ghost from: { Self → ℕ → form.Columns (items_of element) };

    // How many elements there are: as many as the first string has lengths.
    fn count(&self) -> usize
        ensures { result ≡ (lent self.now).0 };

    // Whether every column is one of so many elements.
    fn agrees(&self) -> bool
        ensures { result ≡ agrees (field_of (list element)) (lent self.now) };

    // The columns of the elements after the first.
    fn rest(&self) -> Self
        ensures { (lent result).1 ≡ rests (items_of element) (lent self.now).1 };

    // The same lengths and numbers, and the strings and ids after those of element i.
    fn after(&self, i: usize) -> Self
        ensures { from result (i + 1) ≡ rests (items_of element) (from self.now i) };

    // From element 0 on they are all.
    ghost from_front: { (c : Self) → from c 0 ≡ (lent c).1 };
}

// 7300's services, and its queues: names.
impl<'a> Columns for Strings<'a> {
    ghost element = { element.ServiceName };

    ghost lent = { λ s. service_names s.lengths.now s.run.now };

    ghost from = { λ s i. (service_names (drop i s.lengths.now) s.run.now).1 };

    fn count(&self) -> usize {
        self.lengths.len()
    }

    fn agrees(&self) -> bool {
        self.agree(self.lengths.len())
    }

    fn rest(&self) -> Strings<'a> {
        self.after_first()
    }

    fn after(&self, i: usize) -> Strings<'a> {
        self.after_nth(i)
    }

    ghost from_front = { λ c. refl };
}

// 7302's domains.
#[derive(Clone, Copy, Debug)]
pub struct Domains<'a> {
    pub ids: &'a [u8],
    pub names: Strings<'a>,
}

impl<'a> Columns for Domains<'a> {
    ghost element = { element.Domain };

    ghost lent = { λ d. domains d.ids.now d.names.lengths.now d.names.run.now };

    ghost from = { λ d i. (domains d.ids.now (drop i d.names.lengths.now) d.names.run.now).1 };

    fn count(&self) -> usize {
        self.names.lengths.len()
    }

    fn agrees(&self) -> bool {
        let n = self.names.lengths.len();
        run_agrees(n, self.ids) & self.names.agree(n)
    }

    fn rest(&self) -> Domains<'a> {
        Domains {
            ids: after(self.ids, ID as u64),
            names: self.names.after_first(),
        }
    }

    fn after(&self, i: usize) -> Domains<'a> {
        Domains {
            ids: after(self.ids, ID as u64),
            names: self.names.after_nth(i),
        }
    }

    ghost from_front = { λ c. refl };
}

// 7311's services.
#[derive(Clone, Copy, Debug)]
pub struct Services<'a> {
    pub names: Strings<'a>,
    pub categories: Strings<'a>,
    pub modes: &'a [u64],
    pub timeouts: &'a [u64],
    pub hops: &'a [u64],
}

impl<'a> Columns for Services<'a> {
    ghost element = { element.Service };

    ghost lent = { λ s. services s.names.lengths.now s.names.run.now s.categories.lengths.now s.categories.run.now
        s.modes.now s.timeouts.now s.hops.now };

    ghost from = { λ s i. (services (drop i s.names.lengths.now) s.names.run.now (drop i s.categories.lengths.now) s.categories.run.now
        (drop i s.modes.now) (drop i s.timeouts.now) (drop i s.hops.now)).1 };

    fn count(&self) -> usize {
        self.names.lengths.len()
    }

    fn agrees(&self) -> bool {
        let n = self.names.lengths.len();
        self.names.agree(n)
            & self.categories.agree(n)
            & numbers_agree(n, self.modes)
            & numbers_agree(n, self.timeouts)
            & numbers_agree(n, self.hops)
    }

    fn rest(&self) -> Services<'a> {
        Services {
            names: self.names.after_first(),
            categories: self.categories.after_first(),
            modes: rest(self.modes),
            timeouts: rest(self.timeouts),
            hops: rest(self.hops),
        }
    }

    fn after(&self, i: usize) -> Services<'a> {
        Services {
            names: self.names.after_nth(i),
            categories: self.categories.after_nth(i),
            ..*self
        }
    }

    ghost from_front = { λ c. refl };
}

// 7311's queues.
#[derive(Clone, Copy, Debug)]
pub struct Queues<'a> {
    pub names: Strings<'a>,
    pub counts: &'a [u64],
    pub delays: &'a [u64],
    pub enqueues: &'a [u64],
    pub dequeues: &'a [u64],
}

impl<'a> Columns for Queues<'a> {
    ghost element = { element.Queue };

    ghost lent = { λ q. queues q.names.lengths.now q.names.run.now q.counts.now q.delays.now q.enqueues.now q.dequeues.now };

    ghost from = { λ q i. (queues (drop i q.names.lengths.now) q.names.run.now (drop i q.counts.now) (drop i q.delays.now)
        (drop i q.enqueues.now) (drop i q.dequeues.now)).1 };

    fn count(&self) -> usize {
        self.names.lengths.len()
    }

    fn agrees(&self) -> bool {
        let n = self.names.lengths.len();
        self.names.agree(n)
            & numbers_agree(n, self.counts)
            & numbers_agree(n, self.delays)
            & numbers_agree(n, self.enqueues)
            & numbers_agree(n, self.dequeues)
    }

    fn rest(&self) -> Queues<'a> {
        Queues {
            names: self.names.after_first(),
            counts: rest(self.counts),
            delays: rest(self.delays),
            enqueues: rest(self.enqueues),
            dequeues: rest(self.dequeues),
        }
    }

    fn after(&self, i: usize) -> Queues<'a> {
        Queues {
            names: self.names.after_nth(i),
            ..*self
        }
    }

    ghost from_front = { λ c. refl };
}

// 6201's messages.
#[derive(Clone, Copy, Debug)]
pub struct Messages<'a> {
    pub ids: &'a [u8],
    pub properties: Strings<'a>,
    pub replies: Strings<'a>,
    pub availables: &'a [u64],
    pub types: Strings<'a>,
    pub contents: Strings<'a>,
    pub redelivereds: &'a [u64],
    pub timestamps: &'a [u64],
}

impl<'a> Columns for Messages<'a> {
    ghost element = { element.Message };

    ghost lent = { λ m. messages m.ids.now m.properties.lengths.now m.properties.run.now m.replies.lengths.now m.replies.run.now
        m.availables.now m.types.lengths.now m.types.run.now m.contents.lengths.now m.contents.run.now
        m.redelivereds.now m.timestamps.now };

    ghost from = { λ m i. (messages m.ids.now (drop i m.properties.lengths.now) m.properties.run.now (drop i m.replies.lengths.now) m.replies.run.now
        (drop i m.availables.now) (drop i m.types.lengths.now) m.types.run.now (drop i m.contents.lengths.now) m.contents.run.now
        (drop i m.redelivereds.now) (drop i m.timestamps.now)).1 };

    fn count(&self) -> usize {
        self.properties.lengths.len()
    }

    fn agrees(&self) -> bool {
        let n = self.properties.lengths.len();
        run_agrees(n, self.ids)
            & self.properties.agree(n)
            & self.replies.agree(n)
            & numbers_agree(n, self.availables)
            & self.types.agree(n)
            & self.contents.agree(n)
            & numbers_agree(n, self.redelivereds)
            & numbers_agree(n, self.timestamps)
    }

    fn rest(&self) -> Messages<'a> {
        Messages {
            ids: after(self.ids, ID as u64),
            properties: self.properties.after_first(),
            replies: self.replies.after_first(),
            availables: rest(self.availables),
            types: self.types.after_first(),
            contents: self.contents.after_first(),
            redelivereds: rest(self.redelivereds),
            timestamps: rest(self.timestamps),
        }
    }

    fn after(&self, i: usize) -> Messages<'a> {
        Messages {
            ids: after(self.ids, ID as u64),
            properties: self.properties.after_nth(i),
            replies: self.replies.after_nth(i),
            types: self.types.after_nth(i),
            contents: self.contents.after_nth(i),
            ..*self
        }
    }

    ghost from_front = { λ c. refl };
}
