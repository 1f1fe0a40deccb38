// An xid as it is lent.
ghost use Rattle.std.specs.Prelude.{◌≡◌};
ghost use Rattle.message_lent.specs.Lent.{lent_xid, xid_agrees, xid_allowed};

use wire::fields::{BQUAL_MOST, GTRID_MOST};

// Its formatID, its two lengths and its data. With formatID 0 there are none.
#[derive(Clone, Copy, Debug)]
pub struct Xid<'a> {
    pub format: u64,
    pub gtrid: u64,
    pub bqual: u64,
    pub content: &'a [u8],
}

impl Xid<'_> {
    // Whether its lengths sum to its data, of which there is none with formatID 0.
    #[tactic(auto, unfolding(crate::specs::Lent::xid_agrees))]
    pub fn agrees(&self) -> bool
        ensures { result ≡ xid_agrees (lent_xid self.now.format self.now.gtrid self.now.bqual self.now.content.now) }
    {
        let n = self.content.len() as u64;
        self.gtrid <= n && n - self.gtrid == self.bqual && (self.format != 0 || n == 0)
    }

    // Whether each of its lengths is within its limit.
    #[tactic(auto, unfolding(crate::specs::Lent::xid_allowed))]
    pub fn is_allowed(&self) -> bool
        ensures { result ≡ xid_allowed (lent_xid self.now.format self.now.gtrid self.now.bqual self.now.content.now) }
    {
        self.gtrid <= GTRID_MOST && self.bqual <= BQUAL_MOST
    }
}
