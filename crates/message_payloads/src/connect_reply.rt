// 7201: the version that was chosen.
#![tactic(auto, unfolding(message_lent::specs::Requests::connect_reply))]

ghost use Rattle.message_lent.specs.Requests.{connect_reply};

use crate::request::Request;
use message_layout::limits::CHOSEN_VERSION;
use message_lent::requests::ConnectReply;
use message_lent::tests::{ids_agree, is_id, number_allowed};
use message_put::puts::{put_bytes, put_number, put_string};
use wire::Width;

impl<'a> Request for ConnectReply<'a> {
    ghost request = { connect_reply };

    fn kind(&self) -> u64 {
        7201
    }

    fn correlation(&self) -> &[u8] {
        self.correlation
    }

    fn agrees(&self) -> bool {
        ids_agree(self.correlation, self.execution) & is_id(self.domain_id)
    }

    fn is_allowed(&self) -> bool {
        number_allowed(Width::U64, CHOSEN_VERSION, self.version)
    }

    fn put(&self, out: &mut [u8], at: usize) -> usize {
        let p = put_bytes(out, at, self.execution);
        let p = put_bytes(out, p, self.domain_id);
        let p = put_string(out, p, self.domain_name);
        put_number(out, p, Width::U64, self.version)
    }
}
