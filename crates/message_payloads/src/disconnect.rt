// 7202 and 7203: the end of a connection.
#![tactic(auto, unfolding(message_lent::specs::Requests::disconnect_request, message_lent::specs::Requests::disconnect_reply))]

ghost use Rattle.message_lent.specs.Requests.{disconnect_request, disconnect_reply};

use crate::request::Request;
use message_lent::requests::{DisconnectReply, DisconnectRequest};
use message_lent::tests::ids_agree;
use message_put::puts::put_bytes;

// 7202.
impl<'a> Request for DisconnectRequest<'a> {
    ghost request = { disconnect_request };

    fn kind(&self) -> u64 {
        7202
    }

    fn correlation(&self) -> &[u8] {
        self.correlation
    }

    fn agrees(&self) -> bool {
        ids_agree(self.correlation, self.execution)
    }

    fn is_allowed(&self) -> bool {
        true
    }

    fn put(&self, out: &mut [u8], at: usize) -> usize {
        put_bytes(out, at, self.execution)
    }
}

// 7203.
impl<'a> Request for DisconnectReply<'a> {
    ghost request = { disconnect_reply };

    fn kind(&self) -> u64 {
        7203
    }

    fn correlation(&self) -> &[u8] {
        self.correlation
    }

    fn agrees(&self) -> bool {
        ids_agree(self.correlation, self.execution)
    }

    fn is_allowed(&self) -> bool {
        true
    }

    fn put(&self, out: &mut [u8], at: usize) -> usize {
        put_bytes(out, at, self.execution)
    }
}
