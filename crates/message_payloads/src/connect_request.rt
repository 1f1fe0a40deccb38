// 7200: a domain offers versions.
#![tactic(auto, unfolding(message_lent::specs::Requests::connect_request))]

ghost use Rattle.message_lent.specs.Requests.{connect_request};

use crate::request::Request;
use message_lent::requests::ConnectRequest;
use message_lent::tests::{ids_agree, is_id};
use message_put::lists::put_versions;
use message_put::puts::{put_bytes, put_string};

impl<'a> Request for ConnectRequest<'a> {
    ghost request = { connect_request };

    fn kind(&self) -> u64 {
        7200
    }

    fn correlation(&self) -> &[u8] {
        self.correlation
    }

    fn agrees(&self) -> bool {
        ids_agree(self.correlation, self.execution) & is_id(self.domain_id)
    }

    fn is_allowed(&self) -> bool {
        true
    }

    fn put(&self, out: &mut [u8], at: usize) -> usize {
        let p = put_bytes(out, at, self.execution);
        let p = put_bytes(out, p, self.domain_id);
        let p = put_string(out, p, self.domain_name);
        put_versions(out, p, self.versions)
    }
}
