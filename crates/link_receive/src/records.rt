// The records of a run.
ghost use Rattle.link_rows.specs.Replies.{done};
ghost use Rattle.link_receive.specs.Inner.{Ready};
ghost use Rattle.link_receive.specs.Run.{run_from, start_of};
ghost use Rattle.link_receive.specs.Ran.{Runs};

use crate::{Ran, step};
use link_rows::{Done, Endpoint};

// At most n records where the tests 2, 3 and 4 are known to pass: an accepted record keeps them passing, so they are not made again.
pub fn records(e: Endpoint, store: &mut [u8], n: usize, bytes: &[u8], out: &mut [u8]) -> Ran
    requires { Ready e store.old }
    ensures { Runs (run_from n (start_of (done 0 0 0) e store.old out.old) bytes.now) result store.new out.new }
{
    let mut endpoint = e;
    let mut accepted: usize = 0;
    let mut used: usize = 0;
    let mut written: usize = 0;
    while (accepted < n) & (used < bytes.len()) {
        match step::step(&mut endpoint, store, &bytes[used..], &mut out[written..]) {
            Err(why) => {
                return Ran {
                    accepted,
                    used,
                    written,
                    stop: Err(why),
                    endpoint,
                };
            }
            Ok(done) => {
                accepted += 1;
                used += done.used;
                written += done.written;
            }
        }
    }
    Ran {
        accepted,
        used,
        written,
        stop: Ok(Done::default()),
        endpoint,
    }
}
