// What the program play does with its input, and the line that it prints.
#![tactic(auto)]

ghost use Rattle.std.specs.Prelude.{◌≡◌};
ghost use Rattle.link_rows.specs.Replies.{number_of};
ghost use Rattle.link_receive.specs.Ran.{Runs};
ghost use Rattle.text.specs.Puts.{Line};
ghost use Rattle.link_play.specs.Playing.{playing, ran_line, play_line};

use link_calls::make;
use link_receive::{Ran, run};
use link_rows::number;
use text::put_two_numbers;

const MOST_RECORDS: usize = 65536;

// A run of the bytes over a fresh endpoint that did not begin the link.
#[tactic(auto, unfolding(crate::specs::Playing::playing))]
pub fn play(store: &mut [u8], bytes: &[u8], out: &mut [u8]) -> Ran
    ensures { Runs (playing store.old bytes.now out.old) result store.new out.new }
{
    let made = make(false, store);
    run(made.endpoint, store, MOST_RECORDS, bytes, out)
}

// The line of what a run reports.
fn put_ran(line: &mut [u8; 160], ran: Ran) -> usize
    ensures { Line (ran_line ran.accepted (number_of ran.stop)) line.old line.new result }
{
    let accepted = ran.accepted as u64;
    let stopped = u64::from(number(ran.stop));
    put_two_numbers(line, b"accepted ", accepted, b" answer ", stopped)
}

// Plays the bytes, and puts the line of that run to the front of a buffer; how many bytes it has.
pub fn put_line(line: &mut [u8; 160], store: &mut [u8], bytes: &[u8], out: &mut [u8]) -> usize
    ensures line { Line (play_line (playing store.old bytes.now out.old)) line.old line.new result }
    ensures store_after { store.new ≡ (playing store.old bytes.now out.old).store }
    ensures out_after { out.new ≡ (playing store.old bytes.now out.old).out }
{
    put_ran(line, play(store, bytes, out))
}
