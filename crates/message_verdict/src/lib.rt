// The answer to a writing: the order of its tests, and the part of the output that it wrote.
// Specifications: specs/Writing (the tests in document 01's order, the output afterwards).
#![tactic(auto)]

ghost use Rattle.std.specs.Prelude.{◌≡◌};
ghost use Rattle.message_verdict.specs.Writing.{part_of};

use wire::Fault;

pub mod order;

// What writing comes to: how many bytes the message has, or why it is refused.
pub type Written = Result<usize, Fault>;

// The part of an output that a writer wrote, by its answer; empty at a refusal.
pub fn part_written<'a>(out: &'a [u8], answer: Written) -> &'a [u8]
    ensures { result.now ≡ part_of answer out.now }
{
    match answer {
        Ok(used) => &out[..used.min(out.len())],
        Err(_) => &[],
    }
}
