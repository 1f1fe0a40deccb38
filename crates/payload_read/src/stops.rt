// What reading comes to from where passing over the fields stopped: the field that is refused is read once more, for its fault and place.
ghost use Rattle.std.specs.Prelude.{◌≡◌};
ghost use Rattle.payload_read.specs.Outcomes.{shape_outcome, outcome_of};
ghost use Rattle.payload_read.specs.declared.Shape.TheVariants.{Number};

use crate::{Passed, Shape};
use wire::fields::{bytes_field, string_field, xid_field};
use wire::{Fault, Outcome, Refused, Width, bytes_in};

// What reading comes to.
#[tactic(auto, unfolding(crate::specs::Outcomes::outcome_of))]
pub fn stop_outcome(s: &[u8], passed: Passed) -> Outcome
    ensures { result ≡ outcome_of s.now passed }
{
    passed.or_else(|stop| shape_outcome(s, stop.shape, stop.start))
}

// What a field of that shape comes to, where it is refused.
fn shape_outcome(s: &[u8], shape: Shape, start: usize) -> Outcome
    ensures { result ≡ shape_outcome shape s.now start }
{
    match shape {
        Shape::Bytes { size } => bytes_field(s, Ok(start), size),
        Shape::Number { width } => number_outcome(s, width, start),
        Shape::Str => string_field(s, Ok(start)),
        Shape::Xid => xid_field(s, Ok(start)),
    }
}

// A number that is refused runs past, or its value is not allowed.
fn number_outcome(s: &[u8], width: Width, start: usize) -> Outcome
    ensures { result ≡ shape_outcome (Number width) s.now start }
{
    bytes_field(s, Ok(start), bytes_in(width))?;
    Err(Refused {
        fault: Fault::NotAllowed,
        place: start,
    })
}
