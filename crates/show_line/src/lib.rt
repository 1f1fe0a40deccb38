// The line of the program show: what reading a message at version 1004 answers.
#![tactic(auto)]

ghost use Rattle.message_read.specs.Reading.{reading};
ghost use Rattle.text.specs.Puts.{Line};
ghost use Rattle.show_line.specs.Lines.{show_line};

use message_read::{Accepted, Reading, read};
use text::put_two_numbers;
use wire::Refused;

// The line of a reading.
#[tactic(auto, unfolding(crate::specs::Lines::show_line))]
fn put_reading(out: &mut [u8; 160], answer: Reading) -> usize
    ensures { Line (show_line answer) out.old out.new result }
{
    match answer {
        Ok(Accepted { kind, used }) => {
            put_two_numbers(out, b"answer 0 type ", kind, b" used ", used as u64)
        }
        Err(Refused { fault, place }) => {
            put_two_numbers(out, b"answer ", fault.into(), b" place ", place as u64)
        }
    }
}

// Puts the line of a message, which is decoded at version 1004, to the front of the buffer; how many bytes it has.
pub fn put_line(out: &mut [u8; 160], message: &[u8]) -> usize
    ensures { Line (show_line (reading 1004 message.now)) out.old out.new result }
{
    put_reading(out, read(message, 1004))
}
