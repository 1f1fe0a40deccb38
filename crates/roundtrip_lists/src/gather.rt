// What a message says, gathered into the form that a writer takes.
ghost use Rattle.std.specs.Prelude.{◌≤◌};

use message_lent::strings::Strings;
use message_lists::{count, element_number, element_part};
use roundtrip_report::{bytes, value};

// As many elements as a list of these messages can have.
const MOST: usize = 8;

// How many elements a list has, at most so many.
fn elements(m: &[u8], v: u64, list: u64) -> usize
    ensures { result ≤ 8 }
{
    value(count(m, v, list)).min(MOST as u64) as usize
}

// The numbers of a role, one of each element.
#[derive(Clone, Copy, Debug)]
pub struct Numbers {
    count: usize,
    numbers: [u64; MOST],
}

impl Numbers {
    pub fn of(m: &[u8], v: u64, list: u64, role: u64) -> Numbers {
        let count = elements(m, v, list);
        let mut numbers = [0u64; MOST];
        for i in 0..count {
            numbers[i] = value(element_number(m, v, list, i as u64, role));
        }
        Numbers { count, numbers }
    }

    pub fn lent(&self) -> &[u64] {
        &self.numbers[..self.count.min(MOST)]
    }
}

// The bytes of a role: how many each element has, and those of all elements joined.
#[derive(Clone, Copy, Debug)]
pub struct Joined {
    count: usize,
    lengths: [u64; MOST],
    size: usize,
    run: [u8; 128],
}

impl Joined {
    pub fn of(m: &[u8], v: u64, list: u64, role: u64) -> Joined {
        let count = elements(m, v, list);
        let mut lengths = [0u64; MOST];
        let mut size = 0;
        let mut run = [0u8; 128];
        for i in 0..count {
            let part = bytes(element_part(m, v, list, i as u64, role));
            lengths[i] = part.len() as u64;
            for &byte in part {
                if size < 128 {
                    run[size] = byte;
                    size += 1;
                }
            }
        }
        Joined {
            count,
            lengths,
            size,
            run,
        }
    }

    // Ids, which are lent with no lengths.
    pub fn ids(&self) -> &[u8] {
        &self.run[..self.size.min(128)]
    }

    pub fn lent<'a>(&'a self) -> Strings<'a> {
        Strings {
            lengths: &self.lengths[..self.count.min(MOST)],
            run: &self.run[..self.size.min(128)],
        }
    }
}
