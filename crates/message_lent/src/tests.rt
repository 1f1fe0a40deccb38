// The tests of 48 and 45 on what is lent.
ghost use Rattle.std.specs.Prelude.{◌≡◌, ◌&&◌, ◌^◌, length, eqb, ltb};
ghost use Rattle.wire.specs.Layout.{size};
ghost use Rattle.wire.specs.declared.Item.TheVariants.{Raw, Str};
ghost use Rattle.message_lent.specs.Lent.{sum, column_agrees, lent_xid, xid_agrees, xid_allowed, judged, all_judged};

use message_layout::limits::ID;
use wire::{Limits, Width};

// One id.
pub fn is_id(s: &[u8]) -> bool
    ensures { result ≡ eqb (length s.now) 16 }
{
    s.len() == ID
}

// The correlation and the execution id.
pub fn ids_agree(correlation: &[u8], execution: &[u8]) -> bool
    ensures { result ≡ (eqb (length correlation.now) 16 && eqb (length execution.now) 16) }
{
    is_id(correlation) & is_id(execution)
}

// Whether lengths sum to that many bytes: each is taken off what is left, so that nothing wraps.
#[tactic(auto, using(crate::proofs::Judging::sum_over, crate::proofs::Judging::sum_less, crate::proofs::Judging::sum_all))]
pub fn sums_to(lengths: &[u64], bytes: usize) -> bool
    ensures { result ≡ eqb (sum lengths.now) bytes }
{
    let mut left = bytes as u64;
    for &n in lengths {
        if left < n {
            return false;
        }
        left -= n;
    }
    left == 0
}

// The ids of a list of n elements: 16 bytes an id.
#[tactic(auto, using(crate::proofs::Judging::run_odd, crate::proofs::Judging::run_whole))]
pub fn run_agrees(n: usize, run: &[u8]) -> bool
    ensures { result ≡ column_agrees n (Raw 16) run.now }
{
    run.len() % ID == 0 && run.len() / ID == n
}

// The numbers of a list of n elements.
pub fn numbers_agree(n: usize, list: &[u64]) -> bool
    ensures { result ≡ eqb (length list.now) n }
{
    list.len() == n
}

// Whether a number fits its width.
fn fits(width: Width, value: u64) -> bool
    ensures { result ≡ ltb value (256 ^ size width) }
{
    match width {
        Width::U8 => value < 0x100,
        Width::U16 => value < 0x1_0000,
        Width::U32 => value < 0x1_0000_0000,
        Width::U64 => true,
    }
}

// Whether a number that is judged fits its width and is within its limits.
#[tactic(auto, unfolding(crate::specs::Lent::judged))]
pub fn number_allowed(width: Width, limits: Limits, value: u64) -> bool
    ensures { result ≡ judged width limits value }
{
    limits.most == Limits::ANY.most || (fits(width, value) && limits.allows(value))
}

// Whether each number of a list is within the limits.
#[tactic(auto, unfolding(crate::specs::Lent::all_judged))]
pub fn all_allowed(width: Width, limits: Limits, list: &[u64]) -> bool
    ensures { result ≡ all_judged width limits list.now }
{
    list.iter()
        .all(|&value| number_allowed(width, limits, value))
}
