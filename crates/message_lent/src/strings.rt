// Strings, numbers and ids that are lent for a list. Each is total: past the end there is nothing, and 0.
ghost use Rattle.std.specs.Prelude.{◌≡◌, take, drop, slice_index_or};
ghost use Rattle.wire.specs.declared.Item.TheVariants.{Str};
ghost use Rattle.message_lent.specs.Lent.{column_agrees};

use crate::tests::sums_to;

// Strings: how long each of them is, and all of them joined.
#[derive(Clone, Copy, Debug)]
pub struct Strings<'a> {
    pub lengths: &'a [u64],
    pub run: &'a [u8],
}

impl<'a> Strings<'a> {
    // Whether they are those of a list of n elements: n lengths, which sum to the bytes lent.
    #[tactic(auto, unfolding(crate::specs::Lent::column_agrees))]
    pub fn agree(&self, n: usize) -> bool
        ensures { result ≡ column_agrees n Str ((self.now.lengths.now, self.now.run.now)) }
    {
        (self.lengths.len() == n) & sums_to(self.lengths, self.run.len())
    }

    // The first.
    pub fn first(&self) -> &'a [u8]
        ensures { result.now ≡ take (slice_index_or self.now.lengths.now 0 0) self.now.run.now }
    {
        front(self.run, first(self.lengths))
    }

    // String i of a list, where the bytes are those of the strings from i on.
    pub fn nth(&self, i: usize) -> &'a [u8]
        ensures { result.now ≡ take (slice_index_or (drop i self.now.lengths.now) 0 0) self.now.run.now }
    {
        front(self.run, nth(self.lengths, i))
    }

    // The same lengths, and the bytes of the strings after string i.
    pub fn after_nth(&self, i: usize) -> Strings<'a>
        ensures lengths { result.lengths.now ≡ self.now.lengths.now }
        ensures run { result.run.now ≡ drop (slice_index_or (drop i self.now.lengths.now) 0 0) self.now.run.now }
    {
        Strings {
            run: after(self.run, nth(self.lengths, i)),
            ..*self
        }
    }

    // Those after the first.
    pub fn after_first(&self) -> Strings<'a>
        ensures lengths { result.lengths.now ≡ drop 1 self.now.lengths.now }
        ensures run { result.run.now ≡ drop (slice_index_or self.now.lengths.now 0 0) self.now.run.now }
    {
        Strings {
            lengths: rest(self.lengths),
            run: after(self.run, first(self.lengths)),
        }
    }
}

// The first number, or 0.
pub fn first(numbers: &[u64]) -> u64
    ensures { result ≡ slice_index_or numbers.now 0 0 }
{
    numbers.first().copied().unwrap_or(0)
}

// Number i, or 0.
pub fn nth(numbers: &[u64], i: usize) -> u64
    ensures { result ≡ slice_index_or (drop i numbers.now) 0 0 }
{
    numbers.get(i).copied().unwrap_or(0)
}

// The numbers after the first.
pub fn rest<'a>(numbers: &'a [u64]) -> &'a [u64]
    ensures { result.now ≡ drop 1 numbers.now }
{
    &numbers[1.min(numbers.len())..]
}

// The first n bytes, or as many as there are.
pub fn front<'a>(run: &'a [u8], n: u64) -> &'a [u8]
    ensures { result.now ≡ take n run.now }
{
    &run[..n.min(run.len() as u64) as usize]
}

// The bytes after the first n.
pub fn after<'a>(run: &'a [u8], n: u64) -> &'a [u8]
    ensures { result.now ≡ drop n run.now }
{
    &run[n.min(run.len() as u64) as usize..]
}
