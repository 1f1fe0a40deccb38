// The values of fields at a place of a slice, as parts of it or as numbers.
ghost use Rattle.std.specs.Prelude.{◌≡◌, take, drop};
ghost use Rattle.wire.specs.Layout.{xid};
ghost use Rattle.wire.specs.Decoding.{field_at};
ghost use Rattle.wire.specs.Contents.{data_of, xid_number};

use crate::Width;
use crate::numbers::number_at;

// The numbers of an xid.
#[derive(Clone, Copy, PartialEq, Eq, Debug)]
pub enum XidNumber {
    FormatId,
    GtridLength,
    BqualLength,
}

// The bytes of an xid that stand before its data: its formatID and its two lengths.
pub const XID_HEAD: usize = 24;

// n bytes from a place on, or as many as there are.
pub fn part_at(s: &[u8], at: usize, n: usize) -> &[u8]
    ensures { result.now ≡ take n (drop at s.now) }
{
    let rest = &s[at.min(s.len())..];
    &rest[..n.min(rest.len())]
}

// The data of an xid; none where its formatID is 0.
pub fn xid_data(s: &[u8], at: usize) -> &[u8]
    ensures { result.now ≡ data_of (field_at xid s.now at) }
{
    if number_at(s, at, Width::U64) == 0 {
        return &[];
    }
    let g = number_at(s, at + 8, Width::U64);
    let b = number_at(s, at + 8 + 8, Width::U64);
    part_at(s, at + XID_HEAD, g.saturating_add(b) as usize)
}

// A number of an xid; all are 0 where its formatID is 0.
pub fn xid_number(s: &[u8], at: usize, which: XidNumber) -> u64
    ensures { result ≡ xid_number which (field_at xid s.now at) }
{
    let format = number_at(s, at, Width::U64);
    if format == 0 {
        return 0;
    }
    match which {
        XidNumber::FormatId => format,
        XidNumber::GtridLength => number_at(s, at + 8, Width::U64),
        XidNumber::BqualLength => number_at(s, at + 8 + 8, Width::U64),
    }
}
