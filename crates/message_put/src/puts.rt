// Putting one item: bytes one after the other. Past the end of the output they are only counted.
ghost use Rattle.std.specs.Prelude.{◌≡◌, length};
ghost use Rattle.wire.specs.Layout.{size};
ghost use Rattle.wire.specs.Numbers.{bytes_of};
ghost use Rattle.wire.specs.Values.{encode_item};
ghost use Rattle.wire.specs.declared.Item.TheVariants.{Str};
ghost use Rattle.wire.specs.Values.{encode_field};
ghost use Rattle.wire.specs.Layout.{xid};
ghost use Rattle.message_lent.specs.Lent.{lent_xid, xid_lent};
ghost use Rattle.message_put.specs.Puts.{Put};

use message_layout::limits::ID;
use message_lent::xid::Xid;
use wire::{Width, bytes_in};

// Bytes onto as many others, one by one: an archive for C with `copy_from_slice` here would need memmove from outside.
fn copy(to: &mut [u8], from: &[u8])
    requires { length to.old ≡ length from.now }
    ensures { to.new ≡ from.now }
{
    for i in 0..from.len() {
        to[i] = from[i];
    }
}

// Bytes as they are. Those past the end of the output are only counted.
fn put_run(out: &mut [u8], at: usize, s: &[u8]) -> usize
    ensures { Put s.now out.old at out.new result }
{
    if out.len() <= at {
        return at.saturating_add(s.len());
    }
    let room = out.len() - at;
    if s.len() <= room {
        let end = at + s.len();
        copy(&mut out[at..end], s);
        return end;
    }
    copy(&mut out[at..], &s[..room]);
    at.saturating_add(s.len())
}

// The same, with a shorter way for an id: its length is known, and the compiler copies it at once.
pub fn put_bytes(out: &mut [u8], at: usize, s: &[u8]) -> usize
    ensures { Put s.now out.old at out.new result }
{
    if s.len() == ID {
        put_run(out, at, &s[..ID])
    } else {
        put_run(out, at, s)
    }
}

// A number of that width: its lowest bytes, the highest first.
#[tactic(auto, using(crate::proofs::Chain::low_bytes))]
pub fn put_number(out: &mut [u8], at: usize, width: Width, n: u64) -> usize
    ensures { Put (bytes_of (size width) n) out.old at out.new result }
{
    put_run(out, at, &n.to_be_bytes()[8 - bytes_in(width)..])
}

// A string: its size and its bytes.
pub fn put_string(out: &mut [u8], at: usize, s: &[u8]) -> usize
    ensures { Put (encode_item Str s.now) out.old at out.new result }
{
    let p = put_number(out, at, Width::U64, s.len() as u64);
    put_run(out, p, s)
}

// An xid: its formatID, and where that is not 0 its two lengths and its data.
pub fn put_xid(out: &mut [u8], at: usize, x: &Xid) -> usize
    ensures { Put (encode_field xid (xid_lent (lent_xid x.now.format x.now.gtrid x.now.bqual x.now.content.now))) out.old at out.new result }
{
    let p = put_number(out, at, Width::U64, x.format);
    if x.format == 0 {
        return p;
    }
    let p = put_number(out, p, Width::U64, x.gtrid);
    let p = put_number(out, p, Width::U64, x.bqual);
    put_run(out, p, x.content)
}
