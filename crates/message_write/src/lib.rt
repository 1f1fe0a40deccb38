// Writing a message at an agreed version into a lent output.
// Specifications: message_lent's Requests (the messages as they are lent) and message_verdict's Writing
// (the answer, and the output afterwards). Theorems: message_round_trip.
#![tactic(auto)]

ghost use Rattle.std.specs.Prelude.{◌≡◌, length};
ghost use Rattle.message_verdict.specs.Writing.{writing, written};

use message_payloads::request::{Request, put_header};
use message_verdict::Written;
use message_verdict::order::judge;

// Writes a message of any of the eleven types: counts its payload on an empty output, decides by what
// is lent, and puts the message where nothing refuses it.
pub fn write<R: Request>(out: &mut [u8], version: u64, request: &R) -> Written
    ensures { let q = R.request request.now in (result ≡ writing version q (length out.old))
        × (out.new ≡ written version q out.old) }
{
    let agree = request.agrees();
    let allowed = request.is_allowed();
    let size = request.put(&mut out[..0], 0);
    let used = judge(version, request.kind(), agree, allowed, size, out.len())?;
    let at = put_header(out, request.kind(), request.correlation(), size);
    request.put(out, at);
    Ok(used)
}
