// The number that bytes hold. A private module: what it asks of its caller is met in `numbers`.
ghost use Rattle.std.specs.Prelude.{◌≡◌, ◌≤◌, length};
ghost use Rattle.wire.specs.Numbers.{be};

// The number of at most eight bytes, the highest byte first.
pub fn join(bytes: &[u8]) -> u64
    requires { length bytes.now ≤ 8 }
    ensures { result ≡ be bytes.now }
{
    // Eight, which most numbers have: a load and a swap of its bytes in the machine code.
    if let &[a, b, c, d, e, f, g, h] = bytes {
        return u64::from_be_bytes([a, b, c, d, e, f, g, h]);
    }
    let mut value: u64 = 0;
    for &byte in bytes {
        value = value * 256 + u64::from(byte);
    }
    value
}
