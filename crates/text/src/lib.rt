// Lines of text, put into a lent buffer: words, and numbers in decimal. Every put is total: a byte past the end of the buffer is left
// out.
// Specifications: specs/Text (the bytes of words and numbers), specs/Puts and specs/Cursors (what a put does), specs/Same (equal bytes).
#![tactic(auto)]

ghost use Rattle.std.specs.Prelude.{◌≡◌, ◌+◌, ◌≤◌, length, take};
ghost use Rattle.text.specs.Text.{decimal, two_numbers};
ghost use Rattle.text.specs.Puts.{Put, Line};
ghost use Rattle.text.specs.Same.{same_bytes};

mod cursor;

pub use cursor::Cursor;

// Bytes onto as many others, one by one: an archive for C with `copy_from_slice` here would need memmove from outside.
fn copy(to: &mut [u8], from: &[u8])
    requires { length to.old ≡ length from.now }
    ensures { to.new ≡ from.now }
{
    for i in 0..from.len() {
        to[i] = from[i];
    }
}

// Words, or any bytes as they are. Where all of them fit, a literal is stored in a few moves.
pub fn put_text(out: &mut [u8], at: usize, text: &[u8]) -> usize
    ensures { Put text.now out.old at out.new result }
{
    let start = at.min(out.len());
    let room = out.len() - start;
    if text.len() <= room {
        let end = start + text.len();
        copy(&mut out[start..end], text);
        return end;
    }
    copy(&mut out[start..], &text[..room]);
    out.len()
}

// A number in decimal: the digits of its tenth part, and its last one.
pub fn put_decimal(out: &mut [u8], at: usize, n: u64) -> usize
    ensures { Put (decimal n) out.old at out.new result }
{
    let at = if n < 10 {
        at
    } else {
        put_decimal(out, at, n / 10)
    };
    put_text(out, at, &[b'0' + (n % 10) as u8])
}

// A line with two numbers, each behind its words; how many bytes it has. It is whole where the words have at most 119 bytes.
pub fn put_two_numbers(out: &mut [u8; 160], before: &[u8], n: u64, between: &[u8], m: u64) -> usize
    ensures put { Put (two_numbers before.now n between.now m) out.old 0 out.new result }
    ensures line { length before.now + length between.now ≤ 119 → Line (two_numbers before.now n between.now m) out.old out.new result }
{
    let mut line = Cursor { out, at: 0 };
    line.text(before);
    line.number(n);
    line.text(between);
    line.number(m);
    line.text(b"\n");
    line.at
}

// The first n bytes of a buffer for lines, or as many as there are.
pub fn first<'a>(line: &'a [u8; 160], n: usize) -> &'a [u8]
    ensures { result.now ≡ take n line.now }
{
    &line[..n.min(line.len())]
}

// Whether two runs of bytes are the same.
pub fn same(a: &[u8], b: &[u8]) -> bool
    ensures { result ≡ same_bytes a.now b.now }
{
    a == b
}
