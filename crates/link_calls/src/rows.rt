// What our calls make of a row, where the numbers are known to fit.
ghost use Rattle.std.specs.Prelude.{◌≡◌, ◌+◌, ◌≤◌, ◌<◌};
ghost use Rattle.link_changes.specs.Changes.{granted_row, spent_row, read_row};

use link_rows::Row;

pub fn granted(r: Row, n: u32) -> Row
    requires { r.input + n < 4294967296 }
    ensures { result ≡ granted_row r n }
{
    Row {
        input: r.input + n,
        ..r
    }
}

pub fn spent(r: Row, n: u32) -> Row
    requires { n ≤ r.output }
    ensures { result ≡ spent_row r n }
{
    Row {
        output: r.output - n,
        ..r
    }
}

pub fn less(r: Row, n: usize) -> Row
    requires { n ≤ r.unread }
    ensures { result ≡ read_row r n }
{
    Row {
        unread: r.unread - (n as u32),
        ..r
    }
}
