// An endpoint as C lends it: 163 numbers, began, down and last, then status, session, input, output and unread of each row.
ghost use Rattle.std.specs.Prelude.{◌≡◌, ◌++◌, map, ◌+◌, ◌≤◌, length, take, drop};
ghost use Rattle.std.specs.List.{list_all};
ghost use Rattle.boundary_link.specs.Mirror.{number_count, status_number, status_of, row_numbers, row_in, rows_in, is_row, is_endpoint, as_endpoint, broken, endpoint_in, numbers_of, numbers_after, joined};

use link_rows::{Endpoint, Record, Row, Status};

pub const NUMBERS: usize = 163;
// The numbers before the rows, and of a row.
const FIRST: usize = 3;

const ROW_NUMBERS: usize = 5;

// A status as a number, and back: the numbers are this boundary's, and Status is another crate's, so these are no From and TryFrom.
fn status_number(s: Status) -> u32
    ensures { result ≡ status_number s }
{
    match s {
        Status::Closed => 0,
        Status::Open => 1,
        Status::Pending => 2,
    }
}

fn status_of(n: u32) -> Status
    ensures { result ≡ status_of n }
{
    match n {
        0 => Status::Closed,
        1 => Status::Open,
        _ => Status::Pending,
    }
}

// A row as five numbers, and back.
fn row_numbers(r: Row) -> [u32; 5]
    ensures { result ≡ row_numbers r }
{
    let Row {
        status,
        session,
        input,
        output,
        unread,
    } = r;
    [status_number(status), session, input, output, unread]
}

fn row_in(five: [u32; 5]) -> Row
    ensures { result ≡ row_in five }
{
    let [status, session, input, output, unread] = five;
    Row {
        status: status_of(status),
        session,
        input,
        output,
        unread,
    }
}

// The numbers of each row.
fn rows_in(numbers: &[u32]) -> &[[u32; 5]]
    requires { length numbers.now ≡ number_count }
    ensures { result.now ≡ rows_in numbers.now }
{
    numbers[FIRST..].as_chunks().0
}

// Every row's status is one of the three.
fn are_rows(numbers: &[u32]) -> bool
    requires { length numbers.now ≡ number_count }
    ensures { result ≡ list_all is_row (rows_in numbers.now) }
{
    rows_in(numbers).iter().all(|row| row[0] <= 2)
}

#[tactic(auto, unfolding(crate::specs::Mirror::is_endpoint), using(crate::proofs::Fives::every_all))]
pub fn is_endpoint(numbers: &[u32]) -> bool
    ensures { result ≡ is_endpoint numbers.now }
{
    numbers.len() == NUMBERS && numbers[0] <= 1 && numbers[1] <= 1 && are_rows(numbers)
}

fn as_endpoint(numbers: &[u32]) -> Endpoint
    requires { length numbers.now ≡ number_count }
    ensures { result ≡ as_endpoint numbers.now }
{
    let mut rows = [Record::fresh_row(); 32];
    // by index, since nothing is known of an array that is written through iter_mut().zip()
    for (i, &five) in rows_in(numbers).iter().enumerate() {
        rows[i] = row_in(five);
    }
    Endpoint {
        began: numbers[0] == 1,
        down: numbers[1] == 1,
        last: numbers[2],
        rows,
    }
}

// An endpoint that breaks the row rules.
#[tactic(auto, unfolding(crate::specs::Mirror::broken))]
fn broken() -> Endpoint
    ensures { result ≡ broken }
{
    let row = Row {
        status: Status::Closed,
        session: 0,
        input: 1,
        output: 0,
        unread: 0,
    };
    Endpoint {
        began: false,
        down: false,
        last: 0,
        rows: [row; 32],
    }
}

// The endpoint that the numbers stand for; whole: they are one.
pub fn load(numbers: &[u32], whole: bool) -> Endpoint
    requires { whole ≡ is_endpoint numbers.now }
    ensures { result ≡ endpoint_in numbers.now }
{
    if whole {
        as_endpoint(numbers)
    } else {
        broken()
    }
}

fn put_rows(numbers: &mut [u32], rows: &[Row; 32])
    requires { length numbers.old ≡ number_count }
    ensures { numbers.new ≡ take 3 numbers.old ++ joined (map row_numbers rows.now) }
{
    for (i, &row) in rows.iter().enumerate() {
        let p = FIRST + ROW_NUMBERS * i;
        numbers[p..p + ROW_NUMBERS].copy_from_slice(&row_numbers(row));
    }
}

pub fn put(numbers: &mut [u32], e: Endpoint)
    requires { length numbers.old ≡ number_count }
    ensures { numbers.new ≡ numbers_of e }
{
    numbers[..FIRST].copy_from_slice(&[u32::from(e.began), u32::from(e.down), e.last]);
    put_rows(numbers, &e.rows);
}

// The later endpoint; numbers that are none stay as they are.
pub fn save(numbers: &mut [u32], whole: bool, e: Endpoint)
    requires { whole ≡ is_endpoint numbers.old }
    ensures { numbers.new ≡ numbers_after numbers.old e }
{
    if whole {
        put(numbers, e);
    }
}
