// What the types of a writer's arguments say: each function proves of any argument of its type what
// specs/Back supposes of the arguments of that type. They do nothing else. The functions of src/writers
// lend their arguments to these, so that their promises suppose nothing.
ghost use Rattle.message_lent.specs.Lending.{Slice};
ghost use Rattle.message_round_trip.specs.Back.{Numbers, U64, U32, Strings, Ids, DomainTyped, XidTyped};

// What is known of the elements of a slice is known where it is lent on.
fn see_bytes(_s: &[u8]) {}

fn see_numbers(_s: &[u64]) {}

// Lent bytes.
pub fn bytes_lent(s: &[u8])
    ensures { Slice s.now }
{
    see_bytes(s);
}

// Lent numbers.
pub fn numbers_lent(s: &[u64])
    ensures { Numbers s.now }
{
    see_numbers(s);
}

// A number.
pub fn number_lent(n: u64)
    ensures { U64 n }
{}

// A number of 32 bits.
pub fn small_number_lent(n: u32)
    ensures { U32 n }
{}

// A correlation and an execution id.
pub fn ids_lent(correlation: &[u8], execution: &[u8])
    ensures { Ids correlation.now execution.now }
{
    bytes_lent(correlation);
    bytes_lent(execution);
}

// A domain's id and name.
pub fn domain_lent(id: &[u8], name: &[u8])
    ensures { DomainTyped id.now name.now }
{
    bytes_lent(id);
    bytes_lent(name);
}

// Strings, as lengths and a joined run.
pub fn strings_lent(lengths: &[u64], run: &[u8])
    ensures { Strings lengths.now run.now }
{
    numbers_lent(lengths);
    bytes_lent(run);
}

// An xid.
pub fn xid_lent(format: u64, gtrid: u64, bqual: u64, content: &[u8])
    ensures { XidTyped format gtrid bqual content.now }
{
    number_lent(format);
    number_lent(gtrid);
    number_lent(bqual);
    bytes_lent(content);
}
