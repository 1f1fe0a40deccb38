// Runs document 01's fourteen cases against the compiled calls: the table is that of the crate cases, whose theorem says that the
// definitions answer what it expects. A line for each row, `case C number N place P value V`, with what was expected behind it where
// the calls answer something else or leave another output; then how many rows there are and how many differ.
#![tactic(auto)]

mod perform;
mod pieces;

use crate::perform::{Answered, LENT, perform};
use crate::pieces::bytes_of;
use cases::{Row, rows};
use link_rows::Record;
use std::io;

fn main(rt: HostRuntime) -> io::Result<()> {
    let mut store = [0u8; 32768];
    run_rows(&rt, &mut store)
}

fn run_rows(rt: &impl Print, store: &mut [u8]) -> io::Result<()> {
    let mut endpoint = Record::fresh_endpoint(false);
    let mut differ: usize = 0;
    for &row in rows() {
        let (answered, output) = perform(&mut endpoint, store, row.deed);
        if !show(rt, row, answered, output == expected_output(row))? {
            differ = differ.saturating_add(1);
        }
    }
    let count = rows().len();
    println!(rt; "{count} rows, {differ} differ")
}

// The output that a row expects: its bytes, and behind them what was lent.
fn expected_output(row: Row) -> [u8; 16] {
    let mut output = [LENT; 16];
    bytes_of(&mut output, row.output);
    output
}

// Prints a row's line; whether it is answered as the table expects.
fn show(rt: &impl Print, row: Row, answered: Answered, same_output: bool) -> io::Result<bool> {
    let expected = Answered {
        number: row.number,
        place: row.place,
        value: row.value,
    };
    let case = row.case;
    print!(rt; "case {case} {answered}")?;
    if answered != expected {
        print!(rt; ", expected {expected}")?;
    }
    if !same_output {
        print!(rt; ", another output")?;
    }
    println!(rt)?;
    Ok(answered == expected && same_output)
}
