// Writes each type without lists, reads it back, and writes what was read once more: the bytes have to be the same.
// Last the largest message of 65,536 bytes, and one byte more.
#![tactic(auto)]

mod large;
mod message;
mod plain;
mod trip;

use message_lent::xid::Xid;
use std::io;

// No xid, and one of five bytes.
const NONE: Xid<'static> = Xid {
    format: 0,
    gtrid: 0,
    bqual: 0,
    content: &[],
};

const BRANCH: Xid<'static> = Xid {
    format: 7,
    gtrid: 3,
    bqual: 2,
    content: &[9, 9, 9, 9, 9],
};

fn main(rt: HostRuntime) -> io::Result<()> {
    let mut writer = rt.stdout();
    plain::connect_reply(&mut writer)?;
    plain::disconnect_request(&mut writer)?;
    plain::disconnect_reply(&mut writer)?;
    plain::service_reply(&mut writer)?;
    plain::rollback_request(&mut writer, NONE)?;
    plain::rollback_request(&mut writer, BRANCH)?;
    plain::rollback_reply(&mut writer, NONE)?;
    plain::rollback_reply(&mut writer, BRANCH)?;
    large::service_reply(&mut writer, &[7; 65459])?;
    large::service_reply(&mut writer, &[7; 65460])
}
