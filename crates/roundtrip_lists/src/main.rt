// Writes each type with lists of no, one and five elements, reads it back, and writes what was read once more: the bytes have to be the same.
#![tactic(auto)]

mod gather;
mod lists;
mod report;

use std::io;

fn main(rt: HostRuntime) -> io::Result<()> {
    let mut writer = rt.stdout();
    lists::connect_request(&mut writer, 0)?;
    lists::connect_request(&mut writer, 1)?;
    lists::connect_request(&mut writer, 5)?;
    lists::discovery_request(&mut writer, 0)?;
    lists::discovery_request(&mut writer, 1)?;
    lists::discovery_request(&mut writer, 5)?;
    lists::topology_update(&mut writer, 0)?;
    lists::topology_update(&mut writer, 1)?;
    lists::topology_update(&mut writer, 5)?;
    lists::discovery_reply(&mut writer, 0)?;
    lists::discovery_reply(&mut writer, 1)?;
    lists::discovery_reply(&mut writer, 5)?;
    lists::dequeue_reply(&mut writer, 0)?;
    lists::dequeue_reply(&mut writer, 1)?;
    lists::dequeue_reply(&mut writer, 5)
}
