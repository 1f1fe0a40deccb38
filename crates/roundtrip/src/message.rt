// What a message says, as a writer is lent it. What is refused counts as no bytes, and as a number that no test of these programs expects.
use message_fields::{correlation, number, part, xid_number};
use message_layout::role;
use message_lent::xid::Xid;
use roundtrip_report::{bytes, narrow, value};
use wire::values::XidNumber;

#[derive(Clone, Copy)]
pub struct Message<'a> {
    pub bytes: &'a [u8],
    pub version: u64,
}

impl<'a> Message<'a> {
    pub fn correlation(self) -> &'a [u8] {
        bytes(correlation(self.bytes, self.version))
    }

    pub fn part(self, role: u64) -> &'a [u8] {
        bytes(part(self.bytes, self.version, role))
    }

    pub fn number(self, role: u64) -> u64 {
        value(number(self.bytes, self.version, role))
    }

    // A number of four bytes.
    pub fn narrow(self, role: u64) -> u32 {
        narrow(number(self.bytes, self.version, role))
    }

    pub fn xid(self) -> Xid<'a> {
        Xid {
            format: self.xid_number(XidNumber::FormatId),
            gtrid: self.xid_number(XidNumber::GtridLength),
            bqual: self.xid_number(XidNumber::BqualLength),
            content: self.part(role::XID),
        }
    }

    fn xid_number(self, which: XidNumber) -> u64 {
        value(xid_number(self.bytes, self.version, which))
    }
}
