// One endpoint, which did not begin the link, goes through an opening, credit, data, a crossing close and a re-opening, and a
// violation. Each reply is printed: its number, the values that it reports, and the bytes written.
#![tactic(auto)]

use link_calls::{close, make, open, read, request, transmit};
use link_receive::receive;
use link_rows::{Answer, Endpoint, number, reported};
use std::io;
use std::io::Write;

// Where the lines go, and the endpoint with its store.
#[derive(Drop)]
struct Walk<W> {
    writer: W,
    endpoint: Endpoint,
    store: [u8; 32768],
}

impl<W: Write> Walk<W> {
    // One line: what was done, then number, session, used and written, then the bytes written. The later endpoint is kept.
    fn show(&mut self, what: &str, answer: Answer, out: &[u8]) -> io::Result<()> {
        self.endpoint = answer.endpoint;
        let number = number(answer.reply);
        let done = reported(answer.reply);
        write!(
            self.writer,
            "{what}: answer {number} session {} used {} written {} bytes",
            done.session, done.used, done.written
        )?;
        for byte in out.iter().take(done.written) {
            write!(self.writer, " {byte:02x}")?;
        }
        writeln!(self.writer)
    }

    // Receives a record, with room for a CLOSEACK.
    fn receive(&mut self, what: &str, bytes: &[u8]) -> io::Result<()> {
        let mut out = [0; 3];
        let answer = receive(self.endpoint, &mut self.store, bytes, &mut out);
        self.show(what, answer, &out)
    }

    // Reads at most three bytes of a session on 0x8000.
    fn read(&mut self, what: &str, session: u32) -> io::Result<()> {
        let mut out = [0; 3];
        let answer = read(self.endpoint, &mut self.store, 0x8000, session, &mut out);
        self.show(what, answer, &out)
    }

    fn request(&mut self, what: &str, amount: u32) -> io::Result<()> {
        let mut out = [0; 7];
        let answer = request(self.endpoint, &mut self.store, 0x8000, 1, amount, &mut out);
        self.show(what, answer, &out)
    }

    fn open(&mut self, what: &str, id: u16) -> io::Result<()> {
        let mut out = [0; 3];
        let answer = open(self.endpoint, &mut self.store, id, &mut out);
        self.show(what, answer, &out)
    }

    fn transmit(&mut self, what: &str, bytes: &[u8]) -> io::Result<()> {
        let mut out = [0; 16];
        let answer = transmit(self.endpoint, &mut self.store, 0, 2, bytes, &mut out);
        self.show(what, answer, &out)
    }

    fn close(&mut self, what: &str) -> io::Result<()> {
        let mut out = [0; 3];
        let answer = close(self.endpoint, &mut self.store, 0x8000, 1, &mut out);
        self.show(what, answer, &out)
    }

    // The other end opens 0x8000; we grant all that the row holds, and ask for one more.
    fn their_opening(&mut self) -> io::Result<()> {
        self.receive("receive OPEN 8000", b"\xE1\x80\x00")?;
        self.request("request 1024", 1024)?;
        self.request("request 1", 1)
    }

    // Five bytes come, and we read three of them.
    fn their_data(&mut self) -> io::Result<()> {
        self.receive("receive TRANSMIT 5", b"\xE5\x80\x00\x00\x00\x00\x05hello")?;
        self.read("read session 1", 1)
    }

    // We open 0, use the credit that comes, and acknowledge the other end's close.
    fn our_opening(&mut self) -> io::Result<()> {
        self.open("open 0", 0)?;
        self.receive("receive REQUEST 8", b"\xE4\x00\x00\x00\x00\x00\x08")?;
        self.transmit("transmit 2", b"hi")?;
        self.receive("receive CLOSE 0", b"\xE2\x00\x00")
    }

    // Both close 0x8000 at once: what still comes is discarded, and no CLOSEACK is due.
    fn crossing_close(&mut self) -> io::Result<()> {
        self.close("close 8000")?;
        self.receive("receive TRANSMIT 1", b"\xE5\x80\x00\x00\x00\x00\x01!")?;
        self.receive("receive CLOSE 8000", b"\xE2\x80\x00")
    }

    // 0x8000 is opened again: the old session is refused, and the new one has nothing unread.
    fn reopening(&mut self) -> io::Result<()> {
        self.receive("receive OPEN 8000", b"\xE1\x80\x00")?;
        self.read("read session 1", 1)?;
        self.read("read session 3", 3)
    }

    // An unknown opcode takes the endpoint down; reading goes on.
    fn violation(&mut self) -> io::Result<()> {
        self.receive("receive E0", b"\xE0")?;
        self.open("open 1", 1)?;
        self.read("read session 3", 3)
    }
}

fn main(rt: HostRuntime) -> io::Result<()> {
    let mut store = [1; 32768];
    let made = make(false, &mut store);
    let mut walk = Walk {
        writer: rt.stdout(),
        endpoint: made.endpoint,
        store,
    };
    walk.show("make", made, b"")?;
    walk.their_opening()?;
    walk.their_data()?;
    walk.our_opening()?;
    walk.crossing_close()?;
    walk.reopening()?;
    walk.violation()
}
