//! The log, and how much of it is written. An entry's first byte is its kind: 1 to 3 by document 01, 4 by document 02.
ghost use Rattle.std.specs.Prelude.{◌≡◌, ◌-◌, ◌≤◌, length};
ghost use Rattle.codec.specs.Entry.{added, put_at, put_bytes_at};

use protocol::Outcome;

/// A log with so many bytes free has room for any entry.
pub const LONGEST: usize = 18;

/// A log, and how many of its bytes are written.
#[derive(Drop)]
pub struct Log<'a> {
    pub bytes: &'a mut [u8],
    pub written: usize,
    ghost fits: { written ≤ length bytes.now },
}

impl<'a> Log<'a> {
    /// A log of which nothing is written.
    pub fn new(bytes: &'a mut [u8]) -> Self
        ensures written { result.written ≡ 0 }
        ensures bytes { result.bytes.now ≡ bytes.old }
        ensures loan { result.bytes.ghost_name ≡ bytes.entry.ghost_name }
    {
        Log { bytes, written: 0 }
    }
}

impl Log<'_> {
    /// How many bytes are free.
    pub fn room(&self) -> usize
        ensures { result ≡ length self.now.bytes.now - self.now.written }
    {
        self.bytes.len() - self.written
    }

    // An entry behind those that are written; nothing, if there is no room for it.
    #[inline(always)]
    fn write(&mut self, entry: &[u8])
        ensures wrote { added self.new.bytes.now self.new.written ≡ put_bytes_at self.old.bytes.now self.old.written entry.now }
        ensures loan { self.new.bytes.ghost_name ≡ self.old.bytes.ghost_name }
    {
        if entry.len() <= self.room() {
            let from = self.written;
            let to = from + entry.len();
            self.bytes[from..to].copy_from_slice(entry);
            self.written = to;
        }
    }

    /// The entry of an outcome behind those that are written; nothing, if there is no room for it.
    #[tactic(auto, unfolding(protocol::specs::Outcome::entry, crate::specs::Entry::put_at), using(crate::proofs::Rules::numerals))]
    #[inline(always)]
    pub fn put(&mut self, outcome: Outcome)
        ensures log { added self.new.bytes.now self.new.written ≡ put_at self.old.bytes.now self.old.written outcome }
        ensures loan { self.new.bytes.ghost_name ≡ self.old.bytes.ghost_name }
    {
        match outcome {
            Outcome::Nothing => {}
            Outcome::Shown { reader, count } => {
                let [a, b, c, d, e, f, g, h] = count.0.to_be_bytes();
                self.write(&[1, reader, a, b, c, d, e, f, g, h]);
            }
            Outcome::Accepted {
                reader,
                attempts,
                version,
            } => {
                let [a, b, c, d] = version.0.to_be_bytes();
                self.write(&[2, reader, attempts, a, b, c, d]);
            }
            Outcome::GaveUp { reader, attempts } => self.write(&[3, reader, attempts]),
            Outcome::Between {
                reader,
                low,
                high,
                ..
            } => {
                let mut entry = [0; LONGEST];
                entry[0] = 4;
                entry[1] = reader;
                entry[2..10].copy_from_slice(&low.0.to_be_bytes());
                entry[10..].copy_from_slice(&high.0.to_be_bytes());
                self.write(&entry);
            }
        }
    }
}

/// The entry of an outcome in a log from a place on, and the place after it; nothing, if there is no room for it.
// No crate here calls it: it is for a program that keeps the place of its log by itself.
#[tactic(auto, unfolding(crate::specs::Entry::put_at))]
pub fn put(log: &mut [u8], at: usize, outcome: Outcome) -> usize
    ensures { added log.new result ≡ put_at log.old at outcome }
{
    if log.len() < at {
        return at;
    }
    let mut log = Log {
        bytes: log,
        written: at,
    };
    log.put(outcome);
    log.written
}
