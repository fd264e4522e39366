//! A form's numbers: its steps, the parts of its page, its bases.
ghost use Rattle.std.specs.Prelude.{◌≡◌, ◌+◌};
ghost use Rattle.protocol.specs.Form.{own, count_steps, record_steps};
ghost use Rattle.checks.specs.Seen.{shape};

use crate::Form;
use radix::{Bases, Versions};

impl<'a> Form<'a> {
    /// The bases of a count.
    #[tactic(auto, using(crate::proofs::Rules::bases))]
    pub fn all_bases(self) -> Bases<'a>
        ensures { result.list.now ≡ self.entry.bases.now }
    {
        Bases { list: self.bases }
    }

    /// The bases of a version.
    #[tactic(auto, using(crate::proofs::Rules::bases))]
    pub fn versions(self) -> Versions
        ensures { (result.base ≡ self.entry.format.base) × (result.q ≡ self.entry.format.q) }
    {
        Versions {
            base: self.format.base,
            q: self.format.q,
        }
    }

    /// Digits of a copy of the count that it does not share.
    pub fn own(self) -> usize
        ensures { result ≡ own (shape self.entry) }
    {
        self.bases.len() - usize::from(self.format.layout)
    }

    /// Steps of a count write, or of a count read.
    pub fn count_steps(self) -> usize
        ensures { result ≡ count_steps (shape self.entry) }
    {
        self.bases.len() + self.own()
    }

    /// Steps of a record write, or of one attempt at a record read.
    pub fn record_steps(self) -> usize
        ensures { result ≡ record_steps (shape self.entry) }
    {
        self.format.q + self.format.n + self.format.q
    }

    /// Bytes of a page.
    pub fn page_length(self) -> usize
        ensures { result ≡ count_steps (shape self.entry) + record_steps (shape self.entry) }
    {
        self.count_steps() + self.record_steps()
    }

    /// Where the record's bytes begin.
    pub fn content_start(self) -> usize
        ensures { result ≡ count_steps (shape self.entry) + self.entry.format.q }
    {
        self.count_steps() + self.format.q
    }

    /// Where v2 begins. c1 begins at 0, c2's own digits at m, v1 where a count's steps end.
    pub fn second_version(self) -> usize
        ensures { result ≡ count_steps (shape self.entry) + self.entry.format.q + self.entry.format.n }
    {
        self.content_start() + self.format.n
    }
}
