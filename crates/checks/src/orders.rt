//! Where the digits of a page lie, step by step: nowhere else is that computed. The page is c1, c2's own digits, v1, the
//! record's bytes, v2. Past the last step the answer is 0, the definitions' own.
ghost use Rattle.std.specs.Prelude.{◌≡◌, get_or};
ghost use Rattle.protocol.specs.Layout.{count_order, count_read_order, record_order, attempt_order};
ghost use Rattle.checks.specs.Layout.{in_content};
ghost use Rattle.checks.specs.Seen.{shape};

use crate::Form;
use protocol::Format;

impl Form<'_> {
    /// The position of step `k` of a count write: c2's own digits left to right, c1 right to left.
    #[tactic(auto, using(crate::proofs::Rules::writes))]
    pub fn count_write(self, k: usize) -> usize
        ensures { result ≡ get_or (count_order (shape self.entry)) k 0 }
    {
        if k < self.own() {
            self.bases.len() + k
        } else if k < self.count_steps() {
            self.count_steps() - 1 - k
        } else {
            0
        }
    }

    /// The position of step `k` of a count read: the other way.
    #[tactic(auto, using(crate::proofs::Rules::reads))]
    pub fn count_position(self, k: usize) -> usize
        ensures { result ≡ get_or (count_read_order (shape self.entry)) k 0 }
    {
        let m = self.bases.len();
        if k < m {
            k
        } else if k < self.count_steps() {
            m + (self.count_steps() - 1 - k)
        } else {
            0
        }
    }

    /// The position of step `k` of a record write: v1 left to right, the bytes ascending, v2 right to left.
    #[tactic(auto, using(crate::proofs::Rules::records))]
    pub fn record_write(self, k: usize) -> usize
        ensures { result ≡ get_or (record_order (shape self.entry)) k 0 }
    {
        let from = self.count_steps();
        let Format { q, n, .. } = self.format;
        if k < q + n {
            from + k
        } else if k < q + n + q {
            from + q + n + (q + n + q - 1 - k)
        } else {
            0
        }
    }

    /// The position of step `k` of an attempt at a record read: v2 left to right, the bytes ascending, v1 right to left.
    #[tactic(auto, using(crate::proofs::Rules::attempts))]
    pub fn attempt_position(self, k: usize) -> usize
        ensures { result ≡ get_or (attempt_order (shape self.entry)) k 0 }
    {
        let from = self.count_steps();
        let Format { q, n, .. } = self.format;
        if k < q {
            from + q + n + k
        } else if k < q + n {
            from + k
        } else if k < q + n + q {
            from + (q + n + q - 1 - k)
        } else {
            0
        }
    }

    /// Does step `k` of a record write, or of an attempt, move a byte of the record?
    pub fn in_content(self, k: usize) -> bool
        ensures { result ≡ in_content (shape self.entry) k }
    {
        // One subtraction for two comparisons: a step before the record wraps to a large number.
        k.wrapping_sub(self.format.q) < self.format.n
    }
}
