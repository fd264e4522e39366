//! Which digit of its number a step writes, and where a reader keeps the digit that it read.
ghost use Rattle.std.specs.Prelude.{◌≡◌, ◌&&◌, cond, ◌+◌, ◌-◌, ◌≤◌, leb, length, min};
ghost use Rattle.protocol.specs.Form.{own};
ghost use Rattle.protocol.specs.Allowed.{version_digits};
ghost use Rattle.checks.specs.Layout.{there_and_back, slot_of};
ghost use Rattle.checks.specs.Seen.{shape};

use crate::Form;

/// The digit of step `k`, where a number's digits are visited out, and then back from the last one; 0 past the last step.
// 0 and no Option: it is public, and its clause may not change.
pub fn there_and_back(out: usize, back: usize, k: usize) -> usize
    ensures { result ≡ there_and_back out back k }
{
    if k < out {
        k
    } else if k - out < back {
        back - 1 - (k - out)
    } else {
        0
    }
}

// Where a reader keeps the digit of step k, of so many there and so many back.
fn kept(there: usize, back: usize, k: usize) -> usize
    requires few { back ≤ 8 }
    ensures { result ≡ slot_of there back k }
{
    if k < there {
        k
    } else {
        8 + there_and_back(there, back, k)
    }
}

/// Where a reader keeps the digit of step `k`, of so many there and so many back; 0 if either is more than eight.
// No crate here calls it: a form's numbers need no test, so its methods go without. It says the same of any numbers.
pub fn slot(there: usize, back: usize, k: usize) -> usize
    ensures { result ≡ cond (leb there 8 && leb back 8) (slot_of there back k) 0 }
{
    if there <= 8 && back <= 8 {
        kept(there, back, k)
    } else {
        0
    }
}

// How many digits of versions k steps have passed, of so many digits and bytes.
#[inline(always)]
pub(crate) fn passed(q: usize, n: usize, k: usize) -> usize
    requires { q + n ≤ usize.MAX }
    ensures { result ≡ min k q + (k - (q + n)) }
{
    k.min(q) + k.saturating_sub(q + n)
}

impl Form<'_> {
    /// How many digits of versions an attempt has gathered, or a record write has put down, after `k` steps.
    pub fn version_digits(self, k: usize) -> usize
        ensures { result ≡ version_digits (shape self.entry) k }
    {
        passed(self.format.q, self.format.n, k)
    }

    /// The digit of the count that step `k` of a count write puts down.
    pub fn count_digit(self, k: usize) -> usize
        ensures { result ≡ there_and_back (own (shape self.entry)) (length self.entry.bases.now) k }
    {
        there_and_back(self.own(), self.bases.len(), k)
    }

    /// The digit of the version that step `k` of a record write puts down.
    pub fn version_digit(self, k: usize) -> usize
        ensures { result ≡ there_and_back self.entry.format.q self.entry.format.q
            (version_digits (shape self.entry) k) }
    {
        there_and_back(self.format.q, self.format.q, self.version_digits(k))
    }

    /// Where a reader keeps the digit of step `k` of a count read.
    pub fn count_slot(self, k: usize) -> usize
        ensures { result ≡ slot_of (length self.entry.bases.now) (own (shape self.entry)) k }
    {
        kept(self.bases.len(), self.own(), k)
    }

    /// Where a reader keeps the digit of step `k` of an attempt.
    pub fn version_slot(self, k: usize) -> usize
        ensures { result ≡ slot_of self.entry.format.q self.entry.format.q
            (version_digits (shape self.entry) k) }
    {
        kept(self.format.q, self.format.q, self.version_digits(k))
    }
}
