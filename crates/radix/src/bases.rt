//! Bases, and numbers in their digits.
ghost use Rattle.std.specs.Prelude.{◌≡◌, true, ◌++◌, ◌+◌, ◌*◌, ◌/◌, ◌%◌, ◌^◌, ◌≤◌, ◌<◌, ◌&&◌, ltb, leb, length, take, drop, is_ok, IfOk, IfErr};
ghost use Rattle.radix.specs.Digits.{product, value, digits, valid};
ghost use Rattle.radix.specs.Answers.{good_bases, digit_of, into, digits_into, value_of, count_of};

use crate::{Count, Fault};

/// Good bases: at most eight, each from 2 to 256, the leftmost counting most.
#[derive(Clone, Copy)]
pub struct Bases<'a> {
    pub list: &'a [u16],
    ghost good: { good_bases list.now ≡ true },
}

impl<'a> Bases<'a> {
    /// The bases of a list. Refused are more than eight, and one outside 2 to 256.
    pub fn new(list: &'a [u16]) -> Result<Self, Fault>
        ensures good { is_ok result ≡ good_bases list.now }
        ensures same { IfOk result (λ bases. bases.list.now ≡ list.now) }
        ensures why { IfErr result (λ why. why ≡ Fault.BadBases) }
    {
        if good(list) {
            Ok(Bases { list })
        } else {
            Err(Fault::BadBases)
        }
    }

    /// Is a count below their product?
    pub fn fits(self, c: Count) -> bool
        ensures { result ≡ ltb c.0 (product self.entry.list.now) }
    {
        self.holds(c.0)
    }

    /// Digit `k` of a count, from the left, from 0.
    pub fn digit(self, k: usize, c: Count) -> Result<u8, Fault>
        ensures { result ≡ digit_of self.entry.list.now k c.0 }
    {
        self.digit_at(k, c.0)
    }

    /// The digits of a count, into as many bytes as there are bases. A refusal leaves them as they were.
    pub fn write(self, c: Count, out: &mut [u8]) -> Result<(), Fault>
        ensures { into result out.new ≡ digits_into self.entry.list.now c.0 out.old }
    {
        self.put(c.0, out)
    }

    /// The count that digits say.
    pub fn read(self, digits: &[u8]) -> Result<Count, Fault>
        ensures { result ≡ count_of (value_of self.entry.list.now digits.now) }
    {
        self.read_parts(digits, &[])
    }

    /// The count that digits say which lie in two pieces.
    pub fn read_parts(self, first: &[u8], rest: &[u8]) -> Result<Count, Fault>
        ensures { result ≡ count_of (value_of self.entry.list.now (first.now ++ rest.now)) }
    {
        Ok(Count(self.value(first, rest)?))
    }
}

/// Are there as many digits as bases, each below its base?
#[tactic(auto, using(crate::proofs::Rules::valids))]
pub fn valid(bases: &[u16], digits: &[u8]) -> bool
    ensures { result ≡ valid bases.now digits.now }
{
    if digits.len() != bases.len() {
        return false;
    }
    for (i, &b) in bases.iter().enumerate() {
        if b <= u16::from(digits[i]) {
            return false;
        }
    }
    true
}

/// Are there at most eight bases, each from 2 to 256?
#[tactic(auto, using(crate::proofs::Rules::goods))]
pub fn good(bases: &[u16]) -> bool
    ensures { result ≡ good_bases bases.now }
{
    if 8 < bases.len() {
        return false;
    }
    for &b in bases {
        if b < 2 || 256 < b {
            return false;
        }
    }
    true
}

// A byte is taken off by a shift: only other bases cost a division.
fn quotient(x: u64, base: u64) -> u64
    requires { 0 < base }
    ensures { result ≡ x / base }
{
    if base == 256 { x / 256 } else { x / base }
}

fn remainder(x: u64, base: u64) -> u64
    requires { 0 < base }
    ensures { result ≡ x % base }
{
    if base == 256 { x % 256 } else { x % base }
}

// The core: numbers of either sort.
impl<'a> Bases<'a> {
    // The product, of at most seven bases: of eight it may be 2^64.
    #[tactic(auto, using(crate::proofs::Rules::weights))]
    pub(crate) fn weight(self) -> u64
        requires { length self.list.now ≤ 7 }
        ensures { result ≡ product self.entry.list.now }
    {
        let mut w: u64 = 1;
        for &b in self.list {
            w *= u64::from(b);
        }
        w
    }

    // The first k bases.
    #[tactic(auto, using(crate::proofs::Rules::parts))]
    pub(crate) fn up_to(self, k: usize) -> Bases<'a>
        requires { k ≤ length self.list.now }
        ensures { result.list.now ≡ take k self.entry.list.now }
    {
        Bases {
            list: &self.list[..k],
        }
    }

    // The bases after the first k.
    #[tactic(auto, using(crate::proofs::Rules::parts))]
    pub(crate) fn after(self, k: usize) -> Bases<'a>
        requires { k ≤ length self.list.now }
        ensures { result.list.now ≡ drop k self.entry.list.now }
    {
        Bases {
            list: &self.list[k..],
        }
    }

    // Is x below the product of the bases? The product itself is never made.
    #[tactic(auto, using(crate::proofs::Rules::shares))]
    fn holds(self, x: u64) -> bool
        ensures { result ≡ ltb x (product self.entry.list.now) }
    {
        match self.list {
            [] => x < 1,
            [first, ..] => x / self.after(1).weight() < u64::from(*first),
        }
    }

    #[tactic(auto, using(crate::proofs::Rules::shares))]
    pub(crate) fn digit_at(self, k: usize, x: u64) -> Result<u8, Fault>
        ensures { result ≡ digit_of self.entry.list.now k x }
    {
        if self.list.len() <= k {
            return Err(Fault::NoSuchDigit);
        }
        let left = x / self.after(k + 1).weight();
        let base = u64::from(self.list[k]);
        if self.up_to(k).weight() <= left / base {
            return Err(Fault::TooLarge);
        }
        // By `as`, here and in `put`: a remainder by a good base is a byte, which no type says.
        Ok((left % base) as u8)
    }

    pub(crate) fn put(self, x: u64, out: &mut [u8]) -> Result<(), Fault>
        ensures { into result out.new ≡ digits_into self.entry.list.now x out.old }
    {
        if out.len() != self.list.len() {
            return Err(Fault::WrongLength);
        }
        if !self.holds(x) {
            return Err(Fault::TooLarge);
        }
        let mut left = x;
        for i in (0..self.list.len()).rev() {
            let base = u64::from(self.list[i]);
            out[i] = remainder(left, base) as u8;
            left = quotient(left, base);
        }
        Ok(())
    }

    // A number with digits after it: it is moved up by their bases. That digits are below their bases is asked for here,
    // in `number` and in `low_end`, and kept by no type: each is called on a part of both, and a pair would be made anew.
    #[tactic(auto, using(crate::proofs::Rules::values))]
    pub(crate) fn join(self, before: u64, digits: &[u8]) -> u64
        requires valid { valid self.list.now digits.now ≡ true }
        requires fits { before * product self.list.now + value self.list.now digits.now < 2 ^ 64 }
        ensures { result ≡ before * product self.entry.list.now + value self.entry.list.now digits.now }
    {
        let mut x = before;
        for (i, &b) in self.list.iter().enumerate() {
            x = x * u64::from(b) + u64::from(digits[i]);
        }
        x
    }

    // The value of digits that are below their bases.
    #[tactic(auto, using(crate::proofs::Rules::values))]
    pub(crate) fn number(self, digits: &[u8]) -> u64
        requires { valid self.list.now digits.now ≡ true }
        ensures { result ≡ value self.entry.list.now digits.now }
    {
        self.join(0, digits)
    }

    // The digits lie in two pieces, as many as bases.
    #[tactic(auto, using(crate::proofs::Rules::pieces))]
    fn holds_digits(self, first: &[u8], rest: &[u8]) -> bool
        requires { length first.now + length rest.now ≡ length self.list.now }
        ensures { result ≡ valid self.entry.list.now (first.now ++ rest.now) }
    {
        let k = first.len();
        valid(self.up_to(k).list, first) && valid(self.after(k).list, rest)
    }

    #[tactic(auto, using(crate::proofs::Rules::pieces))]
    fn number_in_parts(self, first: &[u8], rest: &[u8]) -> u64
        requires long { length first.now + length rest.now ≡ length self.list.now }
        requires valid { valid self.list.now (first.now ++ rest.now) ≡ true }
        ensures { result ≡ value self.entry.list.now (first.now ++ rest.now) }
    {
        let k = first.len();
        self.after(k).join(self.up_to(k).number(first), rest)
    }

    pub(crate) fn value(self, first: &[u8], rest: &[u8]) -> Result<u64, Fault>
        ensures { result ≡ value_of self.entry.list.now (first.now ++ rest.now) }
    {
        let k = first.len();
        if self.list.len() < k || self.list.len() - k != rest.len() {
            return Err(Fault::WrongLength);
        }
        if !self.holds_digits(first, rest) {
            return Err(Fault::BadDigit);
        }
        Ok(self.number_in_parts(first, rest))
    }
}
