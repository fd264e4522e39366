//! Refusal 1, once for all calls; where the bytes of a queue lie, and the numbers on it; the opening.
ghost use Rattle.std.specs.Prelude.{◌≡◌, true, suc, ◌+◌, ◌*◌, ◌≤◌, ◌<◌, ltb, length, get_or, is_ok, IfOk, IfErr};
ghost use Rattle.radix.specs.Digits.{product, value, digits, valid};
ghost use Rattle.queue.specs.Form.{form_of, good_form, queue_length, act_steps, byte_at};
ghost use Rattle.queue.specs.Answer.{seen, told};
ghost use Rattle.queue.specs.State.{rack};
ghost use Rattle.queue.specs.Calls.{open_queue};

use queue::{Format, Receiver, Refusal, Sender, Serial};
use radix::{Bases, Count};

/// A format and its bases, every number of which is in its range.
#[derive(Clone, Copy)]
pub struct Form<'a> {
    pub bases: Bases<'a>,
    pub format: Format,
    ghost good: { good_form (form_of bases.list.now format) ≡ true },
    ghost digits: { (1 ≤ length bases.list.now) × (length bases.list.now ≤ 8) },
    ghost bytes: { (1 ≤ format.n) × (format.n ≤ 256) },
    ghost places: { (1 ≤ format.places) × (format.places ≤ 64) },
    ghost parcels: { format.places * format.n ≤ 16384 },
}

impl<'a> Form<'a> {
    /// Refusal 1 if a number of the format or a base is out of its range.
    #[tactic(auto, unfolding(queue::specs::Form::good_form))]
    pub fn new(format: Format, bases: &'a [u16]) -> Result<Self, Refusal>
        ensures good { is_ok result ≡ good_form (form_of bases.now format) }
        ensures same { IfOk result (λ form. (form.bases.list.now ≡ bases.now) × (form.format ≡ format)) }
        ensures why { IfErr result (λ why. why ≡ Refusal.BadFormat) }
    {
        let Ok(bases) = Bases::new(bases) else {
            return Err(Refusal::BadFormat);
        };
        if 1 <= bases.list.len()
            && (1 <= format.n && format.n <= 256)
            && (1 <= format.places && format.places <= 64)
        {
            Ok(Form { bases, format })
        } else {
            Err(Refusal::BadFormat)
        }
    }
}

impl Form<'_> {
    ghost use Rattle.sides.specs.Ready.{shape};

    // How many digits a number has.
    pub(crate) fn digits(self) -> usize
        ensures { result ≡ length self.entry.bases.list.now }
    {
        self.bases.list.len()
    }

    // How many bytes a queue has.
    pub(crate) fn queue_length(self) -> usize
        ensures { result ≡ queue_length (shape self.entry) }
    {
        self.digits() + self.digits() + self.format.places * self.format.n
    }

    // How many steps an act has.
    pub(crate) fn act_steps(self) -> usize
        ensures { result ≡ act_steps (shape self.entry) }
    {
        self.digits() + self.format.n + self.digits()
    }

    // Where byte j of parcel v lies. By `as`: std has no `From` between usize and u64.
    pub(crate) fn position(self, v: Serial, j: usize) -> usize
        requires { j < self.format.n }
        ensures { result ≡ byte_at (shape self.entry) v.0 j }
    {
        let place = v.0 % self.format.places as u64;
        self.digits() + self.digits() + place as usize * self.format.n + j
    }

    // Is there a number after it?
    #[tactic(auto, using(crate::proofs::Rules::numbers))]
    pub(crate) fn has_next(self, v: Serial) -> bool
        ensures { result ≡ ltb (suc v.0) (product self.entry.bases.list.now) }
    {
        v.0 != u64::MAX && self.bases.fits(Count(v.0 + 1))
    }

    // The number that digits say, each below its base: `radix` refuses none of these.
    #[tactic(auto, using(crate::proofs::Rules::numbers))]
    pub(crate) fn read(self, digits: &[u8]) -> Serial
        requires { valid self.bases.list.now digits.now ≡ true }
        ensures { result.0 ≡ value self.entry.bases.list.now digits.now }
    {
        Serial(self.bases.read(digits).unwrap().0)
    }

    // Digit j, from the left, of the number after v: `radix` has both.
    #[tactic(auto, using(crate::proofs::Rules::numbers))]
    pub(crate) fn next_digit(self, j: usize, v: Serial) -> u8
        requires { (j < length self.bases.list.now) × (suc v.0 < product self.bases.list.now) }
        ensures { result ≡ get_or (digits self.entry.bases.list.now (suc v.0)) j 0 }
    {
        self.bases.digit(j, Count(v.0 + 1)).unwrap()
    }

    /// Open a queue: zeros, and nothing pending on either side. What was lent before does not matter; a refused opening
    /// leaves it as it was.
    #[tactic(auto, unfolding(queue::specs::Calls::open_queue))]
    pub fn open(
        self,
        queue: &mut [u8],
        sender: &mut Sender,
        receiver: &mut Receiver,
    ) -> Result<(), Refusal>
        ensures { seen result (rack queue.new sender.new receiver.new)
            ≡ told (rack queue.old sender.old receiver.old)
            (open_queue (shape self.entry) (rack queue.old sender.old receiver.old)) }
    {
        if queue.len() != self.queue_length() {
            return Err(Refusal::WrongLength);
        }
        radix::zero(queue);
        *sender = Sender::RESTING;
        *receiver = Receiver::RESTING;
        Ok(())
    }
}
