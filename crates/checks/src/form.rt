//! A form: a format whose numbers are in range, with its bases. A call makes it once, which is refusal 1.
ghost use Rattle.std.specs.Prelude.{◌≡◌, true, ◌≤◌, length, is_ok, IfOk, IfErr};
ghost use Rattle.protocol.specs.Form.{form_of, good_form};

use protocol::{Format, Refusal};
use radix::Bases;

/// A format with its bases, every number in its range. What is said of single numbers follows from `good`: these are plain
/// ranges, so that the check has them at hand. The bases are the caller's list, which contracts name; `all_bases` answers them
/// as `radix` takes them.
#[derive(Clone, Copy)]
pub struct Form<'a> {
    pub bases: &'a [u16],
    pub format: Format,
    ghost good: { good_form (form_of bases.now format) ≡ true },
    ghost places: { (1 ≤ length bases.now) × (length bases.now ≤ 8) },
    ghost shares: { format.layout ≤ 1 },
    ghost versions: { (1 ≤ format.q) × (format.q ≤ 4) },
    ghost sized: { (1 ≤ format.n) × (format.n ≤ 256) },
    ghost seats: { (1 ≤ format.readers) × (format.readers ≤ 16) },
}

// Is every number of the format in its range?
#[tactic(auto, unfolding(protocol::specs::Form::good_form))]
fn good(format: Format, bases: &[u16]) -> bool
    ensures { result ≡ good_form (form_of bases.now format) }
{
    1 <= bases.len()
        && Bases::new(bases).is_ok()
        && format.layout <= protocol::FOLDED
        && (1 <= format.q && format.q <= 4)
        && (2 <= format.base && format.base <= 256)
        && (1 <= format.n && format.n <= 256)
        && (1 <= format.readers && format.readers <= 16)
}

impl<'a> Form<'a> {
    /// The form of a format with its bases; refusal 1 if a number is out of its range.
    pub fn new(format: Format, bases: &'a [u16]) -> Result<Self, Refusal>
        ensures good { is_ok result ≡ good_form (form_of bases.now format) }
        ensures same { IfOk result (λ form. (form.bases.now ≡ bases.now) × (form.format ≡ format)) }
        ensures why { IfErr result (λ why. why ≡ Refusal.BadFormat) }
    {
        if good(format, bases) {
            Ok(Form { bases, format })
        } else {
            Err(Refusal::BadFormat)
        }
    }
}
