//! Powers of two.
ghost use Rattle.std.specs.Prelude.{◌≡◌, ℕ, ◌*◌, ◌^◌, ◌<◌, ◌≤◌};

// The greatest power of two that is not above a number.
#[inline(always)]
pub(crate) fn power_within(number: usize) -> usize
    requires { 0 < number }
    ensures { (k : ℕ) × (result ≡ 2 ^ k) × (2 ^ k ≤ number) × (number < 2 ^ k * 2) }
{
    1 << (63 - number.leading_zeros())
}
