// Fast division by a number that does not change.
ghost use Rattle.std.specs.Prelude.{◌≡◌, ◌<◌, ◌/◌, ◌%◌, ◌+◌, ◌^◌};

/// A hint for divisions by a number that does not change, such as the number of places of a row group: 2^40 divided by it, plus 1.
/// A division takes a processor as long as some thirty other instructions. With the hint, one multiplication finds the quotient.
///
/// Each quotient is tested, and computed by a division if the test fails. So a hint for another number costs only time. The test passes
/// for numbers below 2^24 and divisors of at most 2^16, the ranges of places and of row group sizes.
///
/// Divisions with the hint for the divisor, and with a hint for another number:
///
/// ```
/// fn is_divided(number: usize) -> bool {
///     let hint = Reciprocal::new(64);
///     hint.quotient(number, 64) == number / 64
///         && hint.remainder(number, 64) == number % 64
///         && Reciprocal::new(3).quotient(number, 64) == number / 64
/// }
/// ```
///
/// After Granlund and Montgomery, "Division by Invariant Integers using Multiplication" (PLDI 1994).
#[derive(Clone, Copy, Debug)]
pub struct Reciprocal {
    factor: u64,
}

impl Reciprocal {
    /// Makes the hint for divisions by a number. Allocates nothing.
    pub fn new(divisor: usize) -> Reciprocal
        requires { 0 < divisor }
        ensures { result.factor ≡ 2 ^ 40 / divisor + 1 }
    {
        Reciprocal {
            factor: 1_099_511_627_776 / divisor as u64 + 1,
        }
    }

    /// Returns the quotient of a number and a divisor, rounded down. Allocates nothing.
    #[inline(always)]
    pub fn quotient(self, number: usize, divisor: usize) -> usize
        requires { 0 < divisor }
        ensures { result ≡ number / divisor }
    {
        let guess = ((number as u64).wrapping_mul(self.factor) >> 40) as usize;
        // The guess has at most 24 bits and such a divisor at most 32, so the product does not overflow. If the product is more than the
        // number, the difference wraps around to more than the divisor.
        if divisor <= 0xffff_ffff {
            let left = number.wrapping_sub(guess * divisor);
            if left < divisor {
                return guess;
            }
        }
        number / divisor
    }

    /// Returns the remainder of a number divided by a divisor. Allocates nothing.
    #[inline(always)]
    pub fn remainder(self, number: usize, divisor: usize) -> usize
        requires { 0 < divisor }
        ensures { result ≡ number % divisor }
    {
        number - self.quotient(number, divisor) * divisor
    }
}
