// Prints numbers in decimal digits.
ghost use Rattle.std.specs.Prelude.{◌≡◌, ◌<◌, ◌≤◌, ◌+◌, ◌%◌, ◌++◌, length, OnOk, decimal};
ghost use Rattle.std.specs.Fmt.{signed_decimal};

use super::Page;
use itoa::{Buffer, write_digits};
use std::alloc::AllocError;

/// Numbers below this have at most four digits. Most are, so the code for them is inlined.
const SHORT: u64 = 10_000;

/// The most digits of a number of 64 bits.
const DIGITS: usize = 20;

/// Numbers below this have at most eight digits, which can be counted with only one division.
const MIDDLING: u64 = 100_000_000;

/// Returns the number of digits of a number of at most four digits.
#[inline(always)]
fn short_count(number: u64) -> usize
    requires { number < 10000 }
    ensures count { result ≡ length (decimal number) }
    ensures few { result ≤ 4 }
{
    if number < 100 {
        return if number < 10 { 1 } else { 2 };
    }
    if number < 1000 { 3 } else { 4 }
}

/// Returns the number of digits of a number of at most eight digits.
#[inline(always)]
fn digit_count(number: u64) -> usize
    requires { number < 100000000 }
    ensures count { result ≡ length (decimal number) }
    ensures few { result ≤ 8 }
{
    if number < 10_000 {
        return short_count(number);
    }
    short_count(number / 10_000) + 4
}

impl Page {
    /// Adds a number in decimal digits.
    #[inline(always)]
    pub fn number(&mut self, number: u64) -> Result<(), AllocError>
        ensures ok { OnOk result (self.new ≡ self.old ++ decimal number) }
    {
        if number < SHORT {
            return self.digits(number, short_count(number), &[0u8; 4]);
        }
        self.any_number(number)
    }

    /// Adds a number of `count` digits, for which `zeros` has room. They are written in place: a copy of bytes that were just
    /// written one by one or in pairs would have to wait for them. Inlined, so that the copy of the zeros has a constant length.
    #[inline(always)]
    fn digits(&mut self, number: u64, count: usize, zeros: &[u8]) -> Result<(), AllocError>
        requires count { count ≡ length (decimal number) }
        requires room { count ≤ length zeros.now }
        ensures ok { OnOk result (self.new ≡ self.old ++ decimal number) }
    {
        let len = self.len();
        self.bytes(zeros)?;
        let _start = write_digits(number, self.bytes.as_mut_slice(), len + count);
        self.truncate(len + count);
        Ok(())
    }

    /// Adds a number of any length. Not inlined, so that a short number needs no stack frame.
    #[inline(never)]
    fn any_number(&mut self, number: u64) -> Result<(), AllocError>
        ensures ok { OnOk result (self.new ≡ self.old ++ decimal number) }
    {
        if number < MIDDLING {
            return self.digits(number, digit_count(number), &[0u8; 8]);
        }
        self.long_number(number)
    }

    /// Adds a number of any length. Not inlined, since long numbers are rare.
    #[inline(never)]
    fn long_number(&mut self, number: u64) -> Result<(), AllocError>
        ensures ok { OnOk result (self.new ≡ self.old ++ decimal number) }
    {
        let mut buffer = [0u8; 40];
        let start = write_digits(number, &mut buffer, DIGITS);
        // A copy of constant length needs no call. The bytes after the digits are then removed.
        self.bytes(&buffer[start..start + DIGITS])?;
        let len = self.len() - start;
        self.truncate(len);
        Ok(())
    }

    /// Adds a signed number in decimal digits, with a minus if it is negative.
    pub fn signed(&mut self, number: i64) -> Result<(), AllocError>
        ensures ok { OnOk result (self.new ≡ self.old ++ signed_decimal number) }
    {
        if number >= 0 {
            return self.number(number.unsigned_abs());
        }
        self.byte(b'-')?;
        self.number(number.unsigned_abs())
    }

    /// Adds a signed 128-bit number in decimal digits.
    #[inline(always)]
    pub fn wide(&mut self, number: i128) -> Result<(), AllocError>
        ensures ok { OnOk result (self.new ≡ self.old ++ signed_decimal number) }
    {
        match i64::try_from(number) {
            Ok(short) => self.signed(short),
            Err(_) => self.very_wide(number),
        }
    }

    /// Adds a number of more than 64 bits. Not inlined: such numbers are rare, and their digits need a large stack frame,
    /// for which each call would pay.
    #[inline(never)]
    fn very_wide(&mut self, number: i128) -> Result<(), AllocError>
        ensures ok { OnOk result (self.new ≡ self.old ++ signed_decimal number) }
    {
        let mut digits = Buffer::new();
        self.text(digits.format(number))
    }
}
