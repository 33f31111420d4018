// A page that is filled from its front: bytes, and numbers as decimal digits.
#![tactic(auto)]

ghost use Rattle.std.specs.Prelude.{◌+◌, ◌≤◌, length};
ghost use Rattle.pages.specs.Pages.{decimal, digits_most, Puts};

// The digits of any number of 64 bits.
pub const DIGITS: usize = 20;

// Bytes, at a place; the place behind them.
pub fn put(page: &mut [u8], at: usize, bytes: &[u8]) -> usize
    requires { at + length bytes.now ≤ length page.old }
    ensures { Puts page.old at bytes.now result page.new }
{
    // One by one: the library's copy becomes memmove here, which the archive for C does not want (include/stil.h).
    for i in 0..bytes.len() {
        page[at + i] = bytes[i];
    }
    at + bytes.len()
}

// A number's digits, without leading zeros.
pub fn put_number(page: &mut [u8], at: usize, n: u64) -> usize
    requires { at + digits_most ≤ length page.old }
    ensures { Puts page.old at (decimal n) result page.new }
{
    let mut digits = [0u8; DIGITS];
    let mut first = DIGITS - 1;
    let mut left = n;
    while 10 <= left {
        digits[first] = b'0' + (left % 10) as u8;
        left = left / 10;
        first -= 1;
    }
    digits[first] = b'0' + left as u8;
    put(page, at, &digits[first..])
}
