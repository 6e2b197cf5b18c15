// Leaves on signed numbers: sign, absolute value, negation, checked sum and difference, conversions.
#![tactic(auto)]

ghost use Rattle.std.specs.Prelude.{◌≡◌, false, ◌<◌, pos, negsuc, nat_abs, neg_ℤ, ◌+ℤ◌, ◌-ℤ◌};
ghost use Rattle.signed.specs.Sign.{is_negative, wanted};
ghost use Rattle.signed.specs.Checked.{checked};

// Whether a number is below zero.
pub fn is_negative(x: i64) -> bool
    ensures { result ≡ is_negative x }
{
    x < 0
}

// Whether a 32-bit number is below zero.
pub fn is_negative_i32(x: i32) -> bool
    ensures { result ≡ is_negative x }
{
    x < 0
}

// The absolute value; that of -2^63 is 2^63.
pub fn magnitude(x: i64) -> u64
    ensures { result ≡ nat_abs x }
{
    if x < 0 {
        ((-1 - x) as u64) + 1
    } else {
        x as u64
    }
}

// The negation of a number other than -2^63.
pub fn negate(x: i64) -> i64
    requires { nat_abs x < 9223372036854775808 }
    ensures { result ≡ neg_ℤ x }
{
    -x
}

// The sum of two numbers.
pub fn checked_add(a: i64, b: i64) -> Option<i64>
    ensures { result ≡ checked (a +ℤ b) }
{
    if b < 0 {
        if a < -9223372036854775808 - b {
            None
        } else {
            Some(a + b)
        }
    } else {
        if 9223372036854775807 - b < a {
            None
        } else {
            Some(a + b)
        }
    }
}

// The difference of two numbers.
pub fn checked_sub(a: i64, b: i64) -> Option<i64>
    ensures { result ≡ checked (a -ℤ b) }
{
    if b < 0 {
        if 9223372036854775807 + b < a {
            None
        } else {
            Some(a - b)
        }
    } else {
        if a < -9223372036854775808 + b {
            None
        } else {
            Some(a - b)
        }
    }
}

// Whether a spend (or else an unspend) takes this entry.
pub fn is_wanted(spend: bool, x: i64) -> bool
    ensures { result ≡ wanted spend x }
{
    if spend { 0 <= x } else { x <= 0 }
}

// A number below 2^63, with a sign.
pub fn i64_from_u64(u: u64) -> i64
    requires { u < 9223372036854775808 }
    ensures { result ≡ pos u }
{
    u as i64
}

// A size below 2^63, with a sign.
pub fn i64_from_usize(n: usize) -> i64
    requires { n < 9223372036854775808 }
    ensures { result ≡ pos n }
{
    n as i64
}

// A signed number of 32 bits in 64.
pub fn i64_from_i32(x: i32) -> i64
    ensures { result ≡ x }
{
    x as i64
}

// A size below 2^31, with a sign.
pub fn i32_from_usize(n: usize) -> i32
    requires { n < 2147483648 }
    ensures { result ≡ pos n }
{
    n as i32
}

// The size of a number that is not negative.
pub fn usize_from_i32(x: i32) -> usize
    requires { is_negative x ≡ false }
    ensures { result ≡ nat_abs x }
{
    x as usize
}

// -1 - u: the negative number whose bits are the complement of those of u.
pub fn negsuc_from_u64(u: u64) -> i64
    requires { u < 9223372036854775808 }
    ensures { result ≡ negsuc u }
{
    -1 - (u as i64)
}
