//! Integer arithmetic, checked (ISO/IEC 8652:2012, 4.5). Each call gives the whole number of its operator where
//! that is an Integer, which is -2^31 .. 2^31 - 1 (3.5.4; the width is our own), and else says why there is none.

ghost use Rattle.std.specs.Prelude.{◌≡◌, false, ◌+ℤ◌, ◌-ℤ◌, ◌*ℤ◌, neg_ℤ, pos, unsigned_abs};
ghost use Rattle.std.specs.Int.RustNames.{int_div, int_rem};
ghost use Rattle.rv_value.specs.Arithmetic.{whole, divided, modulus, with_sign, is_zero};

use thiserror::Error;

/// Why there is no result.
#[derive(Clone, Copy, PartialEq, Eq, Debug, Error, Drop)]
pub enum Arith {
    /// It is no Integer (4.5, 3.5.4).
    #[error("Overflow")]
    Overflow,
    /// The right operand of `/`, `rem` or `mod` is 0 (4.5.5).
    #[error("ZeroDivisor")]
    ZeroDivisor,
}

// The number, where it is an Integer.
fn checked(value: i64) -> Result<i64, Arith>
    ensures { result ≡ whole value }
{
    if -2147483648 <= value && value <= 2147483647 {
        Ok(value)
    } else {
        Err(Arith::Overflow)
    }
}

/// `left + right` (4.5.3).
pub fn add(left: i64, right: i64) -> Result<i64, Arith>
    ensures { result ≡ whole (left +ℤ right) }
{
    match left.checked_add(right) {
        Some(sum) => checked(sum),
        None => Err(Arith::Overflow),
    }
}

/// `left - right` (4.5.3).
pub fn sub(left: i64, right: i64) -> Result<i64, Arith>
    ensures { result ≡ whole (left -ℤ right) }
{
    match left.checked_sub(right) {
        Some(difference) => checked(difference),
        None => Err(Arith::Overflow),
    }
}

/// `left * right` (4.5.5).
pub fn mul(left: i64, right: i64) -> Result<i64, Arith>
    ensures { result ≡ whole (left *ℤ right) }
{
    match left.checked_mul(right) {
        Some(product) => checked(product),
        None => Err(Arith::Overflow),
    }
}

/// `left / right`, truncated toward zero (4.5.5).
pub fn div(left: i64, right: i64) -> Result<i64, Arith>
    ensures { result ≡ divided right (int_div left right) }
{
    if right == 0 {
        return Err(Arith::ZeroDivisor);
    }
    match left.checked_div(right) {
        Some(quotient) => checked(quotient),
        None => Err(Arith::Overflow),
    }
}

/// `left rem right`, which has the sign of the left operand (4.5.5).
pub fn rem(left: i64, right: i64) -> Result<i64, Arith>
    ensures { result ≡ divided right (int_rem left right) }
{
    if right == 0 {
        return Err(Arith::ZeroDivisor);
    }
    checked(remainder(left, right))
}

/// `left mod right`, which has the sign of the right operand (4.5.5).
pub fn modulo(left: i64, right: i64) -> Result<i64, Arith>
    ensures { result ≡ divided right (modulus left right) }
{
    if right == 0 {
        return Err(Arith::ZeroDivisor);
    }
    checked(with_sign_of(remainder(left, right), right))
}

// The remainder by a divisor that isn't 0; the machine's own overflows at the least number by -1.
fn remainder(left: i64, right: i64) -> i64
    requires { is_zero right ≡ false }
    ensures { result ≡ int_rem left right }
{
    if right == -1 { 0 } else { left % right }
}

// The remainder, with the divisor added where their signs differ.
#[tactic(auto, unfolding(crate::specs::Arithmetic::with_sign))]
fn with_sign_of(remainder: i64, divisor: i64) -> i64
    ensures { result ≡ with_sign remainder divisor }
{
    if remainder < 0 {
        if 0 < divisor {
            remainder + divisor
        } else {
            remainder
        }
    } else if 0 < remainder {
        if divisor < 0 {
            remainder + divisor
        } else {
            remainder
        }
    } else {
        remainder
    }
}

/// `-value` (4.5.4).
pub fn neg(value: i64) -> Result<i64, Arith>
    ensures { result ≡ whole (neg_ℤ value) }
{
    match value.checked_neg() {
        Some(negative) => checked(negative),
        None => Err(Arith::Overflow),
    }
}

/// `abs value` (4.5.6).
pub fn abs(value: i64) -> Result<i64, Arith>
    ensures { result ≡ whole (pos (unsigned_abs value)) }
{
    match value.checked_abs() {
        Some(size) => checked(size),
        None => Err(Arith::Overflow),
    }
}
