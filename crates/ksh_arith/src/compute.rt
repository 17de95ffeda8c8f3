ghost use Rattle.std.specs.Prelude.{◌≡◌, ◌<◌, ◌^◌, ◌%◌};
ghost use Rattle.ksh_arith.specs.Values.{unary_value, binary_value, power_value, stepped, step_value, shift_count, quotient, remainder};

use crate::fault::NumFault;
use arith_tree::{BinaryOp, StepWay, UnaryOp};

/// An operator on one number.
pub fn unary(op: UnaryOp, value: i64) -> i64
    ensures { result ≡ unary_value op value }
{
    match op {
        UnaryOp::Plus => value,
        UnaryOp::Minus => value.wrapping_neg(),
        UnaryOp::Not => i64::from(value == 0),
        UnaryOp::Complement => !value,
    }
}

/// The value after a step.
pub fn step(way: StepWay, value: i64) -> i64
    ensures { result ≡ stepped way value }
{
    if way.down {
        value.wrapping_sub(1)
    } else {
        value.wrapping_add(1)
    }
}

/// The value of a step, by the values before and after.
pub fn step_result(way: StepWay, before: i64, after: i64) -> i64
    ensures { result ≡ step_value way before after }
{
    if way.before { before } else { after }
}

/// An operator on two numbers.
pub fn binary(op: BinaryOp, left: i64, right: i64) -> Result<i64, NumFault>
    ensures { result ≡ binary_value op left right }
{
    match op {
        BinaryOp::BitOr => Ok(left | right),
        BinaryOp::BitXor => Ok(left ^ right),
        BinaryOp::BitAnd => Ok(left & right),
        BinaryOp::Equal => Ok(i64::from(left == right)),
        BinaryOp::NotEqual => Ok(i64::from(left != right)),
        BinaryOp::Less => Ok(i64::from(left < right)),
        BinaryOp::LessEqual => Ok(i64::from(left <= right)),
        BinaryOp::Greater => Ok(i64::from(left > right)),
        BinaryOp::GreaterEqual => Ok(i64::from(left >= right)),
        BinaryOp::ShiftLeft => Ok(left.wrapping_shl(count(right))),
        BinaryOp::ShiftRight => Ok(left.wrapping_shr(count(right))),
        BinaryOp::Add => Ok(left.wrapping_add(right)),
        BinaryOp::Subtract => Ok(left.wrapping_sub(right)),
        BinaryOp::Multiply => Ok(left.wrapping_mul(right)),
        BinaryOp::Divide => quotient(left, right),
        BinaryOp::Remainder => remainder(left, right),
    }
}

/// A shift's count, modulo 64.
fn count(value: i64) -> u32
    ensures value { result ≡ shift_count value }
    ensures small { result < 64 }
{
    (value.cast_unsigned() % 64) as u32
}

fn quotient(left: i64, right: i64) -> Result<i64, NumFault>
    ensures { result ≡ quotient left right }
{
    if right == 0 {
        return Err(NumFault::DivideByZero);
    }
    Ok(left.wrapping_div(right))
}

fn remainder(left: i64, right: i64) -> Result<i64, NumFault>
    ensures { result ≡ remainder left right }
{
    if right == 0 {
        return Err(NumFault::DivideByZero);
    }
    Ok(left.wrapping_rem(right))
}

/// A power.
pub fn power(base: i64, exponent: i64) -> Result<i64, NumFault>
    ensures { result ≡ power_value base exponent }
{
    if exponent < 0 {
        return Err(NumFault::NegativeExponent);
    }
    let bits = raise(base.cast_unsigned(), exponent.cast_unsigned());
    Ok(bits.cast_signed())
}

/// A power modulo 2^64.
fn raise(base: u64, exponent: u64) -> u64
    requires { exponent < 2 ^ 63 }
    ensures { result ≡ base ^ exponent % 2 ^ 64 }
{
    if exponent < 1 << 32 {
        return base.wrapping_pow(exponent as u32);
    }
    let low = base.wrapping_pow((exponent % (1 << 31)) as u32);
    let high = base
        .wrapping_pow(1 << 31)
        .wrapping_pow((exponent / (1 << 31)) as u32);
    high.wrapping_mul(low)
}
