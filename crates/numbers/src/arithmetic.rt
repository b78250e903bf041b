// Arithmetic within i64: each operator's value, or its refusal. Nothing wraps.
ghost use Rattle.std.specs.Prelude.{◌≡◌, nat_abs};
ghost use Rattle.numbers.specs.Arithmetic.{val, arith, add, sub, mul, div, compare, flag, negated, oddness};
ghost use Rattle.numbers.specs.Answers.{val_of, arith_of, compare_of};

use crate::refusal::Refusal;

// + - * /
#[derive(Clone, Copy, PartialEq, Eq)]
pub enum Arith {
    Add,
    Sub,
    Mul,
    Div,
}

// = <> < >= > <=
#[derive(Clone, Copy, PartialEq, Eq)]
pub enum Compare {
    Equal,
    Unequal,
    Less,
    AtLeast,
    Greater,
    AtMost,
}

impl Arith {
    pub fn apply(self, a: i64, b: i64) -> Result<i64, Refusal>
        ensures { val_of result ≡ arith (arith_of self) a b }
    {
        match self {
            Arith::Add => add(a, b),
            Arith::Sub => sub(a, b),
            Arith::Mul => mul(a, b),
            Arith::Div => div(a, b),
        }
    }
}

impl Compare {
    // Whether it holds.
    pub fn holds(self, a: i64, b: i64) -> bool
        ensures { result ≡ compare (compare_of self) a b }
    {
        match self {
            Compare::Equal => a == b,
            Compare::Unequal => a != b,
            Compare::Less => a < b,
            Compare::AtLeast => a >= b,
            Compare::Greater => a > b,
            Compare::AtMost => a <= b,
        }
    }
}

#[tactic(auto, using(crate::proofs::Sums::sum_told))]
pub fn add(a: i64, b: i64) -> Result<i64, Refusal>
    ensures { val_of result ≡ arith add a b }
{
    a.checked_add(b).ok_or(Refusal::ResultOutside)
}

pub fn sub(a: i64, b: i64) -> Result<i64, Refusal>
    ensures { val_of result ≡ arith sub a b }
{
    a.checked_sub(b).ok_or(Refusal::ResultOutside)
}

pub fn mul(a: i64, b: i64) -> Result<i64, Refusal>
    ensures { val_of result ≡ arith mul a b }
{
    a.checked_mul(b).ok_or(Refusal::ResultOutside)
}

// Toward zero.
pub fn div(a: i64, b: i64) -> Result<i64, Refusal>
    ensures { val_of result ≡ arith div a b }
{
    if b == 0 {
        return Err(Refusal::DivisionByZero);
    }
    a.checked_div(b).ok_or(Refusal::ResultOutside)
}

pub fn negate(a: i64) -> Result<i64, Refusal>
    ensures { val_of result ≡ negated a }
{
    a.checked_neg().ok_or(Refusal::ResultOutside)
}

// The remainder by 2: -1 for a negative odd value.
pub fn remainder(a: i64) -> i64
    ensures { val result ≡ oddness a }
{
    a % 2
}

// The magnitude of x.
pub fn magnitude(x: i64) -> u64
    ensures { result ≡ nat_abs x }
{
    x.unsigned_abs()
}

// 1 where it holds, else 0.
pub fn flag_of(holds: bool) -> i64
    ensures { result ≡ flag holds }
{
    i64::from(holds)
}
