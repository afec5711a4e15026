// The arithmetic of scripts, on signed 32-bit numbers that wrap.
ghost use Rattle.std.specs.Prelude.{◌≡◌};
ghost use Rattle.script.specs.Arithmetic.{computed};
ghost use Rattle.script.specs.Cases.{AllStand};

use crate::node::Operation;

// The quotient cut toward zero, and 0 by 0.
fn quotient(a: i32, b: i32) -> i32
    ensures { result ≡ computed Operation.Div a b }
{
    if b == 0 { 0 } else { a.wrapping_div(b) }
}

// What the quotient leaves over.
fn remainder(a: i32, b: i32) -> i32
    ensures { result ≡ computed Operation.Rem a b }
{
    if b == 0 { a } else { a.wrapping_rem(b) }
}

// What an operation makes of two numbers.
pub fn compute(operation: Operation, a: i32, b: i32) -> i32
    ensures { result ≡ computed operation a b }
{
    match operation {
        Operation::Add => a.wrapping_add(b),
        Operation::Sub => a.wrapping_sub(b),
        Operation::Mul => a.wrapping_mul(b),
        Operation::Div => quotient(a, b),
        Operation::Rem => remainder(a, b),
        Operation::Lt => i32::from(a < b),
        Operation::Eq => i32::from(a == b),
    }
}

// The worked cases of the arithmetic stand.
pub fn cases_stand()
    ensures { AllStand }
{}
