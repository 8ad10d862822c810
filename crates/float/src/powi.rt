// A number raised to an integer power, by squaring.
// Method: https://stackoverflow.com/a/101613
ghost use Rattle.std.specs.Prelude.{◌≡◌, ◌+◌, ◌≤◌, length, MatchOption};
ghost use Rattle.std.proofs.Math.Option.{none, some};
ghost use Rattle.float.specs.Powi.{squared, ended, taken, works, from, start, powi_works, squaring_word, is_zero, is_near_one, approx, is_past, infinite, early, powi_word, products_of, work_of};

use crate::F32;
use format::Number;

// A number, and how many products were formed for it.
#[derive(Clone, Copy)]
pub struct Counted {
    pub number: F32,
    pub products: u32,
}

impl F32 {
    // Where the power is the least integer, whose magnitude is no integer, the answer is a NaN. Inlined it
    // makes the calls by number longer, those of the other operations too; and a caller that counts nothing
    // has a loop that counts nothing.
    #[inline(never)]
    pub fn powi(self, n: i32) -> F32
        ensures { result.0 ≡ powi_word self.0 n }
    {
        self.powi_counted(n).number
    }

    // The same, and how many products it took: none where the answer is given early.
    pub fn powi_counted(self, n: i32) -> Counted
        ensures number { result.number.0 ≡ powi_word self.0 n }
        ensures products { result.products ≡ products_of self.0 n }
    {
        match early(self, n) {
            Some(number) => Counted {
                number,
                products: 0,
            },
            None => multiplied(self, n),
        }
    }
}

// An answer that needs no product.
fn early(x: F32, n: i32) -> Option<F32>
    ensures { MatchOption result (early x.0 n ≡ none) (λ y. early x.0 n ≡ some y.0) }
{
    if n == i32::MIN {
        Some(F32::NAN)
    } else if n == 0 {
        Some(F32::ONE)
    } else if is_zero(x) && n > 0 {
        Some(x)
    } else if is_near_one(x) {
        None
    } else if is_past(x, n) {
        Some(infinite(x, n))
    } else if approx(x, n) < -149 {
        Some(F32::ZERO)
    } else {
        None
    }
}

fn is_zero(x: F32) -> bool
    ensures { result ≡ is_zero x.0 }
{
    x.value() == 0.0
}

// A number from 0.5 to below 2 may be multiplied long without leaving the range.
fn is_near_one(x: F32) -> bool
    ensures { result ≡ is_near_one x.0 }
{
    let magnitude = x.abs().value();
    0.5 <= magnitude && magnitude < 2.0
}

// About the exponent of the power. The product wraps.
fn approx(x: F32, n: i32) -> i32
    ensures { result ≡ approx x.0 n }
{
    x.extract_exponent_value().wrapping_mul(n)
}

fn is_past(x: F32, n: i32) -> bool
    ensures { result ≡ is_past x.0 n }
{
    let exponent = approx(x, n);
    exponent > 127 || (is_zero(x) && exponent < 0)
}

// The infinity of an even power, or of an odd one with the operand's sign.
fn infinite(x: F32, n: i32) -> F32
    ensures { result.0 ≡ infinite x.0 n }
{
    if x.is_sign_positive() || n.unsigned_abs() % 2 == 0 {
        F32::INFINITY
    } else {
        F32::NEG_INFINITY
    }
}

fn multiplied(x: F32, n: i32) -> Counted
    ensures number { result.number.0 ≡ squaring_word x.0 n }
    ensures products { result.products ≡ length (powi_works x.0 n) }
{
    let held = raised(base(x, n), n.unsigned_abs());
    Counted {
        number: F32::of(held.result),
        products: held.products,
    }
}

fn base(x: F32, n: i32) -> f32
    ensures { result ≡ (start x.0 n).base }
{
    if n < 0 { 1.0 / x.value() } else { x.value() }
}

// What is held between two products, and how many were formed before: for a magnitude of 32 bits 63
// at most, so that one more can be counted.
#[derive(Clone, Copy)]
struct Held {
    base: f32,
    result: f32,
    products: u32,
}

impl Held {
    // The base taken into the result, a product, where the lowest bit of m is set.
    fn taken(self, m: u32) -> Held
        requires { self.products ≤ 63 }
        ensures work { work_of result ≡ ended (work_of self) (taken m (work_of self)) }
        ensures products { result.products ≡ self.products + length (taken m (work_of self)) }
    {
        if m % 2 == 0 {
            self
        } else {
            Held {
                result: self.result * self.base,
                products: self.products + 1,
                ..self
            }
        }
    }

    // The base by itself, a product.
    fn squared(self) -> Held
        requires { self.products ≤ 63 }
        ensures work { work_of result ≡ squared (work_of self) }
        ensures products { result.products ≡ self.products + 1 }
    {
        Held {
            base: self.base * self.base,
            products: self.products + 1,
            ..self
        }
    }
}

// The bits of the magnitude, the lowest first, taken by halving it: no range counts them.
fn raised(base: f32, magnitude: u32) -> Held
    ensures work { work_of result ≡ ended (from base) (works 32 magnitude (from base)) }
    ensures products { result.products ≡ length (works 32 magnitude (from base)) }
{
    let mut held = Held {
        base,
        result: 1.0,
        products: 0,
    };
    let mut m = magnitude;
    while m > 1 {
        held = held.taken(m).squared();
        m /= 2;
    }
    held.taken(m)
}
