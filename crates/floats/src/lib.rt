// Float helpers (document 01, module 1): what Rust's `as`, floor, ceil, min, max and total_cmp give, for every float,
// all NaNs taken as one, in operations that lose nothing. Each contract is an equality with a definition of specs/ or
// of the toolchain's IEEE 754.
#![tactic(auto)]

ghost use Rattle.std.specs.Prelude.{◌≡◌, ◌≤◌, ℕ, false, not, T, pos, negsuc, is_nan};
ghost use Rattle.std.specs.Ordering.{float_partial_cmp, nat_cmp};
ghost use Rattle.std.specs.Float.{Float as Number, Format, binary32, binary64, fin};
ghost use Rattle.std.specs.Float.Ieee.{fits, to_unsigned, lt, le};
ghost use Rattle.floats.specs.Signs.{negative};
ghost use Rattle.floats.specs.Convert.{converted};
ghost use Rattle.floats.specs.Whole.{floored, ceiled};
ghost use Rattle.floats.specs.MinMax.{min_number, max_number};
ghost use Rattle.floats.specs.TotalOrder.{compared, sign_of, order_key};
ghost use Rattle.floats.specs.Ratio.{f32_of_count};
ghost use Rattle.std.proofs.Common.{refl};

use std::cmp::Ordering;
use std::num::truncating_f64_to_u64;

// f32 or f64: a format, an order, and the steps that each takes by functions of its own. That a value is a float of its
// format is in their clauses, since a proof over every such type could not know it.
pub trait Float: Copy + PartialOrd + Into<f64> {
    // The unsigned integer of as many bits.
    type Key: Copy + Ord;

    ghost format: { Format };

    // a value as the definitions see it, and a key as a number
    ghost number: { Self → Number };

    ghost key: { Self.Key → ℕ };

    fn is_nan(self) -> bool
        ensures { result ≡ is_nan (number self) };

    fn floor(self) -> Self
        ensures { number result ≡ floored format (number self) };

    fn ceil(self) -> Self
        ensures { number result ≡ ceiled format (number self) };

    // A number that stands among the numbers as the float stands among the floats: the bits without the sign, upwards
    // from the middle, or downwards where the sign is on. The sign is a factor and not a branch. Each type has its own
    // body, since one for both would need two laws of each of five operators of Key.
    fn order_key(self) -> Self::Key
        ensures key { key result ≡ order_key format (number self) }
        ensures in_format { T (fits format (number self)) };

    // The order and the conversion are IEEE 754's, and keys compare as numbers.
    ghost compares: { (a b : Self) → Self.partial_cmp a b ≡ float_partial_cmp (number a) (number b) };

    ghost widens: { (a : Self) (r : Number) → Self.converts a r → r ≡ number a };

    ghost keys_compare: { (x y : Self.Key) → Self.Key.cmp x y ≡ nat_cmp (key x) (key y) };
}

impl Float for f32 {
    type Key = u32;

    ghost format = { binary32 };

    ghost number = { λ x. x };

    ghost key = { λ k. k };

    fn is_nan(self) -> bool {
        f32::is_nan(self)
    }

    #[tactic(auto, using(crate::proofs::Whole::floor_by_std))]
    fn floor(self) -> f32 {
        f32::floor(self)
    }

    #[tactic(auto, using(crate::proofs::Whole::ceil_by_std))]
    fn ceil(self) -> f32 {
        f32::ceil(self)
    }

    fn order_key(self) -> u32 {
        if self.is_nan() {
            return 0xffc0_0000;
        }
        let bits = f32::to_bits(self);
        let size = bits % 0x8000_0000;
        let sign = bits / 0x8000_0000;
        size + 0x8000_0000 - sign * (size + size + 1)
    }

    ghost compares = { λ a b. refl };

    ghost widens = { λ a r h. h };

    ghost keys_compare = { λ x y. refl };
}

impl Float for f64 {
    type Key = u64;

    ghost format = { binary64 };

    ghost number = { λ x. x };

    ghost key = { λ k. k };

    fn is_nan(self) -> bool {
        f64::is_nan(self)
    }

    #[tactic(auto, using(crate::proofs::Whole::floor_by_std))]
    fn floor(self) -> f64 {
        f64::floor(self)
    }

    #[tactic(auto, using(crate::proofs::Whole::ceil_by_std))]
    fn ceil(self) -> f64 {
        f64::ceil(self)
    }

    fn order_key(self) -> u64 {
        if self.is_nan() {
            return 0xfff8_0000_0000_0000;
        }
        let bits = f64::to_bits(self);
        let size = bits % 0x8000_0000_0000_0000;
        let sign = bits / 0x8000_0000_0000_0000;
        size + 0x8000_0000_0000_0000 - sign * (size + size + 1)
    }

    ghost compares = { λ a b. refl };

    ghost widens = { λ a r h. h };

    ghost keys_compare = { λ x y. refl };
}

// The f32 nearest to a magnitude, ties to even, as an f64.
//
// Adding a power of two whose last f64 digit weighs as much as the result's last f32 digit rounds there, and taking it
// away again is exact. Below the normal range of f32 that digit weighs 2^-149, so the power is at least 2^-97.
fn nearest_f32(size: f64) -> f64
    requires { T (not (is_nan size)) × (negative size ≡ false) }
    ensures { result ≡ converted binary32 size }
{
    // from 2^128 - 2^103 on the nearest is an infinity
    if size >= 3.4028235677973366e38 {
        return f64::INFINITY;
    }
    let exponent = f64::to_bits(size) / 0x10_0000_0000_0000;
    let power = max(
        6.310887241768095e-30,
        f64::from_bits((exponent + 29) * 0x10_0000_0000_0000),
    );
    (size + power) - power
}

// Rust's `x as f32`: the nearest f32, ties to even. std's `nearest_f64_to_f32_with_nan` takes two to three times as
// long.
pub fn narrow(x: f64) -> f32
    ensures { result ≡ converted binary32 x }
{
    if x.is_nan() {
        return f32::NAN;
    }
    let bits = f64::to_bits(x);
    let unsigned = bits % 0x8000_0000_0000_0000;
    let nearest = nearest_f32(f64::from_bits(unsigned));
    f64::from_bits(f64::to_bits(nearest) + (bits - unsigned)) as f32
}

// Rust's `x as f64`: the same value.
pub fn widen(x: f32) -> f64
    ensures { result ≡ converted binary64 x }
{
    f64::from(x)
}

// A count as an f32: exact up to 2^24.
pub fn count_to_f32(count: u32) -> f32
    requires { count ≤ 16777216 }
    ensures { result ≡ f32_of_count count }
{
    count as f32
}

// The whole part of a number from 1/2 up to 2^53: its digits, the leading one put back, shifted by its exponent. From
// 1/2 on the shift is at most 53 places, and no branch at 1 is needed.
pub fn whole_part(x: f64) -> u64
    requires { T (le (fin false 1 (negsuc 0)) x) × T (lt x (fin false 1 (pos 53))) }
    ensures { result ≡ to_unsigned 64 x }
{
    let bits = f64::to_bits(x);
    let exponent = bits / 0x10_0000_0000_0000;
    let digits = bits % 0x10_0000_0000_0000 + 0x10_0000_0000_0000;
    digits >> (1075 - exponent)
}

// Rust's `x as u64`: toward zero, to the nearest end of the range where x is out of it, 0 for a NaN. On numbers of both
// signs std's `saturating_f64_to_u64` takes three times as long.
pub fn to_u64<F: Float>(x: F) -> u64
    ensures { result ≡ to_unsigned 64 (F.number x) }
{
    let wide: f64 = x.into();
    if wide >= 9007199254740992.0 {
        if wide >= 18446744073709551616.0 {
            return u64::MAX;
        }
        return truncating_f64_to_u64(wide);
    }
    whole_part(max(0.5, wide))
}

// Rust's `x as usize`: the same, cast, since a usize has 64 bits.
pub fn to_usize<F: Float>(x: F) -> usize
    ensures { result ≡ to_unsigned 64 (F.number x) }
{
    to_u64(x) as usize
}

// The greatest whole number not above x.
pub fn floor<F: Float>(x: F) -> F
    ensures { F.number result ≡ floored F.format (F.number x) }
{
    x.floor()
}

// The least whole number not below x.
pub fn ceil<F: Float>(x: F) -> F
    ensures { F.number result ≡ ceiled F.format (F.number x) }
{
    x.ceil()
}

// Rust's a.min(b), with `a` accumulated: a NaN is ignored, and of two zeros the first is kept; std's `min` and `max`
// leave open which. Two operands, as min, max and total_cmp have them.
pub fn min<F: Float>(a: F, b: F) -> F
    ensures { F.number result ≡ min_number (F.number a) (F.number b) }
{
    if b < a {
        return b;
    }
    if a.is_nan() {
        return b;
    }
    a
}

// Rust's a.max(b), with `a` accumulated: a NaN is ignored, and of two zeros the first is kept.
pub fn max<F: Float>(a: F, b: F) -> F
    ensures { F.number result ≡ max_number (F.number a) (F.number b) }
{
    if a < b {
        return b;
    }
    if a.is_nan() {
        return b;
    }
    a
}

// −1, 0 or 1, as C gets an order, which is no enum there. A function and no From: neither type is this crate's.
pub fn sign(order: Ordering) -> i32
    ensures { result ≡ sign_of order }
{
    order as i32
}

// A number that stands among the numbers as x stands among the floats.
pub fn order_key<F: Float>(x: F) -> F::Key
    ensures { F.key result ≡ order_key F.format (F.number x) }
{
    x.order_key()
}

// Rust's a.total_cmp(&b), with every NaN the one above all; std's asks that there is none.
pub fn total_cmp<F: Float>(a: F, b: F) -> Ordering
    ensures { result ≡ compared (F.number a) (F.number b) }
{
    a.order_key().cmp(&b.order_key())
}
