// Module 1, float helpers: two exports for each that has a width, since C has no generic functions. An order is −1, 0
// or 1, since C has no enum for it.
ghost use Rattle.std.specs.Prelude.{◌≡◌};
ghost use Rattle.std.specs.Float.{binary32, binary64};
ghost use Rattle.std.specs.Float.Ieee.{to_unsigned};
ghost use Rattle.floats.specs.Convert.{converted};
ghost use Rattle.floats.specs.Whole.{floored, ceiled};
ghost use Rattle.floats.specs.MinMax.{min_number, max_number};
ghost use Rattle.floats.specs.TotalOrder.{compared, sign_of, order_key};

// Rust's `x as f32`: the nearest f32, ties to even.
#[unsafe(no_mangle)]
pub extern "C" fn vayemuku_narrow(x: f64) -> f32
    ensures { result ≡ converted binary32 x }
{
    floats::narrow(x)
}

// Rust's `x as f64`.
#[unsafe(no_mangle)]
pub extern "C" fn vayemuku_widen(x: f32) -> f64
    ensures { result ≡ converted binary64 x }
{
    floats::widen(x)
}

// Rust's `x as u64`: toward zero, held to the range, 0 for a NaN.
#[unsafe(no_mangle)]
pub extern "C" fn vayemuku_f64_to_u64(x: f64) -> u64
    ensures { result ≡ to_unsigned 64 x }
{
    floats::to_u64(x)
}

#[unsafe(no_mangle)]
pub extern "C" fn vayemuku_f32_to_u64(x: f32) -> u64
    ensures { result ≡ to_unsigned 64 x }
{
    floats::to_u64(x)
}

// Rust's `x as usize`.
#[unsafe(no_mangle)]
pub extern "C" fn vayemuku_f64_to_usize(x: f64) -> usize
    ensures { result ≡ to_unsigned 64 x }
{
    floats::to_usize(x)
}

#[unsafe(no_mangle)]
pub extern "C" fn vayemuku_f32_to_usize(x: f32) -> usize
    ensures { result ≡ to_unsigned 64 x }
{
    floats::to_usize(x)
}

// The greatest whole number not above x.
#[unsafe(no_mangle)]
pub extern "C" fn vayemuku_floor_f64(x: f64) -> f64
    ensures { result ≡ floored binary64 x }
{
    floats::floor(x)
}

#[unsafe(no_mangle)]
pub extern "C" fn vayemuku_floor_f32(x: f32) -> f32
    ensures { result ≡ floored binary32 x }
{
    floats::floor(x)
}

// The least whole number not below x.
#[unsafe(no_mangle)]
pub extern "C" fn vayemuku_ceil_f64(x: f64) -> f64
    ensures { result ≡ ceiled binary64 x }
{
    floats::ceil(x)
}

#[unsafe(no_mangle)]
pub extern "C" fn vayemuku_ceil_f32(x: f32) -> f32
    ensures { result ≡ ceiled binary32 x }
{
    floats::ceil(x)
}

// A number that stands among the numbers as x stands in total_cmp's order.
#[unsafe(no_mangle)]
pub extern "C" fn vayemuku_order_key_f64(x: f64) -> u64
    ensures { result ≡ order_key binary64 x }
{
    floats::order_key(x)
}

#[unsafe(no_mangle)]
pub extern "C" fn vayemuku_order_key_f32(x: f32) -> u32
    ensures { result ≡ order_key binary32 x }
{
    floats::order_key(x)
}

// Rust's a.min(b): a NaN is ignored, and of two zeros the first is kept.
#[unsafe(no_mangle)]
pub extern "C" fn vayemuku_min_f64(a: f64, b: f64) -> f64
    ensures { result ≡ min_number a b }
{
    floats::min(a, b)
}

#[unsafe(no_mangle)]
pub extern "C" fn vayemuku_min_f32(a: f32, b: f32) -> f32
    ensures { result ≡ min_number a b }
{
    floats::min(a, b)
}

// Rust's a.max(b), likewise.
#[unsafe(no_mangle)]
pub extern "C" fn vayemuku_max_f64(a: f64, b: f64) -> f64
    ensures { result ≡ max_number a b }
{
    floats::max(a, b)
}

#[unsafe(no_mangle)]
pub extern "C" fn vayemuku_max_f32(a: f32, b: f32) -> f32
    ensures { result ≡ max_number a b }
{
    floats::max(a, b)
}

// Rust's a.total_cmp(&b), with every NaN the one above all: −1 for less, 0 for equal, 1 for greater.
#[unsafe(no_mangle)]
pub extern "C" fn vayemuku_total_cmp_f64(a: f64, b: f64) -> i32
    ensures { result ≡ sign_of (compared a b) }
{
    floats::sign(floats::total_cmp(a, b))
}

#[unsafe(no_mangle)]
pub extern "C" fn vayemuku_total_cmp_f32(a: f32, b: f32) -> i32
    ensures { result ≡ sign_of (compared a b) }
{
    floats::sign(floats::total_cmp(a, b))
}
