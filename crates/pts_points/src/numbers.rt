//! Numbers in the widths that lists keep.

ghost use Rattle.std.specs.Prelude.{◌≡◌, ◌+◌, ◌-◌, ◌/◌, ◌<◌, ◌≤◌, ◌^◌, ◌*ℤ◌, nat_abs};
ghost use Rattle.pts_points.specs.Widths as spec;

/// In 32 bits: the nearest number.
pub fn small(n: u128) -> u32
    ensures { result ≡ spec.small n }
{
    if n < u128::from(u32::MAX) {
        n as u32
    } else {
        u32::MAX
    }
}

/// In 64 bits with a sign: the nearest number.
pub fn clamp(z: i128) -> i64
    ensures { result ≡ spec.clamp z }
{
    if z < i128::from(i64::MIN) {
        i64::MIN
    } else if z > i128::from(i64::MAX) {
        i64::MAX
    } else {
        z as i64
    }
}

/// The exact product.
pub fn product(a: i64, b: i64) -> i128
    ensures value { result ≡ a *ℤ b }
    ensures small { nat_abs result ≤ 2 ^ 126 }
{
    i128::from(a) * i128::from(b)
}
