//! Division of numbers without sign, at 64 bits and at 128.
ghost use Rattle.std.specs.Prelude.{◌≡◌, ◌<◌, ◌≤◌, ◌^◌};
ghost use Rattle.scalar_value.specs.Numbers.{signs_differ as apart, half_size as nearest, floor_size as rounded_down, rest_size as left_over};

/// The nearest whole number to `a / b`, of two equally near ones the greater.
pub fn half_size(a: u64, b: u64) -> u64
    requires divisor { 0 < b }
    requires small { a ≤ 2 ^ 63 }
    ensures { result ≡ nearest a b }
{
    let rest = a % b;
    if rest < b - rest { a / b } else { a / b + 1 }
}

/// The quotient, rounded up where the signs differ and down else.
pub fn floor_size(differ: bool, a: u64, b: u64) -> u64
    requires divisor { 0 < b }
    requires small { a ≤ 2 ^ 63 }
    ensures { result ≡ rounded_down differ a b }
{
    if differ { a.div_ceil(b) } else { a / b }
}

/// What that quotient leaves, without its sign.
pub fn rest_size(differ: bool, a: u64, b: u64) -> u64
    requires { 0 < b }
    ensures { result ≡ left_over differ a b }
{
    if differ { (b - a % b) % b } else { a % b }
}

/// `half_size` at 128 bits.
pub fn half_size_wide(a: u128, b: u128) -> u128
    requires divisor { 0 < b }
    requires small { a ≤ 2 ^ 127 }
    ensures { result ≡ nearest a b }
{
    let rest = a % b;
    if b - rest <= rest { a / b + 1 } else { a / b }
}

/// `floor_size` at 128 bits.
pub fn floor_size_wide(differ: bool, a: u128, b: u128) -> u128
    requires divisor { 0 < b }
    requires small { a ≤ 2 ^ 127 }
    ensures { result ≡ rounded_down differ a b }
{
    if !differ { a / b } else { a.div_ceil(b) }
}

/// `rest_size` at 128 bits.
pub fn rest_size_wide(differ: bool, a: u128, b: u128) -> u128
    requires { 0 < b }
    ensures { result ≡ left_over differ a b }
{
    if differ { (b - a % b) % b } else { a % b }
}

/// Whether exactly one of the two numbers is below 0.
pub fn signs_differ(a: i64, b: i64) -> bool
    ensures { result ≡ apart a b }
{
    (a < 0) != (b < 0)
}

/// `signs_differ` at 128 bits.
pub fn signs_differ_wide(a: i128, b: i128) -> bool
    ensures { result ≡ apart a b }
{
    (a < 0) != (b < 0)
}
