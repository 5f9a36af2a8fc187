// Signed arithmetic and the limits.
ghost use Rattle.std.specs.Prelude.{◌≡◌, ◌-ℤ◌};
ghost use Rattle.integers.specs.Promise.{Decided, Quotient, Rounded, Between};
ghost use Rattle.rules.specs.Limits.{UnitWithin, CountWithin, WidthWithin, RiseWithin};

pub fn negwafir_difference(left: i32, right: i32) -> i64
    ensures { result ≡ right -ℤ left }
{
    integers::difference(left, right)
}

pub fn negwafir_between(low: i64, x: i64, high: i64) -> bool
    ensures { Decided (Between low x high) result }
{
    integers::between(low, x, high)
}

pub fn negwafir_floor_div(n: i64, d: i64) -> i64
    ensures { Quotient n d result }
{
    integers::floor_div(n, d)
}

pub fn negwafir_nearest_div(n: i64, d: i64) -> i64
    ensures { Rounded n d result }
{
    integers::nearest_div(n, d)
}

pub fn negwafir_unit_within(s: u32) -> bool
    ensures { Decided (UnitWithin s) result }
{
    rules::unit_within(s)
}

pub fn negwafir_count_within(n: usize) -> bool
    ensures { Decided (CountWithin n) result }
{
    rules::count_within(n)
}

pub fn negwafir_width_within(h: i64) -> bool
    ensures { Decided (WidthWithin h) result }
{
    rules::width_within(h)
}

pub fn negwafir_rise_within(z: i64) -> bool
    ensures { Decided (RiseWithin z) result }
{
    rules::rise_within(z)
}
