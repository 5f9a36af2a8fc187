// Signed arithmetic and the limits.
ghost use Rattle.std.specs.Prelude.{◌≡◌, ◌-ℤ◌};
ghost use Rattle.integers.specs.Promise.{Decided, Quotient, Rounded, Between};
ghost use Rattle.rules.specs.Limits.{UnitWithin, CountWithin, WidthWithin, RiseWithin};

#[unsafe(no_mangle)]
pub extern "C" fn negwafir_difference(left: i32, right: i32) -> i64
    ensures { result ≡ right -ℤ left }
{
    exports::negwafir_difference(left, right)
}

#[unsafe(no_mangle)]
pub extern "C" fn negwafir_between(low: i64, x: i64, high: i64) -> bool
    ensures { Decided (Between low x high) result }
{
    exports::negwafir_between(low, x, high)
}

#[unsafe(no_mangle)]
pub extern "C" fn negwafir_floor_div(n: i64, d: i64) -> i64
    ensures { Quotient n d result }
{
    exports::negwafir_floor_div(n, d)
}

#[unsafe(no_mangle)]
pub extern "C" fn negwafir_nearest_div(n: i64, d: i64) -> i64
    ensures { Rounded n d result }
{
    exports::negwafir_nearest_div(n, d)
}

#[unsafe(no_mangle)]
pub extern "C" fn negwafir_unit_within(s: u32) -> bool
    ensures { Decided (UnitWithin s) result }
{
    exports::negwafir_unit_within(s)
}

#[unsafe(no_mangle)]
pub extern "C" fn negwafir_count_within(n: usize) -> bool
    ensures { Decided (CountWithin n) result }
{
    exports::negwafir_count_within(n)
}

#[unsafe(no_mangle)]
pub extern "C" fn negwafir_width_within(h: i64) -> bool
    ensures { Decided (WidthWithin h) result }
{
    exports::negwafir_width_within(h)
}

#[unsafe(no_mangle)]
pub extern "C" fn negwafir_rise_within(z: i64) -> bool
    ensures { Decided (RiseWithin z) result }
{
    exports::negwafir_rise_within(z)
}
