// The limits, and what is known to be within them.
ghost use Rattle.std.specs.Prelude.{◌≡◌, neg_ℤ};
ghost use Rattle.rules.specs.Known.{UnitSize};
ghost use Rattle.rules.specs.Limits.{WidthWithin, RiseWithin};

// A slope unit U = 2^s: slopes are in 1/U of a value per count. It is from 1 to 256, and the sizes of all that is worked out rest on that alone.
#[derive(Clone, Copy)]
pub struct SlopeUnit {
    pub size: i64,
    ghost within: { UnitSize size },
}

// A piece's width h and its rise z, within their limits.
#[derive(Clone, Copy)]
pub struct Extent {
    pub h: i64,
    pub z: i64,
    ghost width: { WidthWithin h },
    ghost rise: { RiseWithin z },
}

impl Extent {
    // The piece turned over: it falls where this one rises, and rises where this one falls.
    pub fn mirrored(self) -> Extent
        ensures h { result.h ≡ self.h }
        ensures z { result.z ≡ neg_ℤ self.z }
    {
        Extent {
            h: self.h,
            z: -self.z,
        }
    }
}
