// A position in the piece that it belongs to, once the whole table is accepted.
ghost use Rattle.std.specs.Prelude.{◌≡◌, ◌+ℤ◌};
ghost use Rattle.std.specs.Int.{w32};
ghost use Rattle.std.proofs.Common.{SFits};
ghost use Rattle.position.specs.InPiece.{InPiece};

use crate::Spot;
use rules::{Extent, SlopeUnit};

// The slope unit, and where in its piece the position is. The piece is within the limits and monotone, and its right value fits.
#[derive(Clone, Copy)]
pub struct Inside {
    pub unit: SlopeUnit,
    pub spot: Spot,
    ghost in_piece: { InPiece unit.size spot.h spot.z spot.m spot.n spot.t },
    ghost right_fits: { SFits w32 (spot.left +ℤ spot.z) },
}

impl Inside {
    // The piece's extent.
    pub fn extent(self) -> Extent
        ensures h { result.h ≡ self.spot.h }
        ensures z { result.z ≡ self.spot.z }
    {
        Extent {
            h: self.spot.h,
            z: self.spot.z,
        }
    }
}
