// The piece of a position, found by halving: of a range of pieces that has it, the half is kept that has it, until one piece is left. Of the 1,023 pieces
// that a table can have at most, one is left after ten halvings or fewer: that is shown, and `partition_point` says nothing of its steps.
ghost use Rattle.std.specs.Prelude.{◌-◌, ◌≤◌, ◌<◌, ◌<ℤ◌, length};
ghost use Rattle.integers.specs.Promise.{Decided};
ghost use Rattle.table.specs.Table.{entry};
ghost use Rattle.position.specs.Position.{WithinKnots, Belongs};
ghost use Rattle.position.specs.Halving.{Among, halvings};

// The piece that a position between the first and the last knot belongs to, where ten halvings are enough, as they are for every table that is accepted.
pub(crate) fn piece(knots: &[i32], position: i32) -> usize
    requires in_bounds { 1 < length knots.now }
    requires knots_bound { halvings (length knots.now - 1) ≤ 10 }
    requires within_knots { WithinKnots knots.now position }
    ensures { Belongs knots.now position result }
{
    let end = knots.len() - 1;
    among(&knots, position, 0, end)
}

// The same, where it is one of the pieces from `first` on and before `end`. What falls from call to call is the number of halvings that are left. The list
// is lent behind a reference that each call hands on: a list lent anew would lie in each call's own frame, and the compiler could not make a loop of the calls.
fn among(knots: &&[i32], position: i32, first: usize, end: usize) -> usize
    requires { Among knots.now.now position first end }
    ensures { Belongs knots.now.now position result }
{
    let count = end - first;
    if count == 1 {
        return first;
    }
    let middle = first + count / 2;
    let list = *knots;
    if lies_before(list, middle, position) {
        among(knots, position, first, middle)
    } else {
        among(knots, position, middle, end)
    }
}

// Whether a position lies before a knot.
fn lies_before(knots: &[i32], i: usize, position: i32) -> bool
    requires { i < length knots.now }
    ensures { Decided (position <ℤ entry knots.now i) result }
{
    position < knots[i]
}
