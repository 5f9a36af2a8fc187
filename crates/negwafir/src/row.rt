// A list of the workbench: the numbers that it holds, in front of the room that is left. Nothing here takes memory while it runs.
ghost use Rattle.std.specs.Prelude.{◌≤◌};
ghost use Rattle.lists.specs.declared.numbers.TheConstants.{ROOM};

use lists::ROOM;

#[derive(Drop)]
pub struct Row {
    numbers: [i32; ROOM],
    held: usize,
    ghost fits: { held ≤ ROOM },
}

impl Row {
    pub fn empty() -> Row {
        Row {
            numbers: [0; ROOM],
            held: 0,
        }
    }

    pub fn front(&self) -> &[i32] {
        &self.numbers[..self.held]
    }

    pub fn front_mut(&mut self) -> &mut [i32] {
        let held = self.held;
        first(&mut self.numbers, held)
    }

    // Holds the numbers of the line from now on, all of which are known to be good, and answers how many they are.
    pub fn set(&mut self, line: &[u8]) -> usize {
        self.held = lists::set(&mut self.numbers, line);
        self.held
    }
}

// The first n numbers. A row lends a part of its own by this call: of a record with a proof in it a part of a field cannot be lent right away.
fn first(numbers: &mut [i32; ROOM], n: usize) -> &mut [i32]
    requires { n ≤ ROOM }
{
    &mut numbers[..n]
}
