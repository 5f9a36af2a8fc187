// The three lists of the workbench and its slope unit, and what the commands do with them.
use crate::feed::Line;
use crate::row::Row;
use crate::say;
use commands::{Command, List, Point};
use replies::Reply;
use rules::Refused;
use std::io;
use table::{Change, Table};

#[derive(Drop)]
pub struct Desk {
    knots: Row,
    values: Row,
    slopes: Row,
    unit: u32,
}

impl Desk {
    // The lists are empty, and slopes are in units of 1/2^8.
    pub fn empty() -> Desk {
        Desk {
            knots: Row::empty(),
            values: Row::empty(),
            slopes: Row::empty(),
            unit: 8,
        }
    }

    // Does what the line asks for, and writes the answer.
    pub fn answer(&mut self, rt: &impl Print, line: Line<'_>) -> io::Result<()> {
        let reply = match commands::parse(line.content) {
            Err(fault) => Reply::Wrong(line.number, fault),
            Ok(Command::Nothing) => Reply::Silent,
            Ok(Command::Set(list)) => Reply::Count(self.list_mut(list).set(line.content)),
            Ok(Command::Show(list)) => return say::row(rt, self.list(list).front()),
            Ok(Command::Piece(p)) => Reply::Judged(piece::judge(self.unit, p.h, p.z, p.m, p.n)),
            Ok(Command::Build) => Reply::Done(self.build()),
            Ok(Command::Check) => Reply::Done(table::check(self.table())),
            Ok(Command::At(x)) => Reply::Valued(curve::evaluate(self.table(), x)),
            Ok(Command::Drive(x)) => Reply::Driven(drive::float_answer(self.table(), x)),
            Ok(Command::Change(point)) => Reply::Done(self.change(point)),
            Ok(Command::SetUnit(unit)) => {
                // It asks nothing of the table.
                self.unit = unit;
                Reply::Done(Ok(()))
            }
            Ok(Command::ShowUnit) => Reply::SlopeUnit(self.unit),
        };
        say::reply(rt, reply)
    }

    fn table(&self) -> Table<'_> {
        Table {
            s: self.unit,
            knots: self.knots.front(),
            values: self.values.front(),
            slopes: self.slopes.front(),
        }
    }

    fn list(&self, list: List) -> &Row {
        match list {
            List::Knots => &self.knots,
            List::Values => &self.values,
            List::Slopes => &self.slopes,
        }
    }

    fn list_mut(&mut self, list: List) -> &mut Row {
        match list {
            List::Knots => &mut self.knots,
            List::Values => &mut self.values,
            List::Slopes => &mut self.slopes,
        }
    }

    // `build`: makes the slopes out of the knots and the values.
    fn build(&mut self) -> Result<(), Refused> {
        slopes::build(
            self.unit,
            self.knots.front(),
            self.values.front(),
            self.slopes.front_mut(),
        )
    }

    // `change K X V`: gives point K the knot X and the value V. No point has a negative number, nor the largest that there is, which stands for those.
    fn change(&mut self, to: Point) -> Result<(), Refused> {
        change::point(
            self.unit,
            self.knots.front_mut(),
            self.values.front_mut(),
            self.slopes.front_mut(),
            Change {
                point: usize::try_from(to.number).unwrap_or(usize::MAX),
                knot: to.knot,
                value: to.value,
            },
        )
    }
}
