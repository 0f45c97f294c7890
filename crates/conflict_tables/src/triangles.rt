//! Lines that are sums of two others: of three differences of the same three variables each is.
use crate::lists::put;
use crate::stop::Stop;
use crate::sums::Factor;
use crate::table::Table;

/// The line `to` is this line or its negative, and the line `other` or its negative; and the next such.
#[derive(Clone, Copy)]
pub struct Triangle {
    /// The line that is the sum.
    pub to: usize,
    /// The line that is added.
    pub other: usize,
    /// Whether this line counts negatively.
    pub against: bool,
    /// Whether the other line does.
    pub other_against: bool,
    /// The number of the next triangle of this line.
    pub next: Option<usize>,
}

/// A difference: a line, taken with this sign, is the first variable less the second.
#[derive(Clone, Copy)]
struct Difference {
    line: usize,
    against: bool,
}

/// The two variables of a line that is a difference.
fn difference_of(factors: &[Factor]) -> Option<(usize, usize)> {
    match factors {
        [first, second] if first.times == 1 && second.times == -1 => {
            Some((first.variable, second.variable))
        }
        _ => None,
    }
}

/// The known line that is the difference of two variables.
fn known_difference(table: &Table, first: usize, second: usize) -> Option<Difference> {
    let against = second < first;
    let (low, high) = if against {
        (second, first)
    } else {
        (first, second)
    };
    let factors = [
        Factor {
            variable: low,
            times: 1,
        },
        Factor {
            variable: high,
            times: -1,
        },
    ];
    let line = table.known_line(&factors)?;
    Some(Difference { line, against })
}

impl Table {
    /// The number of the first triangle of a line.
    pub fn first_triangle(&self, line: usize) -> Option<usize> {
        match self.corners.get(line) {
            Some(corner) => *corner,
            None => None,
        }
    }

    /// The triangle of a number.
    pub fn triangle(&self, number: usize) -> Option<Triangle> {
        self.triangles.get(number).copied()
    }

    /// Says of one line what another is with a third.
    fn add_triangle(&mut self, line: usize, triangle: Triangle) -> Result<(), Stop> {
        let number = self.triangles.len();
        let next = self.first_triangle(line);
        self.triangles.push(Triangle { next, ..triangle })?;
        put(&mut self.corners, line, Some(number));
        Ok(())
    }

    /// Says that a line is the sum of two others with these signs, in all the ways in which that can be read.
    fn add_corners(&mut self, line: usize, one: Difference, two: Difference) -> Result<(), Stop> {
        let crossed = one.against == two.against;
        self.add_corner(line, one.line, one.against, two.line, crossed)?;
        self.add_corner(line, two.line, two.against, one.line, crossed)?;
        self.add_corner(one.line, line, one.against, two.line, two.against)?;
        self.add_corner(one.line, two.line, crossed, line, two.against)?;
        self.add_corner(two.line, line, two.against, one.line, one.against)?;
        self.add_corner(two.line, one.line, crossed, line, one.against)
    }

    /// Adds one triangle to a line.
    fn add_corner(
        &mut self,
        line: usize,
        to: usize,
        against: bool,
        other: usize,
        other_against: bool,
    ) -> Result<(), Stop> {
        let triangle = Triangle {
            to,
            other,
            against,
            other_against,
            next: None,
        };
        self.add_triangle(line, triangle)
    }

    /// Adds the triangles of a new line with a line of its first variable.
    fn add_triangles_with(
        &mut self,
        line: usize,
        first: usize,
        second: usize,
        with: usize,
    ) -> Result<(), Stop> {
        let Some((low, high)) = difference_of(self.line_factors(with)) else {
            return Ok(());
        };
        let middle = if low == first { high } else { low };
        if middle == second {
            return Ok(());
        }
        let one = Difference {
            line: with,
            against: low != first,
        };
        match known_difference(self, middle, second) {
            Some(two) => self.add_corners(line, one, two),
            None => Ok(()),
        }
    }

    /// Adds the triangles of a new line, where it is a difference of two variables. An error where memory is refused.
    pub fn add_triangles(&mut self, line: usize) -> Result<(), Stop> {
        let Some((first, second)) = difference_of(self.line_factors(line)) else {
            return Ok(());
        };
        let mut next = self.first_link(first);
        for _ in 0..self.count_lines() {
            let Some(link) = next.and_then(|number| self.link(number)) else {
                return Ok(());
            };
            if link.line != line {
                self.add_triangles_with(line, first, second, link.line)?;
            }
            next = link.next;
        }
        Ok(())
    }
}
