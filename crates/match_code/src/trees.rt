// Which equations may match a call, by the heads of its arguments.

ghost use Rattle.std.specs.Prelude.{length};
ghost use Rattle.std.specs.List.Sorted.{IsSearchInRange};

use spec_core::equation::DataSpec;
use spec_core::items::Op;
use spec_core::memory::Memory;
use spec_core::term::Term;
use std::alloc::Global;

/// The most equations of an operation that are all tried, one after another.
const FEW: u32 = 5;

// Where to go on where an operation heads the argument.
#[derive(Clone, Copy)]
struct Branch {
    head: u32,
    point: u32,
}

// A point of a tree: the first and the last of the equations that stand there, and where to go on by the next argument: by the operation
// that heads it, in ascending order of the operations, or where the pattern is a variable.
#[derive(Drop)]
struct Point {
    first: Option<u32>,
    last: Option<u32>,
    branches: Vec<Branch>,
    rest: Option<u32>,
}

/// Decision trees for the left sides of equations, one for each operation. A tree asks what heads the arguments, from the first one on. An
/// equation stands where its patterns lead, by the branch for variables where its pattern is one; so it stands at one point alone, and who
/// looks for the equations that may match goes on by two branches. Where an operation has few equations, they all stand at the root.
/// A number that is found may be that of an equation that matches: whoever asks looks whether it does.
#[derive(Drop)]
pub struct Trees {
    // First the roots, by the numbers of their operations.
    points: Vec<Point>,
    // By the number of an equation, the next one at its point.
    after: Vec<Option<u32>>,
}

// Counts an equation for the operation that heads it.
fn count(counts: &mut [u32], left: &Term) {
    match left {
        Term::Var(_) => {}
        Term::App(op, _) => {
            let place = op.0 as usize;
            if place < counts.len() {
                counts[place] = counts[place].saturating_add(1);
            }
        }
    }
}

// How many equations each operation heads.
fn all_counts(alloc: Global, algebra: &DataSpec) -> Result<Vec<u32>, Memory> {
    let mut counts = Vec::from_elem(alloc, 0u32, algebra.signature.ops.len())?;
    for equation in &algebra.equations {
        count(&mut counts, &equation.left);
    }
    Ok(counts)
}

// Whether an operation has few equations.
fn has_few(counts: &[u32], op: Op) -> bool {
    let place = op.0 as usize;
    place >= counts.len() || counts[place] <= FEW
}

// The number of what comes next in a list that is so long; the greatest number in lists that are longer than numbers go.
fn next_number(length: usize) -> u32 {
    length.min(u32::MAX as usize) as u32
}

// So many roots.
fn roots(alloc: Global, count: usize) -> Result<Vec<Point>, Memory> {
    let mut points = Vec::new(alloc);
    for _root in 0..count {
        points.push(Point::new(alloc))?;
    }
    Ok(points)
}

impl Point {
    // A point with no equations, from which nothing goes on. It takes no memory.
    fn new(alloc: Global) -> Point {
        Point {
            first: None,
            last: None,
            branches: Vec::new(alloc),
            rest: None,
        }
    }

    // The place of an operation's branch, or the one where it is to be put.
    fn place_of(&self, head: u32) -> Result<usize, usize>
        ensures bound { IsSearchInRange result (length self.now.branches.items) }
    {
        self.branches
            .binary_search_by_key(&head, |branch| branch.head)
    }

    // Where to go on by an operation.
    fn below(&self, head: u32) -> Option<u32> {
        match self.place_of(head) {
            Ok(place) => Some(self.branches[place].point),
            Err(_) => None,
        }
    }

    // Puts a branch among the others.
    fn put(&mut self, branch: Branch) -> Result<(), Memory> {
        match self.place_of(branch.head) {
            Ok(_) => {}
            Err(place) => self.branches.insert(place, branch)?,
        }
        Ok(())
    }
}

impl Trees {
    /// The trees of all equations.
    pub fn new(alloc: Global, algebra: &DataSpec) -> Result<Trees, Memory> {
        let counts = all_counts(alloc, algebra)?;
        let mut trees = Trees {
            points: roots(alloc, algebra.signature.ops.len())?,
            after: Vec::new(alloc),
        };
        for equation in &algebra.equations {
            trees.add(alloc, &counts, &equation.left)?;
        }
        Ok(trees)
    }

    // Puts in the next equation, by its left side.
    fn add(&mut self, alloc: Global, counts: &[u32], left: &Term) -> Result<(), Memory> {
        let number = next_number(self.after.len());
        self.after.push(None)?;
        match left {
            Term::Var(_) => Ok(()),
            Term::App(op, patterns) => {
                let mut point = op.0;
                if !has_few(counts, *op) {
                    point = self.point_of(alloc, op.0, patterns)?;
                }
                self.put(point, number);
                Ok(())
            }
        }
    }

    // The point to which patterns lead from another one.
    fn point_of(&mut self, alloc: Global, from: u32, patterns: &[Term]) -> Result<u32, Memory> {
        let mut point = from;
        for pattern in patterns {
            point = self.next_point(alloc, point, pattern)?;
        }
        Ok(point)
    }

    // The point to which a pattern leads from another one.
    fn next_point(&mut self, alloc: Global, from: u32, pattern: &Term) -> Result<u32, Memory> {
        let found = match pattern {
            Term::Var(_) => self.rest(from),
            Term::App(head, _) => self.branch(from, *head),
        };
        match found {
            Some(point) => Ok(point),
            None => {
                let point = next_number(self.points.len());
                self.points.push(Point::new(alloc))?;
                self.join(from, pattern, point)?;
                Ok(point)
            }
        }
    }

    // Has a pattern lead from one point to another.
    fn join(&mut self, from: u32, pattern: &Term, point: u32) -> Result<(), Memory> {
        let place = from as usize;
        if place >= self.points.len() {
            return Ok(());
        }
        match pattern {
            Term::Var(_) => {
                self.points[place].rest = Some(point);
                Ok(())
            }
            Term::App(head, _) => self.points[place].put(Branch {
                head: head.0,
                point,
            }),
        }
    }

    // Has an equation stand at a point, behind the others.
    fn put(&mut self, point: u32, number: u32) {
        let place = point as usize;
        if place >= self.points.len() {
            return;
        }
        let last = self.points[place].last;
        self.points[place].last = Some(number);
        match last {
            None => self.points[place].first = Some(number),
            Some(before) => self.link(before, number),
        }
    }

    // Has an equation come after another one at its point.
    fn link(&mut self, before: u32, number: u32) {
        let place = before as usize;
        if place < self.after.len() {
            self.after[place] = Some(number);
        }
    }

    /// The root of an operation's tree. It takes no memory.
    pub fn root(&self, op: Op) -> Option<u32> {
        if (op.0 as usize) < self.points.len() {
            Some(op.0)
        } else {
            None
        }
    }

    /// The first of the equations that stand at a point. It takes no memory.
    pub fn first(&self, point: u32) -> Option<u32> {
        let place = point as usize;
        if place < self.points.len() {
            self.points[place].first
        } else {
            None
        }
    }

    /// The next of the equations that stand at the same point. It takes no memory.
    pub fn after(&self, number: u32) -> Option<u32> {
        let place = number as usize;
        if place < self.after.len() {
            self.after[place]
        } else {
            None
        }
    }

    /// Where to go on from a point where this operation heads the next argument. It takes no memory.
    pub fn branch(&self, point: u32, head: Op) -> Option<u32> {
        let place = point as usize;
        if place < self.points.len() {
            self.points[place].below(head.0)
        } else {
            None
        }
    }

    /// Where to go on from a point where the next pattern is a variable. It takes no memory.
    pub fn rest(&self, point: u32) -> Option<u32> {
        let place = point as usize;
        if place < self.points.len() {
            self.points[place].rest
        } else {
            None
        }
    }
}
