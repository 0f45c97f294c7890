//! The search itself, one turn after the other: down to a conflict, and up with the tree that closes it. A step whose
//! additions the tree below does not use is dropped, and its other side is not searched.
use crate::branching::{Move, split_move, waiting_move};
use crate::looks::{Looks, no_looks};
use conflict_cuts::eliminate;
use conflict_limits::{
    Limits, LimitsMark, Path, PathMark, Quotient, Step, Trees, no_limits, no_path, no_trees,
    propagate,
};
use conflict_tables::{Form, Opened, Stop, Table, put};
use obligations::Variable;
use std::alloc::{AllocError, Global};
use unity_base::Seq;

/// How many steps a path may have.
const DEPTH: usize = 960;

/// From how many units on a leaf is long.
const LONG: u64 = 16;

/// A waiting formula: the place of its item, the formula itself, that with copies of quotients, and whether it was
/// taken apart.
#[derive(Clone, Copy)]
pub struct Waiting {
    pub item: usize,
    pub form: usize,
    pub own: usize,
    pub taken: bool,
}

/// A formula in which each quotient has its first variable, and the same with copies.
#[derive(Clone, Copy)]
struct Settled {
    form: usize,
    own: usize,
}

/// A state of a path.
#[derive(Clone, Copy)]
struct Mark {
    limits: LimitsMark,
    looks: usize,
    path: PathMark,
    waiting: usize,
    variables: usize,
}

/// A step of the path: what it does, the state before, and the tree of the side that went first, where that is done.
#[derive(Clone, Copy)]
struct Frame {
    taken: Move,
    mark: Mark,
    done: Option<usize>,
}

/// What a search knows.
#[derive(Drop)]
pub struct Search {
    pub alloc: Global,
    pub table: Table,
    pub limits: Limits,
    pub looks: Looks,
    pub trees: Trees,
    pub path: Path,
    pub waiting: Seq<Waiting>,
    /// The variables, and those of quotients that were taken, without copies.
    pub variables: Seq<usize>,
    /// How many variables the obligation has.
    pub own: usize,
    /// How often each formula was taken apart in the best tree before.
    pub counts: Seq<u32>,
    frames: Seq<Frame>,
    todo: Seq<Settled>,
}

/// How a search ended.
#[derive(Clone, Copy)]
pub enum Ended {
    /// This tree refutes the root.
    Refuted(usize),
    /// Nothing waits and each variable has one value.
    Fixed,
}

/// What is done next.
#[derive(Clone, Copy)]
enum Going {
    Down,
    Up(usize),
}

/// A search over a table.
pub fn new_search(
    alloc: Global,
    table: Table,
    own: usize,
    steps: u64,
) -> Result<Search, AllocError> {
    Ok(Search {
        alloc,
        table,
        limits: no_limits(alloc, steps)?,
        looks: no_looks(alloc),
        trees: no_trees(alloc),
        path: no_path(alloc),
        waiting: Seq::new(alloc),
        variables: Seq::new(alloc),
        own,
        counts: Seq::new(alloc),
        frames: Seq::new(alloc),
        todo: Seq::new(alloc),
    })
}

impl Search {
    /// Adds a fact, and the same with copies of quotients.
    fn add_fact_with(&mut self, number: usize, own: usize) -> Result<(), Stop> {
        let fact = self.table.fact(number)?;
        self.limits.grow(&self.table)?;
        let item = self.path.add_item(Some(own))?;
        self.limits.add_fact(&self.table, fact, item)
    }

    /// Adds a fact.
    fn add_fact(&mut self, number: usize) -> Result<(), Stop> {
        self.add_fact_with(number, number)
    }

    /// Adds a formula that waits.
    fn add_waiting(&mut self, settled: Settled) -> Result<(), Stop> {
        let item = self.path.add_item(None)?;
        self.waiting.push(Waiting {
            item,
            form: settled.form,
            own: settled.own,
            taken: false,
        })?;
        Ok(())
    }

    /// Puts the parts of a formula on the list of what is to be settled.
    fn settle_parts(&mut self, parts: (usize, usize), own: (usize, usize)) -> Result<(), Stop> {
        self.todo.push(Settled {
            form: parts.1,
            own: own.1,
        })?;
        self.todo.push(Settled {
            form: parts.0,
            own: own.0,
        })?;
        Ok(())
    }

    /// Adds what one formula adds, and puts its parts on the list of what is to be settled.
    fn settle_one(&mut self, settled: Settled) -> Result<(), Stop> {
        match (
            self.table.form(settled.form)?,
            self.table.form(settled.own)?,
        ) {
            (Form::True, _) => Ok(()),
            (Form::False, _) => {
                let fact = self.table.false_fact()?;
                self.add_fact(fact)
            }
            (Form::Both(a, b), Form::Both(c, d)) => self.settle_parts((a, b), (c, d)),
            (Form::Fact(fact), Form::Fact(own)) => self.add_fact_with(fact, own),
            (Form::Equal(a, b), Form::Equal(c, d)) => {
                self.add_fact_with(a, c)?;
                self.add_fact_with(b, d)
            }
            _ => self.add_waiting(settled),
        }
    }

    /// Settles a formula, and the same with copies of quotients.
    fn settle_with(&mut self, form: usize, own: usize) -> Result<(), Stop> {
        self.todo.truncate(0);
        self.todo.push(Settled { form, own })?;
        for _ in 0..u64::MAX {
            let Some(next) = self.todo.pop() else {
                return Ok(());
            };
            self.settle_one(next)?;
        }
        Ok(())
    }

    /// Settles a formula.
    fn settle(&mut self, form: usize) -> Result<(), Stop> {
        self.settle_with(form, form)
    }

    /// Takes a quotient: where the same was taken before, limits get nothing of the copy.
    fn take_quotient(&mut self, opened: Opened, own: Opened) -> Result<(), Stop> {
        let item = self.path.mark().items();
        self.path.add_quotient(Quotient {
            variable: own.variable,
            first: opened.variable,
            divisor: own.divisor,
            item,
        })?;
        if own.variable == opened.variable {
            self.variables.push(own.variable)?;
            self.add_fact_with(opened.low, own.low)?;
            self.add_fact_with(opened.high, own.high)?;
        } else {
            let _ = self.path.add_item(Some(own.low))?;
            let _ = self.path.add_item(Some(own.high))?;
        }
        self.settle_with(opened.rest, own.rest)
    }

    fn mark(&self) -> Mark {
        Mark {
            limits: self.limits.mark(),
            looks: self.looks.mark(),
            path: self.path.mark(),
            waiting: self.waiting.len(),
            variables: self.variables.len(),
        }
    }

    fn take_back(&mut self, mark: Mark) {
        self.limits.take_back(mark.limits);
        self.looks.take_back(mark.looks);
        self.path.take_back(mark.path);
        self.waiting.truncate(mark.waiting);
        self.variables.truncate(mark.variables);
    }

    /// Says whether the formula that a step takes apart is taken.
    fn set_taken(&mut self, step: Move, taken: bool) {
        if let Some(place) = step.place() {
            if let Some(waiting) = self.waiting.get(place) {
                let changed = Waiting { taken, ..*waiting };
                put(&mut self.waiting, place, changed);
            }
        }
    }

    /// Goes on with one side of a step.
    fn take_side(&mut self, step: Move, second: bool) -> Result<(), Stop> {
        match step {
            Move::Case { sides, .. } => self.settle(if second { sides.1 } else { sides.0 }),
            Move::Split { facts, .. } => self.add_fact(if second { facts.1 } else { facts.0 }),
            Move::Quotient { opened, own, .. } => self.take_quotient(opened, own),
        }
    }

    /// Begins a step.
    fn begin(&mut self, step: Move) -> Result<Going, Stop> {
        if self.frames.len() >= DEPTH {
            return Err(Stop::Odd);
        }
        self.set_taken(step, true);
        let mark = self.mark();
        self.frames.push(Frame {
            taken: step,
            mark,
            done: None,
        })?;
        self.take_side(step, step.second_first())?;
        Ok(Going::Down)
    }

    /// A leaf for the conflict of the limits.
    fn leaf(&mut self) -> Result<usize, Stop> {
        self.trees
            .add_leaf(self.alloc, &self.table, &self.path, &self.limits)
    }

    /// A leaf for a sum of limits with at most so many roundings that rest on each other, where it is shorter than
    /// another; else that one.
    fn shorter_leaf(&mut self, leaf: usize, most: u32) -> Result<usize, Stop> {
        let units = self.trees.tree(leaf)?.units;
        if units < LONG {
            return Ok(leaf);
        }
        self.limits.conflict = None;
        eliminate(self.alloc, &mut self.table, &mut self.limits, most)?;
        if self.limits.conflict.is_none() {
            return Ok(leaf);
        }
        let other = self.leaf()?;
        let less = self.trees.tree(other)?.units < units;
        Ok(if less { other } else { leaf })
    }

    /// A leaf for the conflict of the limits, or where it is long, for another one that rests on fewer roundings.
    fn short_leaf(&mut self) -> Result<usize, Stop> {
        let mut best = self.leaf()?;
        for most in [1, 2, 4] {
            best = self.shorter_leaf(best, most)?;
        }
        Ok(best)
    }

    /// Goes down: to a leaf, to a step, or to the end. `None` at the end.
    fn go_down(&mut self) -> Result<Option<Going>, Stop> {
        propagate(&self.table, &mut self.limits)?;
        if self.limits.conflict.is_some() {
            return Ok(Some(Going::Up(self.short_leaf()?)));
        }
        match waiting_move(self)? {
            Some(step) => Ok(Some(self.begin(step)?)),
            None => self.go_on(),
        }
    }

    /// Goes down where nothing waits: to a leaf by elimination, or to a split.
    fn go_on(&mut self) -> Result<Option<Going>, Stop> {
        let Some(step) = split_move(self)? else {
            return Ok(None);
        };
        for most in [1, u32::MAX] {
            if self.limits.conflict.is_none() {
                eliminate(self.alloc, &mut self.table, &mut self.limits, most)?;
            }
        }
        if self.limits.conflict.is_some() {
            return Ok(Some(Going::Up(self.leaf()?)));
        }
        Ok(Some(self.begin(step)?))
    }

    /// Goes up with a tree to the step above, of which it closes a side.
    fn close_side(&mut self, frame: Frame, tree: usize) -> Result<Going, Stop> {
        let start = frame.mark.path.items();
        if !self.trees.uses_from(tree, start)? {
            self.set_taken(frame.taken, false);
            return Ok(Going::Up(tree));
        }
        match (frame.taken, frame.done) {
            (Move::Quotient { .. }, _) => self.join(frame, tree, tree),
            (step, None) => {
                self.frames.push(Frame {
                    done: Some(tree),
                    ..frame
                })?;
                self.take_side(step, !step.second_first())?;
                Ok(Going::Down)
            }
            (step, Some(other)) => {
                if step.second_first() {
                    self.join(frame, tree, other)
                } else {
                    self.join(frame, other, tree)
                }
            }
        }
    }

    /// Joins the trees below a step.
    fn join(&mut self, frame: Frame, first: usize, second: usize) -> Result<Going, Stop> {
        self.set_taken(frame.taken, false);
        let start = frame.mark.path.items();
        let tree = match frame.taken {
            Move::Case { item, form, .. } => {
                let step = Step::Case { item, form };
                self.trees
                    .add_two(self.alloc, step, Some(item), start, (first, second))?
            }
            Move::Split { variable, at, .. } => {
                let step = Step::Split { variable, at };
                self.trees
                    .add_two(self.alloc, step, None, start, (first, second))?
            }
            Move::Quotient {
                item,
                opened,
                own,
                ..
            } => {
                let step = Step::Quotient {
                    item,
                    variable: own.variable,
                    rest: opened.rest,
                };
                self.trees.add_one(self.alloc, step, item, start, first)?
            }
        };
        Ok(Going::Up(tree))
    }

    /// Goes up with a tree. `None` at the root.
    fn go_up(&mut self, tree: usize) -> Result<Option<Going>, Stop> {
        let Some(frame) = self.frames.pop() else {
            return Ok(None);
        };
        self.take_back(frame.mark);
        Ok(Some(self.close_side(frame, tree)?))
    }

    /// Adds the facts of the ranges, and settles the root.
    fn begin_root(&mut self, vs: &[Variable], root: usize) -> Result<(), Stop> {
        for (variable, own) in vs.iter().enumerate() {
            self.variables.push(variable)?;
            let low = self.table.low_bound(variable, own.range.lo)?;
            self.add_fact(low)?;
            let high = self.table.high_bound(variable, own.range.hi)?;
            self.add_fact(high)?;
        }
        self.settle(root)
    }

    /// Forgets the path.
    fn restart(&mut self) {
        for _ in 0..self.frames.len() {
            let _ = self.frames.pop();
        }
        self.take_back(Mark {
            limits: LimitsMark::ROOT,
            looks: 0,
            path: PathMark::ROOT,
            waiting: 0,
            variables: 0,
        });
    }

    /// Searches a tree that refutes the root, in at most so many turns.
    pub fn refute(&mut self, vs: &[Variable], root: usize, turns: u64) -> Result<Ended, Stop> {
        self.restart();
        self.begin_root(vs, root)?;
        let mut going = Going::Down;
        for _ in 0..turns {
            match going {
                Going::Down => match self.go_down()? {
                    Some(next) => going = next,
                    None => return Ok(Ended::Fixed),
                },
                Going::Up(tree) => match self.go_up(tree)? {
                    Some(next) => going = next,
                    None => return Ok(Ended::Refuted(tree)),
                },
            }
        }
        Err(Stop::Odd)
    }

    /// How often a formula was taken apart in the tree before.
    pub fn count_of(&self, form: usize) -> u32 {
        match self.counts.get(form) {
            Some(count) => *count,
            None => 0,
        }
    }
}
