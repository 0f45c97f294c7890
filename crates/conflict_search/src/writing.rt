//! The nodes of a certificate for a tree that was found: what is kept is settled once more, which gives each item its
//! number.
use conflict_limits::{Pair, Source, Step, Tree, Trees};
use conflict_tables::{Form, Span, Stop, Table, at, put};
use obligations::Node;
use std::alloc::Global;
use unity_base::Seq;

/// The state before a node's additions, and the place from which its formula was taken.
#[derive(Clone, Copy)]
struct Frame {
    tree: Tree,
    place: usize,
    facts: u64,
    waits: usize,
    variables: usize,
}

/// What is still to be done.
#[derive(Clone, Copy)]
enum Task {
    Write(usize),
    Second(Frame),
    Leave(Frame),
}

/// The nodes so far, and the branch at which they are.
#[derive(Drop)]
struct Writer {
    nodes: Seq<Node>,
    /// The number of the fact at each place of the items.
    numbers: Seq<u64>,
    facts: u64,
    /// The places of the formulas that wait.
    waiting: Seq<usize>,
    variables: Seq<usize>,
    tasks: Seq<Task>,
    todo: Seq<usize>,
}

/// The number of a place, from 1.
fn numbered(place: usize) -> u64 {
    (place as u64).saturating_add(1)
}

/// The place of an item of a list.
fn place_in(list: &Seq<usize>, item: usize) -> Result<usize, Stop> {
    list.as_slice()
        .iter()
        .position(|other| *other == item)
        .ok_or(Stop::Odd)
}

impl Writer {
    /// Adds a fact that is the item at a place.
    fn add_fact(&mut self, item: usize) -> Result<(), Stop> {
        for _ in self.numbers.len()..item.saturating_add(1) {
            self.numbers.push(0)?;
        }
        self.facts = self.facts.saturating_add(1);
        put(&mut self.numbers, item, self.facts);
        Ok(())
    }

    /// Adds what one formula adds from a place on, and gives the place after that.
    fn settle_one(&mut self, table: &Table, number: usize, item: usize) -> Result<usize, Stop> {
        match table.form(number)? {
            Form::True => Ok(item),
            Form::Both(a, b) => {
                self.todo.push(b)?;
                self.todo.push(a)?;
                Ok(item)
            }
            Form::False => self.settle_facts(item, 1),
            Form::Fact(_) => self.settle_facts(item, 1),
            Form::Equal(_, _) => self.settle_facts(item, 2),
            _ => {
                self.waiting.push(item)?;
                Ok(item.saturating_add(1))
            }
        }
    }

    /// Adds so many facts from a place on.
    fn settle_facts(&mut self, item: usize, count: usize) -> Result<usize, Stop> {
        let mut next = item;
        for _ in 0..count {
            self.add_fact(next)?;
            next = next.saturating_add(1);
        }
        Ok(next)
    }

    /// Settles a formula from a place on.
    fn settle(&mut self, table: &Table, form: usize, start: usize) -> Result<(), Stop> {
        let mut item = start;
        self.todo.truncate(0);
        self.todo.push(form)?;
        for _ in 0..u64::MAX {
            let Some(next) = self.todo.pop() else {
                return Ok(());
            };
            item = self.settle_one(table, next, item)?;
        }
        Ok(())
    }

    /// The number of what a multiple is of, where the rounds of the leaf come after so many facts.
    fn number_of(&self, source: Source) -> Result<u64, Stop> {
        match source {
            Source::Item(item) => at(&self.numbers, item),
            Source::Round(round) => Ok(self.facts.saturating_add(numbered(round))),
        }
    }

    /// The pairs of a node.
    fn pairs_of(&self, alloc: Global, pairs: &[Pair]) -> Result<Seq<(i64, u64)>, Stop> {
        let mut list = Seq::new(alloc);
        for pair in pairs {
            list.push((pair.times, self.number_of(pair.source)?))?;
        }
        Ok(list)
    }

    /// Writes the rounds and the sum of a leaf.
    fn write_leaf(
        &mut self,
        alloc: Global,
        trees: &Trees,
        rounds: Span,
        pairs: Span,
    ) -> Result<(), Stop> {
        for round in trees.rounds(rounds) {
            let list = self.pairs_of(alloc, trees.pairs(round.pairs))?;
            self.nodes.push(Node::Round(round.divisor, list))?;
        }
        let list = self.pairs_of(alloc, trees.pairs(pairs))?;
        self.nodes.push(Node::Sum(list))?;
        Ok(())
    }

    /// The state before a node's additions.
    fn frame(&self, tree: Tree, place: usize) -> Frame {
        Frame {
            tree,
            place,
            facts: self.facts,
            waits: self.waiting.len(),
            variables: self.variables.len(),
        }
    }

    /// Takes the formula at a place out of those that wait, and begins the node that takes it apart.
    fn take_out(&mut self, tree: Tree, item: usize) -> Result<Frame, Stop> {
        let place = place_in(&self.waiting, item)?;
        if place < self.waiting.len() {
            let _ = self.waiting.remove(place);
        }
        Ok(self.frame(tree, place))
    }

    /// Adds what one side of a node adds.
    fn add_side(&mut self, table: &Table, frame: Frame, second: bool) -> Result<(), Stop> {
        let start = frame.tree.start;
        match frame.tree.step {
            Step::Leaf { .. } => Ok(()),
            Step::Case { form, .. } => {
                let sides = table.sides(form)?;
                self.settle(table, if second { sides.1 } else { sides.0 }, start)
            }
            Step::Split { .. } => self.add_fact(start),
            Step::Quotient { variable, rest, .. } => {
                self.variables.push(variable)?;
                let next = self.settle_facts(start, 2)?;
                self.settle(table, rest, next)
            }
        }
    }

    /// Writes a node with branches below it, and begins the first.
    fn open(&mut self, table: &Table, node: Node, frame: Frame) -> Result<(), Stop> {
        self.nodes.push(node)?;
        let then = match frame.tree.step {
            Step::Quotient { .. } => Task::Leave(frame),
            _ => Task::Second(frame),
        };
        self.tasks.push(then)?;
        self.add_side(table, frame, false)?;
        self.tasks.push(Task::Write(frame.tree.first))?;
        Ok(())
    }

    /// Writes a node.
    fn write(
        &mut self,
        alloc: Global,
        table: &Table,
        trees: &Trees,
        number: usize,
    ) -> Result<(), Stop> {
        let tree = trees.tree(number)?;
        match tree.step {
            Step::Leaf { rounds, pairs } => self.write_leaf(alloc, trees, rounds, pairs),
            Step::Case { item, .. } => {
                let frame = self.take_out(tree, item)?;
                self.open(table, Node::Case(numbered(frame.place)), frame)
            }
            Step::Quotient { item, .. } => {
                let frame = self.take_out(tree, item)?;
                self.open(table, Node::Quot(numbered(frame.place)), frame)
            }
            Step::Split { variable, at } => {
                let place = place_in(&self.variables, variable)?;
                let frame = self.frame(tree, 0);
                self.open(table, Node::Split(numbered(place), at), frame)
            }
        }
    }

    /// Goes back to the state before a node's additions.
    fn cut_back(&mut self, frame: Frame) {
        self.facts = frame.facts;
        self.waiting.truncate(frame.waits);
        self.variables.truncate(frame.variables);
    }

    /// Goes on with the second branch of a node.
    fn turn(&mut self, table: &Table, frame: Frame) -> Result<(), Stop> {
        self.cut_back(frame);
        self.tasks.push(Task::Leave(frame))?;
        self.add_side(table, frame, true)?;
        self.tasks.push(Task::Write(frame.tree.second))?;
        Ok(())
    }

    /// Goes back to the state before a node.
    fn leave(&mut self, frame: Frame) -> Result<(), Stop> {
        self.cut_back(frame);
        match frame.tree.step {
            Step::Case { item, .. } => self.put_back(frame.place, item),
            Step::Quotient { item, .. } => self.put_back(frame.place, item),
            _ => Ok(()),
        }
    }

    /// Puts the formula at a place of the items back among those that wait.
    fn put_back(&mut self, place: usize, item: usize) -> Result<(), Stop> {
        if place <= self.waiting.len() {
            self.waiting.insert(place, item)?;
        }
        Ok(())
    }

    /// Does all that is to be done.
    fn run(&mut self, alloc: Global, table: &Table, trees: &Trees) -> Result<(), Stop> {
        for _ in 0..u64::MAX {
            let Some(task) = self.tasks.pop() else {
                return Ok(());
            };
            match task {
                Task::Write(number) => self.write(alloc, table, trees, number)?,
                Task::Second(frame) => self.turn(table, frame)?,
                Task::Leave(frame) => self.leave(frame)?,
            }
        }
        Ok(())
    }
}

/// The nodes of a tree that refutes a root over so many variables.
pub fn written(
    alloc: Global,
    table: &Table,
    trees: &Trees,
    own: usize,
    root: usize,
    tree: usize,
) -> Result<Seq<Node>, Stop> {
    let mut writer = Writer {
        nodes: Seq::new(alloc),
        numbers: Seq::new(alloc),
        facts: 0,
        waiting: Seq::new(alloc),
        variables: Seq::new(alloc),
        tasks: Seq::new(alloc),
        todo: Seq::new(alloc),
    };
    for variable in 0..own {
        writer.variables.push(variable)?;
    }
    let first = writer.settle_facts(0, own.saturating_mul(2))?;
    writer.settle(table, root, first)?;
    writer.tasks.push(Task::Write(tree))?;
    writer.run(alloc, table, trees)?;
    let Writer {
        nodes,
        numbers: _,
        facts: _,
        waiting: _,
        variables: _,
        tasks: _,
        todo: _,
    } = writer;
    Ok(nodes)
}
