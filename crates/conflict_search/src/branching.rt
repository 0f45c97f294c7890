//! What is taken apart next.
use crate::ends::Truth;
use crate::looks::look_at;
use crate::refuting::{Search, Waiting};
use conflict_tables::{
    Form, Opened, Stop, at, sides_of, way_of, without_quotient, without_quotient_by,
};

/// A step of the search.
#[derive(Clone, Copy)]
pub enum Move {
    /// Takes apart the formula that waits at a place.
    Case {
        place: usize,
        item: usize,
        form: usize,
        sides: (usize, usize),
        second_first: bool,
    },
    /// Goes on with a variable at most a number, and then above it.
    Split {
        variable: usize,
        at: i64,
        facts: (usize, usize),
    },
    /// Takes a quotient of the formula that waits at a place, and of the same with copies.
    Quotient {
        place: usize,
        item: usize,
        opened: Opened,
        own: Opened,
    },
}

impl Move {
    /// The place of the formula that it takes apart.
    pub fn place(self) -> Option<usize> {
        match self {
            Move::Case { place, .. } => Some(place),
            Move::Split { .. } => None,
            Move::Quotient { place, .. } => Some(place),
        }
    }

    /// Whether the second side goes first.
    pub fn second_first(self) -> bool {
        match self {
            Move::Case { second_first, .. } => second_first,
            _ => false,
        }
    }
}

/// What is known of a waiting formula.
#[derive(Clone, Copy)]
enum Urgency {
    /// It holds in any case.
    Idle,
    /// Both sides may hold.
    Open(Move),
    /// Only one side may hold.
    Forced(Move),
    /// It cannot hold, or it has a quotient.
    Now(Move),
}

/// The best steps so far: the oldest that is forced, and the most often used of the others, of these the newest.
#[derive(Clone, Copy)]
struct Best {
    forced: Option<Move>,
    open: Option<Move>,
    count: u32,
}

/// What a formula with copies becomes where its first quotient is taken: by a new copy, where the quotient was taken
/// before.
fn own_opened(search: &mut Search, waiting: Waiting, variable: usize) -> Result<Opened, Stop> {
    if search.path.has_taken(variable) {
        let taken = search.path.quotients().len();
        let copy = search.table.added_variable(taken)?;
        return without_quotient_by(&mut search.table, waiting.own, Some(copy));
    }
    if waiting.own == waiting.form {
        return without_quotient(&mut search.table, waiting.form);
    }
    without_quotient_by(&mut search.table, waiting.own, Some(variable))
}

/// Taking a quotient.
fn quotient_move(search: &mut Search, place: usize, waiting: Waiting) -> Result<Urgency, Stop> {
    let opened = without_quotient(&mut search.table, waiting.form)?;
    let own = own_opened(search, waiting, opened.variable)?;
    Ok(Urgency::Now(Move::Quotient {
        place,
        item: waiting.item,
        opened,
        own,
    }))
}

/// Taking apart a formula, that side first.
fn case_move(
    search: &mut Search,
    place: usize,
    waiting: Waiting,
    second_first: bool,
) -> Result<Move, Stop> {
    let sides = sides_of(&mut search.table, waiting.form)?;
    Ok(Move::Case {
        place,
        item: waiting.item,
        form: waiting.form,
        sides,
        second_first,
    })
}

fn look(search: &mut Search, form: usize) -> Result<Truth, Stop> {
    look_at(
        &mut search.table,
        &mut search.limits,
        &mut search.looks,
        form,
    )
}

/// What is known of a formula with two sides.
fn urgency_of_sides(search: &mut Search, place: usize, waiting: Waiting) -> Result<Urgency, Stop> {
    let sides = sides_of(&mut search.table, waiting.form)?;
    if look(search, sides.0)? == Truth::False {
        return Ok(Urgency::Forced(case_move(search, place, waiting, true)?));
    }
    if look(search, sides.1)? == Truth::False {
        return Ok(Urgency::Forced(case_move(search, place, waiting, false)?));
    }
    Ok(Urgency::Open(case_move(search, place, waiting, false)?))
}

/// What is known of the formula that waits at a place.
fn urgency_at(search: &mut Search, place: usize) -> Result<Urgency, Stop> {
    let waiting = at(&search.waiting, place)?;
    if waiting.taken {
        return Ok(Urgency::Idle);
    }
    let truth = look(search, waiting.form)?;
    if truth == Truth::True {
        return Ok(Urgency::Idle);
    }
    if let Form::Quotient(..) = search.table.form(waiting.form)? {
        return quotient_move(search, place, waiting);
    }
    if truth == Truth::False {
        return Ok(Urgency::Now(case_move(search, place, waiting, false)?));
    }
    urgency_of_sides(search, place, waiting)
}

/// The form that a step takes apart counts so often.
fn count_for(search: &Search, step: Move) -> u32 {
    match step {
        Move::Case { form, .. } => search.count_of(form),
        _ => 0,
    }
}

/// The step that takes a waiting formula apart.
pub fn waiting_move(search: &mut Search) -> Result<Option<Move>, Stop> {
    let mut best = Best {
        forced: None,
        open: None,
        count: 0,
    };
    for place in 0..search.waiting.len() {
        match urgency_at(search, place)? {
            Urgency::Idle => {}
            Urgency::Now(step) => return Ok(Some(step)),
            Urgency::Forced(step) => best.forced = best.forced.or(Some(step)),
            Urgency::Open(step) => {
                let count = count_for(search, step);
                if count >= best.count {
                    best.open = Some(step);
                    best.count = count;
                }
            }
        }
    }
    Ok(best.forced.or(best.open))
}

/// The low limit of a variable, and how much higher the high one is.
fn room_of(search: &Search, variable: usize) -> Option<(i64, i64)> {
    let low = search.limits.limit(way_of(variable, false))?.bound;
    let high = search
        .limits
        .limit(way_of(variable, true))?
        .bound
        .checked_neg()?;
    Some((low, high.checked_sub(low)?))
}

/// The variable with the fewest values, but more than one, and the middle of these.
fn narrowest(search: &Search) -> Option<(usize, i64)> {
    let mut best = None;
    let mut least = i64::MAX;
    for variable in search.variables.as_slice() {
        if let Some((low, width)) = room_of(search, *variable) {
            if width > 0 && width < least {
                least = width;
                best = low.checked_add(width / 2).map(|middle| (*variable, middle));
            }
        }
    }
    best
}

/// The step that is taken where no formula waits: a split in the middle of the smallest range.
pub fn split_move(search: &mut Search) -> Result<Option<Move>, Stop> {
    let Some((variable, at)) = narrowest(search) else {
        return Ok(None);
    };
    let low = search.table.high_bound(variable, at)?;
    let above = at.checked_add(1).ok_or(Stop::Odd)?;
    let high = search.table.low_bound(variable, above)?;
    Ok(Some(Move::Split {
        variable,
        at,
        facts: (low, high),
    }))
}
