//! Where a variable stands among those of an obligation.
use crate::stop::Stop;
use obligations::Variable;

/// Whether a variable is the slot or the parameter of this number.
fn is_named(v: &Variable, param: bool, number: u32) -> bool {
    v.param == param && v.number == number
}

/// Whether a variable stands before the slot or the parameter of this number: parameters stand behind all slots.
fn is_lower(v: &Variable, param: bool, number: u32) -> bool {
    if v.param == param {
        v.number < number
    } else {
        param
    }
}

/// The place of a slot or a parameter, found by halves.
fn place_between(vs: &[Variable], param: bool, number: u32) -> Option<usize> {
    let mut low = 0;
    let mut high = vs.len();
    for _ in 0..usize::BITS {
        if low >= high {
            return None;
        }
        let middle = low + (high - low) / 2;
        match vs.get(middle) {
            Some(v) if is_named(v, param, number) => return Some(middle),
            Some(v) if is_lower(v, param, number) => low = middle.saturating_add(1),
            _ => high = middle,
        }
    }
    None
}

/// The place of a slot or a parameter. Where all slots occur, a slot's place is its number.
pub fn place_of(vs: &[Variable], param: bool, number: u32) -> Result<usize, Stop> {
    let place = number as usize;
    match vs.get(place) {
        Some(v) if is_named(v, param, number) => Ok(place),
        _ => place_between(vs, param, number).ok_or(Stop::Odd),
    }
}
