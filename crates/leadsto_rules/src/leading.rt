// What a term gives, by its parts in reading order.
ghost use Rattle.std.specs.Prelude.{◌≡◌, All, IfOk};
ghost use Rattle.core_terms.specs.Conditions.{IsRange};
ghost use Rattle.rules_table.specs.Terms as terms;
ghost use Rattle.safety_rules.specs.Answers.{site_of, IsPlace};
ghost use Rattle.safety_rules.specs.Instances.{RecordFits};
ghost use Rattle.leadsto_rules.specs.Leading.{TermGives, LedFits, IsTermIn};

use crate::cited::{led_from, led_safely};
use crate::inductions::{Induction, led_down};
use crate::parts::{led_by, led_either, led_on, led_weaker};
use crate::ranging::led_any;
use core_terms::{PTerm, Range};
use fair_rounds::Record;
use rules_table::Led;
use safety_rules::{Place, RuleError};
use std::alloc::Global;

// What a term gives.
pub(crate) fn lead(
    alloc: Global,
    pl: &Place,
    ranges: &[Range],
    book: &[Record],
    t: &PTerm,
) -> Result<Led, RuleError>
    requires place { IsPlace pl.now }
    requires ranges { All IsRange ranges.now }
    requires book { All (RecordFits pl.now.slots.now) book.now }
    requires term { IsTermIn pl.now.slots.now ranges.now t.now }
    ensures answer { TermGives result (terms.term_of (site_of pl.now) ranges.now book.now t.now) }
    ensures fits { IfOk result (LedFits pl.now.slots.now ranges.now) }
{
    match t {
        PTerm::Imply(p, q) => led_by(alloc, pl, ranges, p, q),
        PTerm::From(r) => led_from(alloc, pl, ranges, book, r),
        PTerm::Trans(t, u) => {
            let first = lead(alloc, pl, ranges, book, t.get())?;
            let second = lead(alloc, pl, ranges, book, u.get());
            led_on(alloc, pl, ranges, first, second)
        }
        PTerm::Either(t, u) => {
            let first = lead(alloc, pl, ranges, book, t.get())?;
            let second = lead(alloc, pl, ranges, book, u.get());
            led_either(alloc, pl, ranges, first, second)
        }
        PTerm::Psp(t, r) => {
            let part = lead(alloc, pl, ranges, book, t.get())?;
            led_safely(alloc, pl, ranges, book, part, r)
        }
        PTerm::Weaken(p, q, t) => {
            let part = lead(alloc, pl, ranges, book, t.get())?;
            led_weaker(alloc, pl, ranges, p, q, part)
        }
        PTerm::Induct(name, range, measure, p, q, t) => {
            let part = lead(alloc, pl, ranges, book, t.get())?;
            let induction = Induction {
                name: *name,
                range: *range,
                measure,
                p,
                q,
            };
            led_down(alloc, pl, ranges, &induction, part)
        }
        PTerm::Exists(name, range, t) => {
            let part = lead(alloc, pl, ranges, book, t.get())?;
            led_any(alloc, pl, ranges, *name, *range, part)
        }
    }
}
