// Statements, slots and programs.
use crate::trees::{CForm, CTerm, Range};
use unity_base::{Seq, Shared};

/// One write of a statement: where the formula holds, the slot gets the term's value.
#[derive(Drop)]
pub struct CWrite {
    pub slot: u32,
    pub when: CForm,
    pub value: CTerm,
}

/// One instance of a statement. It is named by its label, a word's number, and by the values of its
/// bound names, outermost first.
#[derive(Drop)]
pub struct CStmt {
    pub label: u32,
    pub indices: Seq<i64>,
    /// Where one of these holds, the statement writes outside an array.
    pub outside: Seq<CForm>,
    /// All writes, which are made at once.
    pub writes: Seq<CWrite>,
}

/// How the numbers of a slot are written.
#[derive(Drop)]
pub enum Print {
    /// As numbers.
    Number,
    /// 0 as false and 1 as true.
    Truth,
    /// Each number as a word, given by the words' numbers.
    Words(Seq<u32>),
}

/// A place of the state: a plain variable, or one index of an array.
#[derive(Drop)]
pub struct CSlot {
    /// The variable, by its word's number.
    pub name: u32,
    /// The index, of an array's slot alone.
    pub index: Option<i64>,
    pub range: Range,
    pub print: Print,
}

/// A program. Words are given by their numbers.
#[derive(Drop)]
pub struct CProgram {
    pub name: u32,
    /// The two programs of which this is the union; `None` for a program that is no union.
    pub parts: Option<(u32, u32)>,
    /// The slots that the program declares, each once, in slot order.
    pub shown: Seq<u32>,
    /// What holds of each first state.
    pub initially: CForm,
    /// The slots that the start section names, each with its value.
    pub start: Seq<(u32, i64)>,
    /// The instances, in order. A union shares those of its parts.
    pub statements: Seq<Shared<CStmt>>,
}
