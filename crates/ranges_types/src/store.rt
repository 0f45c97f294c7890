//! What a document so far declares.

use names_checks::WordSet;
use names_rules::{NameTable, ProgramTable};

/// What a document so far declares.
#[derive(Drop)]
pub struct Tables<'a> {
    /// Its variables, always names and words of enumerations.
    pub names: NameTable<'a>,
    pub programs: ProgramTable<'a>,
    /// The names of the programs that have a proof.
    pub proved: WordSet<'a>,
    pub labels: WordSet<'a>,
}
