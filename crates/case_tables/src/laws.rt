//! What holds of the tables together.

ghost use Rattle.case_tables.specs.NamesAreWords.{RulesAreWords, KindsAreWords};

/// Each rule's name and each kind's name is the spelling of its reserved word. This function does
/// nothing: it states the law.
pub fn names_are_words()
    ensures rules { RulesAreWords }
    ensures kinds { KindsAreWords }
{}
