//! Texts of the whole language, read by its grammar. The function does nothing: it states examples.

ghost use Rattle.examples_definitions.specs.TextForms.{ExampleIsRead, IsRefusedText};
ghost use Rattle.examples_definitions.specs.CountText.{smallest_example, count_example};
ghost use Rattle.examples_definitions.specs.ProgramText.{program_example};
ghost use Rattle.examples_definitions.specs.ExpressionText.{expressions_example};
ghost use Rattle.examples_definitions.specs.ProofText.{proof_example};
ghost use Rattle.examples_definitions.specs.TermText.{term_example};
ghost use Rattle.examples_definitions.specs.VersionText.{second_version};
ghost use Rattle.examples_definitions.specs.RefusedTexts.{other_version, later_word, second_relation};
ghost use Rattle.examples_definitions.specs.RefusedTexts.{second_arrow, not_not, and_or};
ghost use Rattle.examples_definitions.specs.RefusedTexts.{other_number, node_too_many, node_missing};
ghost use Rattle.examples_definitions.specs.RefusedTexts.{early_end, bracket_too_many};

/// Texts with their tokens: each production is read, and tokens are refused exactly from the first bad
/// one on.
pub fn grammar_examples()
    ensures smallest { ExampleIsRead smallest_example }
    ensures count { ExampleIsRead count_example }
    ensures program { ExampleIsRead program_example }
    ensures expressions { ExampleIsRead expressions_example }
    ensures proof { ExampleIsRead proof_example }
    ensures term { ExampleIsRead term_example }
    ensures second_version { ExampleIsRead second_version }
    ensures later_word { IsRefusedText later_word }
    ensures other_version { IsRefusedText other_version }
    ensures second_relation { IsRefusedText second_relation }
    ensures second_arrow { IsRefusedText second_arrow }
    ensures not_not { IsRefusedText not_not }
    ensures and_or { IsRefusedText and_or }
    ensures other_number { IsRefusedText other_number }
    ensures node_too_many { IsRefusedText node_too_many }
    ensures node_missing { IsRefusedText node_missing }
    ensures early_end { IsRefusedText early_end }
    ensures bracket_too_many { IsRefusedText bracket_too_many }
{}
