// The laws of core trees. The functions do nothing: they state them.
ghost use Rattle.core_terms.specs.Laws.{FoldingKeepsTerms, FoldingKeepsForms, FoldingRaisesNoTerm, FoldingRaisesNoForm};
ghost use Rattle.core_terms.specs.Laws.{KnownTermStays, KnownFormStays, KnownTermIsValue, KnownFormIsValue};
ghost use Rattle.core_terms.specs.Laws.{ReplacingKeepsValue, ReplacingKeepsTerms, ReplacingWeighsForms};
ghost use Rattle.core_terms.specs.Laws.{ReplacingWeighsTerms, FormFrame, TermFrame, SameIsEqual};

/// A folded tree has the value of the tree and weighs no more. What is known of a tree, that is of one
/// without slot and parameter, is its value, and is known of the folded tree too.
pub fn folding_laws()
    ensures terms { FoldingKeepsTerms }
    ensures forms { FoldingKeepsForms }
    ensures term_weight { FoldingRaisesNoTerm }
    ensures form_weight { FoldingRaisesNoForm }
    ensures known_term { KnownTermStays }
    ensures known_form { KnownFormStays }
    ensures number { KnownTermIsValue }
    ensures truth { KnownFormIsValue }
{}

/// Terms that are put for slots and parameters give the tree the value that it has at the terms' values,
/// and at most the weight that it has where slots and parameters weigh as the terms.
pub fn replacing_laws()
    ensures forms { ReplacingKeepsValue }
    ensures terms { ReplacingKeepsTerms }
    ensures form_weight { ReplacingWeighsForms }
    ensures term_weight { ReplacingWeighsTerms }
{}

/// A tree's value depends on no parameter that it does not name.
pub fn frame_laws()
    ensures forms { FormFrame }
    ensures terms { TermFrame }
{}

/// The test of equal trees tells them.
pub fn same_is_equal()
    ensures { SameIsEqual }
{}
