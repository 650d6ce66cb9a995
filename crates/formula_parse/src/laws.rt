//! Laws of formulas' texts, each the contract of a function that does nothing.

ghost use Rattle.formula_parse.specs.Laws.{TextsAreUnique, ComplementsOfTextsFit, FormulasHaveNoFault, TextsNameTheirVariables, FaultsAgree};

use formula_syntax::{first_faults_agree, formulas_have_no_fault, trees_are_unique};
use source_lex::tokens_are_unique;

/// A text is at most one formula.
pub fn a_text_is_one_formula()
    ensures { TextsAreUnique }
{
    trees_are_unique();
}

/// The complement of each row of a formula that a text is fits 128 bits: what `normal` asks for.
pub fn complements_of_texts_fit()
    ensures { ComplementsOfTextsFit }
{}

/// Of a text that is a formula nothing but want of memory may be answered in its place.
pub fn a_formula_has_no_fault()
    ensures { FormulasHaveNoFault }
{
    trees_are_unique();
    formulas_have_no_fault();
}

/// The rows of a formula that a text is speak of no variable past the names.
pub fn texts_name_their_variables()
    ensures { TextsNameTheirVariables }
{}

/// Two faults of one text have the same number and the same offset.
pub fn a_text_has_one_fault()
    ensures { FaultsAgree }
{
    trees_are_unique();
    tokens_are_unique();
    formulas_have_no_fault();
    first_faults_agree();
}
