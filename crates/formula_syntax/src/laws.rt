//! Laws of the definitions: each function is empty, and its contract is the law.

ghost use Rattle.formula_syntax.specs.Laws.{TreesAreUnique, FormulasHaveNoFault, FirstFaultsAgree};

/// A text has at most one concrete tree.
pub fn trees_are_unique()
    ensures { TreesAreUnique }
{}

/// Of a text that is a formula by its syntax nothing but want of memory may be answered in place of its tree.
pub fn formulas_have_no_fault()
    ensures { FormulasHaveNoFault }
{}

/// Two faults that may be answered of one text are the same, but for want of memory.
pub fn first_faults_agree()
    ensures { FirstFaultsAgree }
{}
