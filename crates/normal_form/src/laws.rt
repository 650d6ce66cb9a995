//! Laws of normal forms, each the contract of a function that does nothing. That they mean what their formulas do is a law of `ctl_formula`.

ghost use Rattle.normal_form.specs.Laws.{NormalFormsHaveNoNegation, NormalFormsKeepVariables};

/// In a normal form a negation stands nowhere.
pub fn normal_forms_have_no_negation()
    ensures { NormalFormsHaveNoNegation }
{}

/// The normal form of a formula speaks of no other variables.
pub fn normal_forms_keep_variables()
    ensures { NormalFormsKeepVariables }
{}
