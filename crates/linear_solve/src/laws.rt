//! Laws of the definitions, each the contract of a function that does nothing: what the solver's
//! answers exclude.
ghost use Rattle.std.specs.Prelude.{List};
ghost use Rattle.linear_cons.specs.declared.row.Row.{Row};
ghost use Rattle.linear_solve.specs.declared.answer.Answer.{Answer};
ghost use Rattle.linear_solve.specs.Answers.{IsAnswerTo, IsDecided, IsEmpty};
ghost use Rattle.linear_solve.specs.Systems.{HasOpposed, IsOctagonList};

/// Two opposed rows have only the answer that no store meets them.
pub fn opposed_rows_are_empty()
    ensures { (rows : List Row) (answer : Answer) → IsAnswerTo rows answer → HasOpposed rows → IsEmpty answer }
{}

/// A list of octagon rows is always decided.
pub fn octagon_lists_are_decided()
    ensures { (rows : List Row) (answer : Answer) → IsAnswerTo rows answer → IsOctagonList rows → IsDecided answer }
{}
