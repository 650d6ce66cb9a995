//! Laws of reports, each the contract of a function that does nothing.

ghost use Rattle.std.specs.Prelude.{◌≡◌, ◌++◌, ◌↔◌, ℕ, pos, Option, length};
ghost use Rattle.step_meaning.specs.Outcome.{Store};
ghost use Rattle.step_meaning.specs.Run.{IsInput, start};
ghost use Rattle.ctl_formula.specs.Formulas.{normal};
ghost use Rattle.ctl_formula.specs.Satisfaction.{Sat};
ghost use Rattle.exact_families.specs.Completeness.{IsLoopless};
ghost use Rattle.formula_measures.specs.Measures.{IsWithinMeasures};
ghost use Rattle.decision_tree.specs.declared.affine_rank.AffineRank.{AffineRank};
ghost use Rattle.decision_tree.specs.declared.tree.Tree.{Tree};
ghost use Rattle.line_text.specs.declared.claim.Claim.TheVariants.{Exactly};
ghost use Rattle.report_text.specs.declared.report.Report.{Report};
ghost use Rattle.report_text.specs.declared.report.Stop.{Stop};
ghost use Rattle.report_text.specs.Leaves.{MeetsOneLine};
ghost use Rattle.function_top.specs.declared.found.Exact.TheVariants.{Made};
ghost use Rattle.function_top.specs.declared.found.Found.{Found};
ghost use Rattle.function_top.specs.Exact.{EndsExactly, MeetsAtMostOneLine, MeetsLine, MeetsSomeLine};
ghost use Rattle.function_top.specs.Found.{IsFound, claim_found};
ghost use Rattle.command_words.specs.Order.{Task};
ghost use Rattle.function_top.specs.Shown.{Shows};
ghost use Rattle.function_top.specs.Subject.{Subject};
ghost use Rattle.function_top.specs.Known.{KnownTexts};

use claim_line::laws::{a_line_tells_at_most_one_claim, claims_have_their_own_form};
use formula_parse::{a_text_is_one_formula, texts_name_their_variables};
use line_text::laws::{a_line_spells_at_most_one_claim, lines_have_their_own_form};
use normal_form::normal_forms_keep_variables;
use source_parse::{a_text_is_one_unit, names_of_units_are_spelled_as_names};

/// A law: each input of a program meets exactly one line of the sections of its report below the exact part, which claims what the trees that were found
/// do.
pub fn each_input_meets_one_line()
    ensures { (found : Found) (report : Report) → Shows found report → (input : Store)
        → MeetsOneLine input (claim_found found input) (report.proved ++ (report.ranked ++ report.unknown)) }
{}

/// A law: each input of a program meets at most one line of the exact part of its report.
pub fn each_input_meets_at_most_one_exact_line()
    ensures { (found : Found) (report : Report) → Shows found report → (input : Store) → MeetsAtMostOneLine input report.exact }
{}

/// A law: an input of a program meets a line `exactly n steps` of the exact part exactly where every run from it ends with at most as many
/// tests of a loop as the part's header says, and the longest one has n steps.
pub fn exact_lines_are_met_by_exact_runs()
    ensures { (task : Task) (subject : Subject) (found : Found) (report : Report) → IsFound task subject found → Shows found report
        → (tests : ℕ) (stop : Option Stop) (tree : Tree AffineRank) → found.exact ≡ Made tests stop tree
        → (input : Store) → IsInput (length subject.names) input → (n : ℕ)
        → MeetsLine input (Exactly (pos n)) report.exact ↔ EndsExactly subject.body tests input n }
{}

/// A law: of a plain program without loops an input meets a proved line exactly where its start satisfies the formula, whose normal form is within
/// the measures of the program.
pub fn proved_lines_are_met_by_satisfied_inputs()
    ensures { (task : Task) (subject : Subject) (found : Found) (report : Report) → IsFound task subject found → Shows found report
        → IsLoopless subject.body → IsWithinMeasures subject.body (normal subject.formula) → (input : Store) → IsInput (length subject.names) input
        → MeetsSomeLine input report.proved ↔ Sat subject.formula (start subject.body input) }
{}

/// A law: what is known of the texts of programs, of formulas and of lines.
pub(crate) fn texts_are_known()
    ensures { KnownTexts }
{
    a_text_is_one_unit();
    a_text_is_one_formula();
    texts_name_their_variables();
    normal_forms_keep_variables();
    names_of_units_are_spelled_as_names();
    lines_have_their_own_form();
    a_line_spells_at_most_one_claim();
    a_line_tells_at_most_one_claim();
    claims_have_their_own_form();
}
