//! Laws of the definitions, each the contract of a function that does nothing.
ghost use Rattle.std.specs.Prelude.{◌≡◌, ℕ, ℤ, List, ◌++◌, ◌↔◌};
ghost use Rattle.linear_cons.specs.Rows.{MeetsAll};
ghost use Rattle.linear_cons.specs.declared.affine.Affine.{Affine};
ghost use Rattle.linear_cons.specs.declared.row.Row.{Row};
ghost use Rattle.linear_cons.specs.Tightest.{AreTightest};
ghost use Rattle.decision_tree.specs.Paths.{MeetsPath};
ghost use Rattle.decision_tree.specs.Evaluation.{eval};
ghost use Rattle.decision_tree.specs.Plans.{Plan};
ghost use Rattle.decision_tree.specs.declared.affine_rank.AffineRank.{AffineRank};
ghost use Rattle.report_text.specs.declared.line.Line.{Line};
ghost use Rattle.report_text.specs.declared.line.Top.{Top};
ghost use Rattle.report_text.specs.Leaves.{AreLinesOf, MeetsOneLine, claim_at, claiming, claiming_nothing};
ghost use Rattle.report_text.specs.Ranked.{AreRefined, claim_of_both};
ghost use Rattle.ordinal_rank.specs.declared.ordinal.OrdinalRank.{OrdinalRank};
ghost use Rattle.report_text.specs.Sections.{IsFrontOf, Role, SaysOnly, lines_in, lines_printed};
ghost use Rattle.report_text.specs.Printed.{IsReportText};
ghost use Rattle.report_text.specs.declared.report.Report.{Report};
ghost use Rattle.line_text.specs.Names.{AreNames};

use line_text::laws::lines_have_their_own_form;

/// A store meets the tightest rows of a path exactly where it meets the path.
pub fn tightest_rows_are_met_with_the_path()
    ensures { (path : List Affine) (kept : List Row) (store : List ℤ) → AreTightest path kept → MeetsAll store kept ↔ MeetsPath store path }
{}

/// Each store meets the rows of exactly one of a tree's lines, and that line has the claim of the leaf at which the store stands.
pub fn each_store_meets_one_line()
    ensures { (claims : Top) (plan : Plan AffineRank) (lines : List Line) (store : List ℤ) → AreLinesOf claims plan lines
        → MeetsOneLine store (claim_at claims (eval plan store)) lines }
{}

/// Where lines of a tree of ordinal ranks stand for those of a tree that claim nothing, each store meets exactly one still: it has the claim of
/// the first tree's leaf at which the store stands, or where that is undefined of the other's.
pub fn refined_lines_are_met_once()
    ensures { (claims : Top) (first : Plan AffineRank) (ranked : Plan OrdinalRank) (store : List ℤ) (lines refined : List Line)
        → AreLinesOf claims first lines → AreRefined ranked (claiming_nothing lines) refined
        → MeetsOneLine store (claim_of_both claims first ranked store) (claiming lines ++ (claiming refined ++ claiming_nothing refined)) }
{}

/// A front of a text, as a write that failed half way leaves it, is cut into fronts of what the text is cut
/// into.
pub fn a_front_is_cut_into_fronts()
    ensures { (front rest : List ℕ) (role : Role) → IsFrontOf (lines_in role front) (lines_in role (front ++ rest)) }
{}

/// A printed report is cut into the lines that were printed; and each whole line of the exact part or of a
/// section in a front of it is the text of a line of the report's there.
pub fn printed_reports_are_cut_into_their_lines()
    ensures sections { (names : List (List ℕ)) (report : Report) (text : List ℕ) (printed : IsReportText names report text)
        → AreNames names → (role : Role) → lines_in role text ≡ lines_printed role report.header printed.exact printed.texts report.explain }
    ensures lines { (names : List (List ℕ)) (report : Report) (front rest : List ℕ) → AreNames names
        → IsReportText names report (front ++ rest) → SaysOnly names report front }
{
    lines_have_their_own_form();
}
