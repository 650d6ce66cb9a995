//! The tree that a family has for the inputs.
ghost use Rattle.std.specs.Prelude.{◌≡◌, length};
ghost use Rattle.step_meaning.specs.Syntax.{statements};
ghost use Rattle.control_flow.specs.Labels.{all_labels, entry_of};
ghost use Rattle.decision_tree.specs.Plans.{plan_of};
ghost use Rattle.tree_support.specs.Setting.{trees_in};

use control_flow::Graph;
use control_flow::laws::edges_lead_to_labels;
use decision_tree::{Family, Rank, Tree};

/// The tree of the family at the entry, where runs begin.
pub fn tree_at_entry<'f, R: Rank>(graph: &Graph, family: &'f Family<R>) -> &'f Tree<R>
    requires { length family.now.trees ≡ length (all_labels (statements graph.now.body)) }
    ensures { plan_of result.now ≡ trees_in family.now.trees (entry_of (statements graph.now.body)) }
{
    edges_lead_to_labels();
    &family.trees.items()[graph.entry() as usize]
}
