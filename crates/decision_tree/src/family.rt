//! Trees for the labels of a graph.
ghost use Rattle.std.specs.Prelude.{◌≡◌, map};
ghost use Rattle.decision_tree.specs.Plans.{plan_of};

use crate::rank::Rank;
use crate::tree::Tree;
use std::marker::Model;

/// A list of trees; contracts see it as the list of their plans.
#[derive(Drop)]
pub struct TreeList<R: Rank> {
    trees: Vec<Tree<R>>,
}

impl<R: Rank> Model for TreeList<R> {
    ghost use Rattle.std.specs.Coded.{coded_list};
    ghost use Rattle.std.specs.Prelude.{List, map};
    ghost use Rattle.decision_tree.specs.Laws.PlanCode.{plan_code};
    ghost use Rattle.decision_tree.specs.Plans.{Plan, plan_of};

    ghost Value = { List (Plan R) };

    ghost coded = { coded_list (plan_code R.code) };

    ghost view = { λ inside. map plan_of inside.trees.items };
}

impl<R: Rank> TreeList<R> {
    ghost use Rattle.std.specs.Borrow.{sem};
    ghost use Rattle.decision_tree.specs.Lending.{LendsTrees};

    /// The list of the vector's trees. It takes no memory.
    pub fn of(trees: Vec<Tree<R>>) -> TreeList<R>
        ensures { result ≡ map plan_of trees.items }
    {
        TreeList { trees }
    }

    /// The trees as a slice.
    pub fn items(&self) -> &[Tree<R>]
        ensures { map plan_of result.now ≡ self.now }
    {
        &self.trees
    }

    /// The trees as a slice to be written: the list is what is left there.
    pub fn items_mut(&mut self) -> &mut [Tree<R>]
        ensures* writes_back { sem 𝓛 (LendsTrees R.row R.Rank self.entry result) }
        ensures value { map plan_of result.now ≡ self.old }
    {
        &mut self.trees
    }

    /// The vector of the trees. It takes no memory.
    pub fn into_vec(self) -> Vec<Tree<R>>
        ensures { map plan_of result.items ≡ self }
    {
        self.trees
    }
}

/// One tree for each label of a graph, for the part of a formula with the number `part`.
#[derive(Drop)]
pub struct Family<R: Rank> {
    pub part: u32,
    pub trees: TreeList<R>,
}
