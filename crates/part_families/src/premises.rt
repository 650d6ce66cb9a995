//! What is known of a program, and the check of a family over it.
ghost use Rattle.std.specs.Prelude.{◌≡◌, ℕ, false, List, All, IfOk, length};
ghost use Rattle.step_meaning.specs.Syntax.{statements};
ghost use Rattle.ctl_formula.specs.Mirror.{ctl};
ghost use Rattle.tree_check.specs.Checking.{families_of};
ghost use Rattle.tree_support.specs.Certificates.{affine_ranks};
ghost use Rattle.tree_support.specs.declared.dropped.Dropped.{Dropped};
ghost use Rattle.tree_support.specs.Elimination.{Eliminates};
ghost use Rattle.tree_support.specs.Setting.{setting_of, trees_in};
ghost use Rattle.part_families.specs.Fitting.{IsFit};
ghost use Rattle.part_families.specs.Knowing.{ArePremises, told_on};
ghost use Rattle.part_families.specs.Showing.{AreOperandsOf, IsKeptWhole, Shows};
ghost use Rattle.exact_families.specs.Completeness.{AreKept, EachPart, IsComplete, IsLoopless};
ghost use Rattle.part_families.specs.Families.{IsExact, IsNarrowFor, IsWithin};
ghost use Rattle.exact_families.specs.Narrowness.{IsNarrowAndComplete};

use crate::fitting::fitted;
use crate::smaller::SmallerParts;
use backward_sweeps::has_head;
use control_flow::{Graph, Transition};
use ctl_formula::Formula;
use decision_tree::{AffineRank, Family, TreeList};
use forward_inv::Inv;
use num_domain::NumDomain;
use part_trees::proposed;
use std::alloc::{AllocError, Global};
use tree_check::laws::eliminations_spare_places;
use tree_check::{Dropped, check_beside, check_over};

/// What is known of a program whatever formula it is asked about: its graph with the number of labels, sets that have the states that are
/// reached, and what is done at each label; after how many sweeps those that propose trees widen them; and whether linear programs may propose some.
#[derive(Drop)]
pub struct Premises<'a, D: NumDomain> {
    pub alloc: Global,
    pub graph: &'a Graph,
    pub inv: &'a Inv<D>,
    pub transitions: &'a [Transition],
    pub labels: u32,
    pub delay: u32,
    pub synthesises: bool,
}

/// What the check leaves of trees, and the leaf that it gave up first, if it gave one up.
#[derive(Drop)]
pub struct Checked {
    pub family: Family<AffineRank>,
    pub first: Option<Dropped>,
}

impl<'a, D: NumDomain> Premises<'a, D> {
    /// What the check leaves of the trees, as a family for the formula over those of its operands. The only error is want of memory.
    pub fn checked(
        &self,
        formula: &Formula,
        smaller: &SmallerParts,
        trees: TreeList<AffineRank>,
    ) -> Result<Family<AffineRank>, AllocError>
        requires premises { ArePremises D.NumDomain.own self.now }
        requires fit { All (IsFit (length self.now.graph.now.names)) trees }
        requires labels { length trees ≡ self.now.labels }
        ensures shows { IfOk result (Shows self.now.graph.now (told_on D.NumDomain.own self.now) (ctl formula.now) smaller.now.number
            smaller.now.operands.items) }
        ensures legal { IfOk result (λ family. (drops : List Dropped) × Eliminates affine_ranks
            (setting_of (statements self.now.graph.now.body) (told_on D.NumDomain.own self.now) (ctl formula.now)
            (families_of smaller.now.operands.items)) (trees_in trees) drops (trees_in family.trees)) }
    {
        let checked = self.examined(formula, smaller.number, &smaller.operands, trees)?;
        Ok(checked.family)
    }

    /// The same, as a family with the number, beside the leaf that the check gave up first.
    pub fn examined(
        &self,
        formula: &Formula,
        number: u32,
        operands: &[Family<AffineRank>],
        trees: TreeList<AffineRank>,
    ) -> Result<Checked, AllocError>
        requires premises { ArePremises D.NumDomain.own self.now }
        requires fit { All (IsFit (length self.now.graph.now.names)) trees }
        requires labels { length trees ≡ self.now.labels }
        ensures shows { IfOk result (λ checked. Shows self.now.graph.now (told_on D.NumDomain.own self.now) (ctl formula.now) number operands.now
            checked.family) }
        ensures legal { IfOk result (λ checked. (drops : List Dropped) × Eliminates affine_ranks
            (setting_of (statements self.now.graph.now.body) (told_on D.NumDomain.own self.now) (ctl formula.now)
            (families_of operands.now)) (trees_in trees) drops (trees_in checked.family.trees)) }
    {
        eliminations_spare_places();
        let mut family = Family {
            part: number,
            trees,
        };
        let dropped = check_over(
            self.alloc,
            self.graph,
            self.inv,
            self.transitions,
            formula,
            operands,
            &mut family,
        )?;
        Ok(Checked {
            family,
            first: first_of(&dropped),
        })
    }

    /// The same of trees of which nothing is known: one that can't be printed is given up.
    pub fn left_of(
        &self,
        formula: &Formula,
        smaller: &SmallerParts,
        trees: TreeList<AffineRank>,
    ) -> Result<Family<AffineRank>, AllocError>
        requires premises { ArePremises D.NumDomain.own self.now }
        requires labels { length trees ≡ self.now.labels }
        ensures shows { IfOk result (Shows self.now.graph.now (told_on D.NumDomain.own self.now) (ctl formula.now) smaller.now.number
            smaller.now.operands.items) }
        ensures kept { IfOk result (λ family. AreKept trees family.trees) }
        ensures whole { All (IsFit (length self.now.graph.now.names)) trees → IsKeptWhole (setting_of (statements self.now.graph.now.body)
            (told_on D.NumDomain.own self.now) (ctl formula.now) (families_of smaller.now.operands.items)) trees
            → IfOk result (λ family. (label : ℕ) → trees_in family.trees label ≡ trees_in trees label) }
    {
        let fit = fitted(trees, &self.graph.program().names);
        self.checked(formula, smaller, fit)
    }

    /// The same of trees beside a family that shows the formula: a label at which the trees say what they say there, as they do at its successors, isn't looked at
    /// before a leaf of one of these is given up.
    pub fn left_beside(
        &self,
        formula: &Formula,
        smaller: &SmallerParts,
        known: &Family<AffineRank>,
        trees: TreeList<AffineRank>,
    ) -> Result<Family<AffineRank>, AllocError>
        requires premises { ArePremises D.NumDomain.own self.now }
        requires known { Shows self.now.graph.now (told_on D.NumDomain.own self.now) (ctl formula.now) smaller.now.number smaller.now.operands.items
            known.now }
        requires labels { length trees ≡ self.now.labels }
        ensures { IfOk result (Shows self.now.graph.now (told_on D.NumDomain.own self.now) (ctl formula.now) smaller.now.number
            smaller.now.operands.items) }
    {
        let fit = fitted(trees, &self.graph.program().names);
        let family = self.checked_beside(formula, smaller.number, &smaller.operands, known, fit)?;
        Ok(family)
    }

    /// What the check leaves of trees that can be printed, as a family with the number, beside one that shows the formula.
    fn checked_beside(
        &self,
        formula: &Formula,
        number: u32,
        operands: &[Family<AffineRank>],
        known: &Family<AffineRank>,
        trees: TreeList<AffineRank>,
    ) -> Result<Family<AffineRank>, AllocError>
        requires premises { ArePremises D.NumDomain.own self.now }
        requires known { Shows self.now.graph.now (told_on D.NumDomain.own self.now) (ctl formula.now) number operands.now known.now }
        requires fit { All (IsFit (length self.now.graph.now.names)) trees }
        requires labels { length trees ≡ self.now.labels }
        ensures { IfOk result (Shows self.now.graph.now (told_on D.NumDomain.own self.now) (ctl formula.now) number operands.now) }
    {
        eliminations_spare_places();
        let mut family = Family {
            part: number,
            trees,
        };
        let _dropped = check_beside(
            self.alloc,
            self.graph,
            self.inv,
            self.transitions,
            formula,
            operands,
            known.trees.items(),
            &mut family,
        )?;
        Ok(family)
    }

    /// What the check leaves of the trees that are proposed for the formula. The only error is want of memory.
    pub fn found(
        &self,
        formula: &Formula,
        smaller: &SmallerParts,
    ) -> Result<Family<AffineRank>, AllocError>
        requires premises { ArePremises D.NumDomain.own self.now }
        ensures shows { IfOk result (Shows self.now.graph.now (told_on D.NumDomain.own self.now) (ctl formula.now) smaller.now.number
            smaller.now.operands.items) }
        ensures exact { IsLoopless (statements self.now.graph.now.body) → EachPart (IsComplete (statements self.now.graph.now.body)) (ctl formula.now)
            (families_of smaller.now.operands.items) → IfOk result (IsExact (statements self.now.graph.now.body) (ctl formula.now)) }
        ensures narrow { IsLoopless (statements self.now.graph.now.body)
            → IsWithin (length self.now.graph.now.names) (statements self.now.graph.now.body) (ctl formula.now)
            → AreOperandsOf (ctl formula.now) self.now.labels smaller.now.operands.items
            → EachPart (IsNarrowAndComplete (length self.now.graph.now.names) (statements self.now.graph.now.body)) (ctl formula.now)
            (families_of smaller.now.operands.items)
            → IfOk result (IsNarrowFor (length self.now.graph.now.names) (statements self.now.graph.now.body) (ctl formula.now)) }
    {
        let trees = proposed(
            self.alloc,
            self.inv,
            self.transitions,
            formula,
            &smaller.operands,
            self.delay,
        )?;
        self.left_of(formula, smaller, trees)
    }

    /// Whether some label is the head of a loop.
    pub fn has_loop(&self) -> bool
        requires premises { ArePremises D.NumDomain.own self.now }
        ensures { IsLoopless (statements self.now.graph.now.body) → result ≡ false }
    {
        has_head(self.transitions)
    }
}

/// The first of the leaves that were given up; nothing is said of it, since nothing rests on it.
fn first_of(dropped: &[Dropped]) -> Option<Dropped> {
    Some(*dropped.first()?)
}
