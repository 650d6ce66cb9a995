//! The walk over the leaves of another tree.
ghost use Rattle.std.specs.Prelude.{◌≡◌, ◌++◌, ◌∷◌, ◌<◌, [], true, false, None, All, IfErr, IfOk, OkIff, OnOk, IfSome, length};
ghost use Rattle.linear_cons.specs.Exact.{IsOutside};
ghost use Rattle.linear_cons.specs.Functions.{complement_of};
ghost use Rattle.decision_tree.specs.Plans.{leaf, plan_of};
ghost use Rattle.decision_tree.specs.declared.reason.Why.{Why};
ghost use Rattle.constraint_stack.specs.Claims.{HasNoStore, MoveFits, moved_rank};
ghost use Rattle.tree_support.specs.Systems.{moved_by};
ghost use Rattle.constraint_stack.specs.Stacks.{Forms, IsMetNowhere, all_asked, asked};
ghost use Rattle.constraint_stack.specs.Searches.{Holds, IsLonger, IsSame, IsSearched, WhereAsked};
ghost use Rattle.leaf_search.specs.Walks.{IsKept, IsSettled, LeadsTo, WhereAmong, ending, side_of, systems_behind};

use constraint_stack::{Asked, ConstraintStack, Finding, try_claim, try_unformed};
use decision_tree::{Rank, Shared, Tree};
use linear_cons::{Affine, Row, RowKind, Wide};
use std::alloc::AllocError;

/// How the leaves of a tree are looked at: over an edge, which may set a place to the value of a function, and with the rank that
/// those of the leaves are to be less than, where there is one.
#[derive(Clone, Copy)]
pub struct Way<R: Rank> {
    pub edge: u32,
    pub sets: Option<(u8, Affine)>,
    pub limit: Option<R>,
}

impl<R: Rank> Way<R> {
    /// Looks for a reason against the systems of the tree's leaves, behind the rows on the stack. No row is added that these settle.
    pub(crate) fn refute_tree(
        &self,
        tree: &Tree<R>,
        stack: &mut ConstraintStack,
        found: &mut Option<Finding>,
    ) -> Result<bool, AllocError>
        requires { IfSome self.now.sets (λ s. s.0 < 16) }
        ensures same { OnOk result (IsSame stack.old stack.new) }
        ensures searched { IfOk result (λ refuted. WhereAsked stack.old (λ asks.
            IsSearched R.Rank.own (systems_behind self.now.edge self.now.sets self.now.limit (plan_of tree.now) asks) refuted found.new)) }
    {
        let part = self.led(tree, stack);
        let refuted = self.refute_part(part, stack, found)?;
        Ok(refuted)
    }

    /// The same. Where ranks may be any, it first looks whether the rows on the stack leave any of the leaves, for which no row is added. A single leaf needs
    /// no walk.
    fn refute_part(
        &self,
        tree: &Tree<R>,
        stack: &mut ConstraintStack,
        found: &mut Option<Finding>,
    ) -> Result<bool, AllocError>
        requires { IfSome self.now.sets (λ s. s.0 < 16) }
        ensures same { OnOk result (IsSame stack.old stack.new) }
        ensures searched { IfOk result (λ refuted. WhereAsked stack.old (λ asks.
            IsSearched R.Rank.own (systems_behind self.now.edge self.now.sets self.now.limit (plan_of tree.now) asks) refuted found.new)) }
    {
        if let Tree::Leaf { why: _, rank } = tree {
            return self.refute_less(rank, stack, found);
        }
        if self.limit.is_none() && self.is_clear(tree, stack) {
            return Ok(false);
        }
        let refuted = self.refute(tree, stack, found)?;
        Ok(refuted)
    }

    /// The same by a walk, which adds the tree's first row.
    #[cycle(walk)]
    fn refute(
        &self,
        tree: &Tree<R>,
        stack: &mut ConstraintStack,
        found: &mut Option<Finding>,
    ) -> Result<bool, AllocError>
        requires { IfSome self.now.sets (λ s. s.0 < 16) }
        ensures same { OnOk result (IsSame stack.old stack.new) }
        ensures searched { IfOk result (λ refuted. WhereAsked stack.old (λ asks.
            IsSearched R.Rank.own (systems_behind self.now.edge self.now.sets self.now.limit (plan_of tree.now) asks) refuted found.new)) }
    {
        match tree {
            Tree::Node { row, yes, no } => {
                if self.refute_behind(row, true, yes, stack, found)? {
                    return Ok(true);
                }
                let refuted = self.refute_behind(row, false, no, stack, found)?;
                Ok(refuted)
            }
            Tree::Leaf { why: _, rank } => self.refute_less(rank, stack, found),
            Tree::Bottom | Tree::Top(_) => {
                let refuted = stack.check(self.edge, found)?;
                Ok(refuted)
            }
        }
    }

    /// Looks at the leaves of a side, behind the row where it holds and its complement where it doesn't. The walk goes on from the part to which these lead, so that no
    /// row is added that is settled.
    #[cycle(walk)]
    fn refute_behind(
        &self,
        row: &Shared<Row>,
        holds: bool,
        side: &Tree<R>,
        stack: &mut ConstraintStack,
        found: &mut Option<Finding>,
    ) -> Result<bool, AllocError>
        requires { IfSome self.now.sets (λ s. s.0 < 16) }
        ensures same { OnOk result (IsSame stack.old stack.new) }
        ensures searched { IfOk result (λ refuted. WhereAsked stack.old (λ asks.
            IsSearched R.Rank.own (systems_behind self.now.edge self.now.sets self.now.limit (plan_of side.now)
            (asks ++ moved_by self.now.sets (side_of row.now.affine holds) ∷ [])) refuted found.new)) }
    {
        let checkpoint = stack.checkpoint();
        if !self.enter(row, holds, stack)? {
            return Ok(false);
        }
        let part = self.led(side, stack);
        let refuted = self.refute(part, stack, found)?;
        stack.restore(checkpoint);
        Ok(refuted)
    }

    /// Adds the row of a side, moved back. False where no store meets the rows on the stack with it. The error is want of memory.
    #[inline(never)]
    pub fn enter(
        &self,
        row: &Shared<Row>,
        holds: bool,
        stack: &mut ConstraintStack,
    ) -> Result<bool, AllocError>
        requires { IfSome self.now.sets (λ s. s.0 < 16) }
        ensures same { IfOk result (λ entered. entered ≡ false → IsSame stack.old stack.new) }
        ensures longer { IfOk result (λ entered. IsLonger stack.old stack.new) }
        ensures held { IfOk result (λ entered. entered ≡ true → WhereAsked stack.old (λ asks.
            Holds stack.new (all_asked (asks ++ moved_by self.now.sets (side_of row.now.affine holds) ∷ [])))) }
        ensures nowhere { IfOk result (λ entered. entered ≡ false → WhereAsked stack.old (λ asks.
            IsMetNowhere (all_asked (asks ++ moved_by self.now.sets (side_of row.now.affine holds) ∷ [])))) }
    {
        let row: &Row = row;
        if self.keeps(row) {
            let added = self.enter_kept(row, holds, stack)?;
            return Ok(added);
        }
        let formed = self.moved_side(row, holds);
        let added = stack.add(formed)?;
        Ok(added)
    }

    /// The same of a row that is moved back to itself. Its complement isn't formed where a row on the stack tells the row.
    fn enter_kept(
        &self,
        row: &Row,
        holds: bool,
        stack: &mut ConstraintStack,
    ) -> Result<bool, AllocError>
        requires place { IfSome self.now.sets (λ s. s.0 < 16) }
        requires kept { IsKept self.now.sets row.now.affine }
        requires places { length row.now.affine.coef ≡ 16 }
        ensures same { IfOk result (λ entered. entered ≡ false → IsSame stack.old stack.new) }
        ensures longer { IfOk result (λ entered. IsLonger stack.old stack.new) }
        ensures held { IfOk result (λ entered. entered ≡ true → WhereAsked stack.old (λ asks.
            Holds stack.new (all_asked (asks ++ moved_by self.now.sets (side_of row.now.affine holds) ∷ [])))) }
        ensures nowhere { IfOk result (λ entered. entered ≡ false → WhereAsked stack.old (λ asks.
            IsMetNowhere (all_asked (asks ++ moved_by self.now.sets (side_of row.now.affine holds) ∷ [])))) }
    {
        if holds {
            let added = stack.add_row(row)?;
            return Ok(added);
        }
        if stack.tells(row) {
            return Ok(false);
        }
        match row.not() {
            Ok(complement) => {
                let added = stack.add_row(&complement)?;
                Ok(added)
            }
            Err(wide) => {
                let added = stack.add(Err(wide))?;
                Ok(added)
            }
        }
    }

    /// Whether the row is moved back to itself, since nothing is set that it mentions.
    fn keeps(&self, row: &Row) -> bool
        requires { IfSome self.now.sets (λ s. s.0 < 16) }
        ensures kept { result ≡ true → IsKept self.now.sets row.now.affine }
        ensures places { length row.now.affine.coef ≡ 16 }
    {
        has_sixteen_places(row);
        match &self.sets {
            None => true,
            Some((place, _)) => row.affine.coef[*place as usize] == 0,
        }
    }

    /// The part of the tree to which the rows on the stack lead.
    #[inline(never)]
    pub(crate) fn led<'t>(&self, tree: &'t Tree<R>, stack: &ConstraintStack) -> &'t Tree<R>
        requires { IfSome self.now.sets (λ s. s.0 < 16) }
        ensures { LeadsTo stack.now.rows self.now.sets (plan_of tree.now) (plan_of result.now) }
    {
        let mut part = tree;
        while let Tree::Node { row, yes, no } = part {
            match self.settled(row, stack) {
                Some(true) => part = yes,
                Some(false) => part = no,
                None => return part,
            }
        }
        part
    }

    /// Whether it is seen, without a row added to those on the stack, that no store meets a system of the tree's leaves behind them: each leaf is
    /// defined, or the rows on the stack settle a row before it against it. It speaks of leaves whose rank may be any.
    fn is_clear(&self, tree: &Tree<R>, stack: &ConstraintStack) -> bool
        requires { IfSome self.now.sets (λ s. s.0 < 16) }
        ensures { result ≡ true → WhereAmong stack.now.rows (λ asks.
            All (HasNoStore R.Rank.own) (systems_behind self.now.edge self.now.sets None (plan_of tree.now) asks)) }
    {
        match tree {
            Tree::Node { row, yes, no } => match self.settled(row, stack) {
                Some(true) => self.is_clear(yes, stack),
                Some(false) => self.is_clear(no, stack),
                None => self.is_clear(yes, stack) && self.is_clear(no, stack),
            },
            Tree::Leaf { .. } => true,
            Tree::Bottom | Tree::Top(_) => false,
        }
    }

    /// The side of a row, moved back, which the rows on the stack imply, where they exclude the other.
    #[inline(never)]
    fn settled(&self, row: &Shared<Row>, stack: &ConstraintStack) -> Option<bool>
        requires { IfSome self.now.sets (λ s. s.0 < 16) }
        ensures { IfSome result (λ holds. IsSettled stack.now.rows self.now.sets row.now.affine holds) }
    {
        let row: &Row = row;
        if self.keeps(row) {
            return stack.settles(row);
        }
        match self.moved(row) {
            Ok(RowKind::Always) => Some(true),
            Ok(RowKind::Never) => Some(false),
            Ok(RowKind::Row(moved)) => stack.settles(&moved),
            Err(_) => None,
        }
    }

    /// The row of a side, moved back.
    fn moved_side(&self, row: &Row, holds: bool) -> Result<RowKind, Wide>
        requires { IfSome self.now.sets (λ s. s.0 < 16) }
        ensures { Forms (asked (moved_by self.now.sets (side_of row.now.affine holds))) result }
    {
        if holds {
            self.moved(row)
        } else {
            self.moved_complement(row)
        }
    }

    /// The row, moved back.
    fn moved(&self, row: &Row) -> Result<RowKind, Wide>
        requires { IfSome self.now.sets (λ s. s.0 < 16) }
        ensures { Forms (asked (moved_by self.now.sets row.now.affine)) result }
    {
        match &self.sets {
            None => Ok(Row::of(row.affine)),
            Some((place, by)) => {
                let moved = row.affine.subst(*place, by)?;
                Ok(Row::of(moved))
            }
        }
    }

    /// The row's complement, moved back.
    fn moved_complement(&self, row: &Row) -> Result<RowKind, Wide>
        requires { IfSome self.now.sets (λ s. s.0 < 16) }
        ensures { Forms (asked (moved_by self.now.sets (complement_of row.now.affine))) result }
    {
        let complement = row.not()?;
        self.moved(&complement)
    }

    /// Looks for a reason against a leaf's rank, where it is to be less.
    #[inline(never)]
    fn refute_less(
        &self,
        rank: &Shared<R>,
        stack: &mut ConstraintStack,
        found: &mut Option<Finding>,
    ) -> Result<bool, AllocError>
        requires { IfSome self.now.sets (λ s. s.0 < 16) }
        ensures same { OnOk result (IsSame stack.old stack.new) }
        ensures searched { IfOk result (λ refuted. (why : Why) → WhereAsked stack.old (λ asks.
            IsSearched R.Rank.own (ending self.now.edge self.now.sets self.now.limit (leaf why rank.now) asks) refuted found.new)) }
    {
        let rank: &R = rank;
        match &self.limit {
            None => Ok(false),
            Some(limit) => {
                let refuted = match self.more(rank) {
                    Ok(more) => {
                        try_claim(&Asked::Greater(&more, limit), self.edge, stack, found)?
                    }
                    Err(wide) => try_unformed(wide, self.edge, stack, found)?,
                };
                Ok(refuted)
            }
        }
    }

    /// The leaf's rank, moved back, and one more.
    fn more(&self, rank: &R) -> Result<R, Wide>
        requires { IfSome self.now.sets (λ s. s.0 < 16) }
        ensures exact { OkIff result (MoveFits R.Rank.own self.now.sets rank.now × R.add_one_fits (moved_rank R.Rank.own self.now.sets rank.now))
            (R.one_more (moved_rank R.Rank.own self.now.sets rank.now)) }
        ensures wide { IfErr result IsOutside }
    {
        let moved = match &self.sets {
            None => *rank,
            Some((place, by)) => rank.subst(*place, by)?,
        };
        let more = moved.add_one()?;
        Ok(more)
    }
}

/// Shows that a row has sixteen coefficients, as each that is read has. It has no effect.
pub(crate) fn has_sixteen_places(row: &Row)
    ensures { length row.now.affine.coef ≡ 16 }
{
    let _ = row.affine.coef[0];
}
