//! Which of two families claims more.
ghost use Rattle.std.specs.Prelude.{◌≤◌, length};

use crate::moves::unchanged;
use crate::paths::regions;
use crate::search::Search;
use crate::stop::{Stop, unless_given_up};
use backward_sweeps::tree_at;
use decision_tree::{AffineRank, Tree};
use forward_inv::Inv;
use linear_cons::{Affine, Row};
use num_domain::NumDomain;
use std::alloc::AllocError;

/// Whether the new trees claim something at each state at which the old ones do, and at some other state, as far as the sets have it; false as well
/// where a tree is too large to tell, or no work is left to the search. The only error is want of memory.
pub fn claims_more<D: NumDomain>(
    search: &mut Search,
    inv: &Inv<D>,
    variables: u32,
    new: &[Tree<AffineRank>],
    old: &[Tree<AffineRank>],
) -> Result<bool, AllocError>
    requires states { length new.now ≤ length inv.now }
    requires few { length inv.now ≤ 1024 }
{
    let still = unchanged(search.alloc, variables)?;
    let none = Tree::Bottom;
    let mut claims_more = false;
    for label in 0..new.len() as u32 {
        let (next, last) = (tree_at(new, label, &none), tree_at(old, label, &none));
        if *next != *last {
            let known = inv.at(label).rows(search.alloc)?;
            let lost = unless_given_up(claims_beyond(search, &known, &still, next, last))?;
            if lost != Some(false) {
                return Ok(false);
            }
            let gained = unless_given_up(claims_beyond(search, &known, &still, last, next))?;
            claims_more = claims_more || gained == Some(true);
        }
    }
    Ok(claims_more)
}

/// Whether the second tree claims something where the first doesn't, under the rows.
fn claims_beyond(
    search: &mut Search,
    known: &[Row],
    still: &[Affine],
    first: &Tree<AffineRank>,
    second: &Tree<AffineRank>,
) -> Result<bool, Stop> {
    let rows = known.to_vec(search.alloc)?;
    for region in regions(search, first, still, rows)? {
        if !region.is_claimed {
            for part in regions(search, second, still, region.rows)? {
                if part.is_claimed {
                    return Ok(true);
                }
            }
        }
    }
    Ok(false)
}
