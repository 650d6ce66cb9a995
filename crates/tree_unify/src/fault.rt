//! Why trees have no joined tree.
ghost use Rattle.std.specs.Prelude.{◌≡◌};

use linear_cons::Wide;
use std::alloc::AllocError;

/// Why a call gives no tree.
#[derive(Clone, Copy, PartialEq, Eq, Debug)]
pub enum TreeFault {
    /// The tree would have more than 65,536 nodes; the count is above that.
    Full { count: u64 },
    /// A complement or a rank difference has a number outside `i128`.
    Wide(Wide),
    /// Memory ran out. It says nothing of the trees.
    Memory(AllocError),
}

impl From<AllocError> for TreeFault {
    ghost use Rattle.tree_unify.specs.declared.fault.TreeFault.TheVariants.{Memory};

    ghost from_gives = { λ error fault. fault ≡ Memory error };

    fn from(error: AllocError) -> TreeFault {
        TreeFault::Memory(error)
    }
}
