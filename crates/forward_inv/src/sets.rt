//! Sets of stores, one for each label of a program.
ghost use Rattle.std.specs.Prelude.{◌≡◌, ◌<◌, ℕ, IfOk, Some, length, slice_get};
ghost use Rattle.step_meaning.specs.Syntax.{statements};
ghost use Rattle.forward_inv.specs.Behind.{MeetsBehind};
ghost use Rattle.control_flow.specs.Invariants.{AreInvariants};

use crate::behind::meet_rows;
use crate::keeping::inductive;
use crate::sweeps::guesses;
use control_flow::Graph;
use num_domain::NumDomain;
use std::alloc::{AllocError, Global};
use std::marker::Model;

/// One set of stores for each label of a program; contracts see the list of the sets.
#[derive(Drop)]
pub struct Inv<D: NumDomain> {
    states: Vec<D>,
}

impl<D: NumDomain> Model for Inv<D> {
    ghost use Rattle.std.specs.Coded.{coded_list};
    ghost use Rattle.std.specs.Prelude.{List};

    ghost Value = { List D };

    ghost coded = { coded_list D.code };

    ghost view = { λ inside. inside.states.items };
}

impl<D: NumDomain> Inv<D> {
    /// The sets of the vector, that of label 0 first. It takes no memory.
    pub fn of(states: Vec<D>) -> Inv<D>
        ensures { result ≡ states.items }
    {
        Inv { states }
    }

    /// The set at the label.
    pub fn at(&self, label: u32) -> &D
        requires { label < length self.now }
        ensures { slice_get self.now label ≡ Some result.now }
    {
        &self.states[label as usize]
    }
}

/// Sets that have each store with which their label is reached, whatever number stands at place 15. Each member of the set of a label that
/// lies behind one row meets the row. The error is want of memory.
pub fn invariants<D: NumDomain>(alloc: Global, graph: &Graph) -> Result<Inv<D>, AllocError>
    ensures members { IfOk result (λ inv. AreInvariants D.has (length graph.now.names) (statements graph.now.body) inv) }
    ensures behind { IfOk result (λ inv. (label : ℕ) → MeetsBehind D.has (statements graph.now.body) inv label) }
{
    let guesses: Vec<D> = guesses(alloc, graph)?;
    let mut states = inductive(alloc, graph, &guesses)?;
    meet_rows(alloc, graph, &mut states)?;
    Ok(Inv::of(states))
}
