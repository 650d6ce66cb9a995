//! What explains a report.

ghost use Rattle.std.specs.Prelude.{◌≡◌, IfOk};
ghost use Rattle.function_top.specs.Explained.{explained, explanation};

use crate::found::Found;
use report_text::{Counts, Explain};
use std::alloc::{AllocError, Global};

/// Where it is asked for, how many labels the program has, how many families were found, and how often each of so many advisers was asked. The
/// only error is want of memory.
pub(crate) fn explained(
    alloc: Global,
    asked: bool,
    labels: u32,
    found: &Found,
    advisers: usize,
) -> Result<Option<Explain>, AllocError>
    ensures { IfOk result (λ explain. explain ≡ explained asked (explanation labels found.now.families advisers found.now.turns)) }
{
    if !asked {
        return Ok(None);
    }
    let counts = vec![in alloc; u64::from(found.turns); advisers]?;
    Ok(Some(Explain {
        labels,
        families: found.families,
        asked: Counts::of(counts),
    }))
}
