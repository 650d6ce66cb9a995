//! Lists of lines.
ghost use Rattle.std.specs.Prelude.{◌≡◌, IfOk};

use crate::line::Line;
use line_text::Claim;
use std::alloc::{AllocError, Global};
use std::marker::Model;

/// A list of lines; contracts see it as the list.
#[derive(Drop)]
pub struct Lines {
    lines: Vec<Line>,
}

impl Model for Lines {
    ghost use Rattle.std.specs.Prelude.{List};
    ghost use Rattle.report_text.specs.declared.line.Line.{Line};

    ghost Value = { List Line };

    ghost view = { λ inside. inside.lines.items };
}

impl Lines {
    ghost use Rattle.report_text.specs.Leaves.{claiming, claiming_nothing, is_unknown};

    /// The list of the vector's lines. It takes no memory.
    pub fn of(lines: Vec<Line>) -> Lines
        ensures { result ≡ lines.items }
    {
        Lines { lines }
    }

    /// The lines as a slice.
    pub fn items(&self) -> &[Line]
        ensures { result.now ≡ self.now }
    {
        &self.lines
    }

    /// The lines that claim something, and those that claim nothing, each in their order. The only error
    /// is want of memory.
    pub fn parted(self, alloc: Global) -> Result<(Lines, Lines), AllocError>
        ensures claiming { IfOk result (λ parts. parts.0 ≡ claiming self) }
        ensures nothing { IfOk result (λ parts. parts.1 ≡ claiming_nothing self) }
    {
        let Lines { mut lines } = self;
        let mut claimed = Vec::new(alloc);
        let mut unknown = Vec::new(alloc);
        lines.reverse();
        while let Some(line) = lines.pop() {
            if Lines::is_unknown(&line.claim) {
                unknown.push(line)?;
            } else {
                claimed.push(line)?;
            }
        }
        Ok((Lines::of(claimed), Lines::of(unknown)))
    }

    /// True exactly where nothing is claimed.
    fn is_unknown(claim: &Claim) -> bool
        ensures { result ≡ is_unknown claim.now }
    {
        matches!(claim, Claim::Unknown)
    }
}
