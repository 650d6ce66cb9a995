//! The rows of bounds.
ghost use Rattle.std.specs.Prelude.{◌≡◌, ◌≢◌, ◌<◌, ◌/◌, ◌-ℤ◌, ◌++◌, ◌∷◌, [], length, OnOk, IfOk};
ghost use Rattle.num_domain.specs.Lines.{rows_of_lines};
ghost use Rattle.octagon_dom.specs.Octagons.{bound_line, is_listed, lines_at, rows_of_cells, signed_factor};

use crate::cells::{CELLS, SIGNED, at, least, turned};
use linear_cons::{Affine, Row, RowKind};
use num_domain::Bound;
use std::alloc::{AllocError, Global};

/// The sign of a signed place.
fn sign(i: usize) -> i128
    ensures { result ≡ signed_factor i (i / 2) }
{
    if i % 2 == 0 { 1 } else { -1 }
}

/// The coefficient in `j - i` of the place of `i`.
fn factor(i: usize, j: usize) -> i128
    requires { i ≢ j }
    ensures { result ≡ signed_factor j (i / 2) -ℤ signed_factor i (i / 2) }
{
    if i / 2 == j / 2 {
        2 * sign(j)
    } else {
        -sign(i)
    }
}

/// The function `c + j - i` of two signed places.
fn bound_line(i: usize, j: usize, c: i128) -> Affine
    requires row { i < 32 }
    requires column { j < 32 }
    requires apart { i ≢ j }
    ensures { result ≡ bound_line i j c }
{
    let mut affine = Affine::constant(c);
    affine.coef[j / 2] = sign(j);
    affine.coef[i / 2] = factor(i, j);
    affine
}

/// Of a cell and its twin, which bound the same sum, the earlier one is listed.
fn is_listed(i: usize, j: usize) -> bool
    requires row { i < 32 }
    requires column { j < 32 }
    ensures { result ≡ is_listed i j }
{
    i != j && SIGNED * i + j <= SIGNED * turned(j) + turned(i)
}

/// Adds the row of the smaller bound of a cell and its twin, if the cell is listed and there is one.
fn push_bound(
    rows: &mut Vec<Row>,
    cells: &[Bound<i128>],
    i: usize,
    j: usize,
) -> Result<(), AllocError>
    requires long { length cells.now ≡ 1024 }
    requires row { i < 32 }
    requires column { j < 32 }
    ensures { OnOk result (rows.new.items ≡ rows.old.items ++ rows_of_lines (lines_at cells.now i j)) }
{
    if !is_listed(i, j) {
        return Ok(());
    }
    match least(at(cells, i, j), at(cells, turned(j), turned(i))) {
        Bound::Without => Ok(()),
        Bound::At(c) => push_line(rows, bound_line(i, j, c)),
    }
}

/// Adds the row of a function.
fn push_line(rows: &mut Vec<Row>, line: Affine) -> Result<(), AllocError>
    ensures { OnOk result (rows.new.items ≡ rows.old.items ++ rows_of_lines (line ∷ [])) }
{
    if let RowKind::Row(row) = Row::of(line) {
        rows.push(row)?;
    }
    Ok(())
}

/// One row for each cell and its twin of which one is there.
pub(crate) fn rows_of(alloc: Global, cells: &[Bound<i128>]) -> Result<Vec<Row>, AllocError>
    requires { length cells.now ≡ 1024 }
    ensures { IfOk result (λ rows. rows.items ≡ rows_of_cells cells.now) }
{
    let mut rows = Vec::new(alloc);
    for k in 0..CELLS {
        push_bound(&mut rows, cells, k / SIGNED, k % SIGNED)?;
    }
    Ok(rows)
}
