//! Tables of aligned columns.
use std::alloc::{AllocError, Global};
use unicode_width::UnicodeWidthStr;

/// The number of columns of a table.
pub const COLUMNS: usize = 6;

/// The cells of a row.
pub type Cells = [String; COLUMNS];

/// The most columns of a terminal that cells are aligned to.
const ALIGNED_WIDTH: usize = 80;

/// Returns a line for the headings and one for each row, whose cells are aligned.
pub fn columns(
    alloc: Global,
    headings: &[&str; COLUMNS],
    rows: &[Cells],
) -> Result<String, AllocError> {
    let widths = widths(headings, rows);
    let mut out = String::new(alloc);
    push_line(&mut out, headings, &widths)?;
    for row in rows {
        let cells = row.each_ref().map(|cell| cell.as_str());
        push_line(&mut out, &cells, &widths)?;
    }
    Ok(out)
}

// Returns the width of each column.
fn widths(headings: &[&str; COLUMNS], rows: &[Cells]) -> [usize; COLUMNS] {
    let mut widths = headings.map(|heading| heading.width());
    for row in rows {
        widen(&mut widths, row);
    }
    widths
}

// Widens the columns that are too narrow for the cells.
fn widen(widths: &mut [usize; COLUMNS], row: &Cells) {
    for (width, cell) in widths.iter_mut().zip(row) {
        *width = cell.as_str().width().min(ALIGNED_WIDTH).max(*width);
    }
}

// Appends a line with these cells: each but the last fills its column, and two spaces follow it.
fn push_line(
    out: &mut String,
    cells: &[&str; COLUMNS],
    widths: &[usize; COLUMNS],
) -> Result<(), AllocError> {
    let mut gap = 0;
    for (cell, width) in cells.iter().zip(widths) {
        push_cell(out, gap, cell)?;
        gap = width.saturating_sub(cell.width()).saturating_add(2);
    }
    out.push('\n')
}

// Appends a cell after a gap of spaces.
fn push_cell(out: &mut String, gap: usize, cell: &str) -> Result<(), AllocError> {
    for _ in 0..gap {
        out.push(' ')?;
    }
    out.push_str(cell)
}
