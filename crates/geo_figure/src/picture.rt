//! The picture: 21 lines of 41 bytes.

ghost use Rattle.std.specs.Prelude.{◌≡◌, ◌∷◌, ◌++◌, [], List, OnOk};
ghost use Rattle.std.specs.List.{filter, flat_map};
ghost use Rattle.geo_figure.specs.Drawing.{first_numbers};
ghost use Rattle.geo_figure.specs.Inner.{IsMark, cell_line, cell_mark, is_cell};

use crate::cells::Cell;
use geo_points::NoMemory;

/// The byte of a place, where one more point stands.
fn mark_with(mark: Option<u8>, letter: u8) -> u8
    ensures { (cells : List Cell) (c : Cell) → IsMark mark cells → c.letter ≡ letter
        → result ≡ cell_mark (cells ++ c ∷ []) }
{
    match mark {
        None => letter,
        Some(_) => b'*',
    }
}

/// The byte of a place in the picture: `.` where no point stands, the letter where one does, and
/// `*` where several do.
fn mark_in(cells: &[Cell], column: u128, line: u128) -> u8
    ensures { result ≡ cell_mark (filter (is_cell column line) cells.now) }
{
    let mut found = None;
    for cell in cells {
        if cell.column == column && cell.line == line {
            found = Some(mark_with(found, cell.letter));
        }
    }
    found.unwrap_or(b'.')
}

/// Appends a line of the picture.
fn push_line(out: &mut Vec<u8>, cells: &[Cell], line: u128) -> Result<(), NoMemory>
    ensures { OnOk result (out.new.items ≡ out.old.items ++ cell_line cells.now line) }
{
    for column in 0..41 {
        out.push(mark_in(cells, column, line))?;
    }
    out.push(b'\n')?;
    Ok(())
}

/// Appends the picture.
pub fn push_picture(out: &mut Vec<u8>, cells: &[Cell]) -> Result<(), NoMemory>
    ensures { OnOk result (out.new.items
        ≡ out.old.items ++ flat_map (cell_line cells.now) (first_numbers 21)) }
{
    for line in 0..21 {
        push_line(out, cells, line)?;
    }
    Ok(())
}
