//! Pictures of what stands reserved.

ghost use Rattle.std.specs.Prelude.{◌≡◌, ◌<◌, ◌≤◌, ◌^◌, ◌++◌, OnOk, All, codes, decimal, length, map, min};
ghost use Rattle.std.specs.List.{flat_map, range_with_len};
ghost use Rattle.hz_why_model.specs.Pictures.{line_limit, spaces, at_left, at_right, longest, layout_of, picture_line, cut_line};
ghost use Rattle.hz_explain.specs.Drawing.{layout_in, cell_text, cells, names_of, row_text, rows_text, picture_text};

use hz_grid::NoMemory;
use itoa::Buffer;

/// The columns of a line, at most.
pub(crate) const LINE: usize = 80;

/// The columns of a name, at most.
const NAME: usize = 32;

/// A row of a picture: a name, and in each cycle the line of the issue that holds it.
#[derive(Drop)]
pub(crate) struct Row<'a> {
    pub name: &'a [u8],
    pub lines: Vec<Option<u32>>,
}

/// How a picture is laid out: the columns of names, those of a cycle, and how many cycles are shown.
#[derive(Clone, Copy)]
pub(crate) struct Layout {
    pub name: usize,
    pub cycle: usize,
    pub shown: usize,
}

/// Adds bytes.
pub(crate) fn add(text: &mut Vec<u8>, bytes: &[u8]) -> Result<(), NoMemory>
    ensures { OnOk result (text.new.items ≡ text.old.items ++ bytes.now) }
{
    text.extend_from_slice(bytes)?;
    Ok(())
}

/// Adds a number.
pub(crate) fn add_number(text: &mut Vec<u8>, number: u32) -> Result<(), NoMemory>
    ensures { OnOk result (text.new.items ≡ text.old.items ++ decimal number) }
{
    add(text, Buffer::new().format(number).as_bytes())
}

/// Adds so many spaces.
fn add_spaces(text: &mut Vec<u8>, count: usize) -> Result<(), NoMemory>
    ensures { OnOk result (text.new.items ≡ text.old.items ++ spaces count) }
{
    for _space in 0..count {
        text.push(b' ')?;
    }
    Ok(())
}

/// Adds bytes at the left of so many columns: the first of those that are more.
fn add_left(text: &mut Vec<u8>, columns: usize, bytes: &[u8]) -> Result<(), NoMemory>
    ensures { OnOk result (text.new.items ≡ text.old.items ++ at_left columns bytes.now) }
{
    if bytes.len() > columns {
        return add(text, &bytes[..columns]);
    }
    add(text, bytes)?;
    add_spaces(text, columns - bytes.len())
}

/// Adds bytes at the right of so many columns: the last of those that are more.
fn add_right(text: &mut Vec<u8>, columns: usize, bytes: &[u8]) -> Result<(), NoMemory>
    ensures { OnOk result (text.new.items ≡ text.old.items ++ at_right columns bytes.now) }
{
    if bytes.len() > columns {
        return add(text, &bytes[bytes.len() - columns..]);
    }
    add_spaces(text, columns - bytes.len())?;
    add(text, bytes)
}

/// Adds a space, and a number at the right of so many columns.
fn add_number_cell(text: &mut Vec<u8>, columns: usize, number: u32) -> Result<(), NoMemory>
    ensures { OnOk result (text.new.items ≡ text.old.items ++ (spaces 1 ++ at_right columns (decimal number))) }
{
    add(text, b" ")?;
    add_right(text, columns, Buffer::new().format(number).as_bytes())
}

/// Adds a space, and a cell of so many columns.
fn add_cell(text: &mut Vec<u8>, columns: usize, line: Option<u32>) -> Result<(), NoMemory>
    ensures { OnOk result (text.new.items ≡ text.old.items ++ (spaces 1 ++ at_right columns (cell_text line))) }
{
    match line {
        Some(line) => add_number_cell(text, columns, line),
        None => {
            add(text, b" ")?;
            add_right(text, columns, b".")
        }
    }
}

/// Adds the cells of lines, each of so many columns.
fn add_cells(text: &mut Vec<u8>, columns: usize, lines: &[Option<u32>]) -> Result<(), NoMemory>
    ensures { OnOk result (text.new.items ≡ text.old.items ++ cells columns (map cell_text lines.now)) }
{
    for line in lines {
        add_cell(text, columns, *line)?;
    }
    Ok(())
}

/// Adds the cells of so many cycles' numbers, each of so many columns.
fn add_cycles(text: &mut Vec<u8>, columns: usize, cycles: u32) -> Result<(), NoMemory>
    ensures { OnOk result (text.new.items ≡ text.old.items ++ cells columns (map decimal (range_with_len 0 cycles))) }
{
    for cycle in 0..cycles {
        add_number_cell(text, columns, cycle)?;
    }
    Ok(())
}

/// Adds the line that numbers the cycles.
fn add_heading(text: &mut Vec<u8>, layout: Layout) -> Result<(), NoMemory>
    requires { layout.shown < 2 ^ 32 }
    ensures { OnOk result (text.new.items ≡ text.old.items ++ picture_line (layout_in layout) (codes "cycle") (map decimal (range_with_len 0 layout.shown))) }
{
    add_left(text, layout.name, b"cycle")?;
    add(text, b"  ")?;
    add_cycles(text, layout.cycle, layout.shown as u32)?;
    add(text, b"\n")
}

/// Adds a row.
fn add_row(text: &mut Vec<u8>, layout: Layout, row: &Row<'_>) -> Result<(), NoMemory>
    requires { layout.shown ≤ length row.now.lines.items }
    ensures { OnOk result (text.new.items ≡ text.old.items ++ row_text (layout_in layout) row.now) }
{
    add_left(text, layout.name, row.name)?;
    add(text, b"  ")?;
    add_cells(text, layout.cycle, &row.lines[..layout.shown])?;
    add(text, b"\n")
}

/// Adds rows.
fn add_rows(text: &mut Vec<u8>, layout: Layout, rows: &[Row<'_>]) -> Result<(), NoMemory>
    requires { All (λ row. layout.shown ≤ length row.lines.items) rows.now }
    ensures { OnOk result (text.new.items ≡ text.old.items ++ flat_map (row_text (layout_in layout)) rows.now) }
{
    for row in rows {
        add_row(text, layout, row)?;
    }
    Ok(())
}

/// Adds the line that says where a picture of so many cycles is cut, if it is.
fn add_cut(text: &mut Vec<u8>, layout: Layout, cycles: usize) -> Result<(), NoMemory>
    requires { layout.shown < 2 ^ 32 }
    ensures { OnOk result (text.new.items ≡ text.old.items ++ cut_line (layout_in layout) cycles) }
{
    if layout.shown >= cycles {
        return Ok(());
    }
    add(text, b"cut after cycle ")?;
    add_number(text, layout.shown.saturating_sub(1) as u32)?;
    add(text, b"\n")
}

/// The length of the longest name.
fn longest_name(rows: &[Row<'_>]) -> usize
    ensures { result ≡ longest (names_of rows.now) }
{
    let mut most = 0;
    for row in rows {
        most = most.max(row.name.len());
    }
    most
}

/// The layout of rows, for so many cycles and texts of at most this length.
fn laid_out(rows: &[Row<'_>], cycles: usize, longest_text: usize) -> Layout
    requires { 0 < cycles }
    ensures { layout_in result ≡ layout_of (names_of rows.now) cycles longest_text }
{
    let name = NAME.min(5.max(longest_name(rows)));
    let room = LINE - (name + 2);
    let cycle = 1.max(longest_text.min((room / cycles).saturating_sub(1)));
    let shown = cycles.min(room / (cycle + 1));
    Layout { name, cycle, shown }
}

/// Adds rows in their layout, below the numbers of the cycles, of which there are so many.
fn add_laid_out(
    text: &mut Vec<u8>,
    layout: Layout,
    rows: &[Row<'_>],
    cycles: usize,
) -> Result<(), NoMemory>
    requires few { layout.shown < 2 ^ 32 }
    requires wide { All (λ row. layout.shown ≤ length row.lines.items) rows.now }
    ensures { OnOk result (text.new.items ≡ text.old.items ++ rows_text (layout_in layout) cycles rows.now) }
{
    add_heading(text, layout)?;
    add_rows(text, layout, rows)?;
    add_cut(text, layout, cycles)
}

/// Adds the picture of rows, for so many cycles and texts of at most this length. Each row has as many cycles as are shown.
#[tactic(auto, using(crate::proofs::DrawLaws::picture_some))]
pub(crate) fn add_picture(
    text: &mut Vec<u8>,
    rows: &[Row<'_>],
    cycles: usize,
    longest_text: usize,
) -> Result<(), NoMemory>
    requires some { 0 < cycles }
    requires few { cycles < 2 ^ 32 }
    requires wide { All (λ row. min cycles line_limit ≤ length row.lines.items) rows.now }
    ensures { OnOk result (text.new.items ≡ text.old.items ++ picture_text cycles longest_text rows.now) }
{
    if rows.is_empty() {
        return Ok(());
    }
    let layout = laid_out(rows, cycles, longest_text);
    add_laid_out(text, layout, rows, cycles)
}
