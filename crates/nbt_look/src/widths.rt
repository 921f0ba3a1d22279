//! The widths of columns, and the cells that stand in them.
ghost use Rattle.std.specs.Prelude.{◌≡◌, ◌++◌, OnOk, string_bytes};
ghost use Rattle.nbt_look.specs.Columns.{at_left, at_right, columns_text, line_text, spaces, widened};

use nb_streams::NoMemory;
use std::marker::Model;

/// The widths of the columns before the phrase, in bytes.
#[derive(Clone, Copy)]
pub struct Widths {
    /// That of the number.
    pub number: usize,
    /// That of the time.
    pub time: usize,
    /// That of where a packet comes from.
    pub source: usize,
    /// That of where it goes.
    pub target: usize,
}

/// The texts of these columns, whose memory is used again.
#[derive(Drop)]
pub struct Cells {
    pub(crate) number: String,
    pub(crate) time: String,
    pub(crate) source: String,
    pub(crate) target: String,
}

impl Model for Cells {
    ghost use Rattle.std.specs.Prelude.{string_bytes};
    ghost use Rattle.nbt_look.specs.Columns.{CellTexts};

    ghost Value = { CellTexts };

    ghost view = { λ c. record {
      number = string_bytes c.number;
      time = string_bytes c.time;
      source = string_bytes c.source;
      target = string_bytes c.target;
    } };
}

impl Widths {
    /// Those once these cells stand in the columns too.
    pub fn widened(self, cells: &Cells) -> Widths
        ensures { result ≡ widened self cells.now }
    {
        Widths {
            number: self.number.max(cells.number.len()),
            time: self.time.max(cells.time.len()),
            source: self.source.max(cells.source.len()),
            target: self.target.max(cells.target.len()),
        }
    }
}

/// Adds so many spaces.
fn push_spaces(count: usize, text: &mut String) -> Result<(), NoMemory>
    ensures { OnOk result (string_bytes text.new ≡ string_bytes text.old ++ spaces count) }
{
    let mut left = count;
    'spaces: while 0 < left {
        text.push_str(" ")?;
        left -= 1;
    }
    Ok(())
}

/// Adds a cell at the right of a column of this width, and the space after the column.
fn push_right(width: usize, cell: &str, text: &mut String) -> Result<(), NoMemory>
    ensures { OnOk result
        (string_bytes text.new ≡ string_bytes text.old ++ at_right width cell.now) }
{
    push_spaces(width.saturating_sub(cell.len()), text)?;
    text.push_str(cell)?;
    text.push_str(" ")?;
    Ok(())
}

/// Adds a cell at the left of a column of this width, and the space after the column.
fn push_left(width: usize, cell: &str, text: &mut String) -> Result<(), NoMemory>
    ensures { OnOk result
        (string_bytes text.new ≡ string_bytes text.old ++ at_left width cell.now) }
{
    text.push_str(cell)?;
    push_spaces(width.saturating_sub(cell.len()), text)?;
    text.push_str(" ")?;
    Ok(())
}

/// Adds the columns of a line.
fn push_columns(widths: Widths, cells: &Cells, text: &mut String) -> Result<(), NoMemory>
    ensures { OnOk result
        (string_bytes text.new ≡ string_bytes text.old ++ columns_text widths cells.now) }
{
    push_right(widths.number, cells.number.as_str(), text)?;
    push_right(widths.time, cells.time.as_str(), text)?;
    push_left(widths.source, cells.source.as_str(), text)?;
    push_left(widths.target, cells.target.as_str(), text)
}

/// Adds a line: a colour or nothing, its columns, a phrase, and the end of the colour.
pub fn push_line(
    colour: &str,
    widths: Widths,
    cells: &Cells,
    phrase: &str,
    text: &mut String,
) -> Result<(), NoMemory>
    ensures { OnOk result (string_bytes text.new
        ≡ string_bytes text.old ++ line_text colour.now widths cells.now phrase.now) }
{
    text.push_str(colour)?;
    push_columns(widths, cells, text)?;
    text.push_str(phrase)?;
    text.push_str(if colour.is_empty() { "\n" } else { "\x1b[0m\n" })?;
    Ok(())
}
