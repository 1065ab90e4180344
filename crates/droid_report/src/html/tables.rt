//! The body of a page of tables as text: title, tables, heads, rows, cells.
//!
//! What each call writes is defined in `specs/TableTrees.antt`, by the tree of elements whose text it is. Texts are
//! escaped. An error is the writer's: then only a part is written.

ghost use Rattle.std.specs.Prelude.{◌≡◌, Some, flat_map};
ghost use Rattle.std.specs.Fmt.{WritesOnOk};
ghost use Rattle.droid_report.specs.TableTrees.{body_text, cell_text, head_text, link_text, row_text, rows_text};
ghost use Rattle.droid_report.specs.TableTrees.{table_text};

use crate::html::page_text::Escaped;
use std::fmt;
use std::fmt::{Display, Formatter, Write};

/// A cell of a table.
#[derive(Drop)]
pub enum Cell {
    /// A text.
    Text(String),
    /// A text that leads elsewhere when it is clicked.
    Link {
        /// Where it leads.
        target: String,
        /// What is shown.
        text: String,
    },
    /// A number.
    Number(u64),
    /// A bar, in thousandths of the longest.
    Bar(u64),
}

/// A table.
#[derive(Drop)]
pub struct Table {
    /// Its title.
    pub title: String,
    /// A line below its title, such as how many rows are not shown; may be empty.
    pub note: String,
    /// The names of its columns.
    pub heads: Vec<String>,
    /// Its rows.
    pub rows: Vec<Vec<Cell>>,
}

/// What stands in the body of a page of tables.
#[derive(Clone, Copy)]
pub struct Body<'a> {
    /// The title.
    pub title: &'a str,
    /// What the page is about.
    pub about: &'a str,
    /// The tables.
    pub tables: &'a [Table],
}

impl Display for Body<'_> {
    ghost output = { λ body. Some (body_text body.title.now body.about.now body.tables.now) };

    /// Writes the title, what the page is about, and then the tables.
    #[tactic(auto, unfolding(crate::specs::TableTrees::body_text))]
    fn fmt<W: Write>(&self, f: &mut Formatter<W>) -> fmt::Result {
        write!(
            f,
            "<main><h1>{}</h1><p>{}</p>{}</main>",
            Escaped(self.title),
            Escaped(self.about),
            Tables(self.tables)
        )
    }
}

/// Tables, one after the other.
#[derive(Clone, Copy)]
struct Tables<'a>(&'a [Table]);

impl Display for Tables<'_> {
    ghost output = { λ it. Some (flat_map table_text it.0.now) };

    /// Prints by [`write_tables`], which has the loop.
    fn fmt<W: Write>(&self, f: &mut Formatter<W>) -> fmt::Result {
        write_tables(f, self.0)
    }
}

/// Writes the tables, one behind the other, with nothing between them.
fn write_tables<W: Write>(f: &mut Formatter<W>, tables: &[Table]) -> fmt::Result
    ensures { WritesOnOk W.write_str_gives f.old result (flat_map table_text tables.now) f.new }
{
    for table in tables {
        write!(f, "{table}")?;
    }
    Ok(())
}

impl Display for Table {
    ghost output = { λ table. Some (table_text table) };

    /// Writes a section with the title, the note and the table. [`Rows`] ends what is begun here.
    #[tactic(auto, unfolding(crate::specs::TableTrees::table_text))]
    fn fmt<W: Write>(&self, f: &mut Formatter<W>) -> fmt::Result {
        let title = Escaped(self.title.as_str());
        let note = Escaped(self.note.as_str());
        let heads = Heads(self.heads.as_slice());
        let rows = Rows(self.rows.as_slice());
        write!(
            f,
            "<section><h2>{title}</h2><p>{note}</p><table><thead><tr>{heads}{rows}"
        )
    }
}

/// The names of columns.
#[derive(Clone, Copy)]
struct Heads<'a>(&'a [String]);

impl Display for Heads<'_> {
    ghost output = { λ it. Some (flat_map head_text it.0.now) };

    /// Prints by [`write_heads`], which has the loop.
    fn fmt<W: Write>(&self, f: &mut Formatter<W>) -> fmt::Result {
        write_heads(f, self.0)
    }
}

/// Writes the heads of a table's columns, from left to right.
fn write_heads<W: Write>(f: &mut Formatter<W>, heads: &[String]) -> fmt::Result
    ensures { WritesOnOk W.write_str_gives f.old result (flat_map head_text heads.now) f.new }
{
    for head in heads {
        write_head(f, head)?;
    }
    Ok(())
}

/// Writes the head of a column: its name as a cell `th`.
#[tactic(auto, unfolding(crate::specs::TableTrees::head_text))]
fn write_head<W: Write>(f: &mut Formatter<W>, head: &String) -> fmt::Result
    ensures { WritesOnOk W.write_str_gives f.old result (head_text head.now) f.new }
{
    write!(f, "<th scope=\"col\">{}</th>", Escaped(head.as_str()))
}

/// The rows of a table, and the ends of what stands around them.
#[derive(Clone, Copy)]
struct Rows<'a>(&'a [Vec<Cell>]);

impl Display for Rows<'_> {
    ghost output = { λ it. Some (rows_text it.0.now) };

    /// Ends the row of heads that [`Table`] began, writes the rows, and ends the table and its section.
    #[tactic(auto, unfolding(crate::specs::TableTrees::rows_text))]
    fn fmt<W: Write>(&self, f: &mut Formatter<W>) -> fmt::Result {
        write!(
            f,
            "</tr></thead><tbody>{}</tbody></table></section>",
            EachRow(self.0)
        )
    }
}

/// Rows, one after the other.
#[derive(Clone, Copy)]
struct EachRow<'a>(&'a [Vec<Cell>]);

impl Display for EachRow<'_> {
    ghost output = { λ it. Some (flat_map row_text it.0.now) };

    /// Prints by [`write_rows`], which has the loop.
    fn fmt<W: Write>(&self, f: &mut Formatter<W>) -> fmt::Result {
        write_rows(f, self.0)
    }
}

/// Writes the rows of a table, from the top.
fn write_rows<W: Write>(f: &mut Formatter<W>, rows: &[Vec<Cell>]) -> fmt::Result
    ensures { WritesOnOk W.write_str_gives f.old result (flat_map row_text rows.now) f.new }
{
    for row in rows {
        write_row(f, row)?;
    }
    Ok(())
}

/// Writes a row of a table: its cells in a `tr`.
#[tactic(auto, unfolding(crate::specs::TableTrees::row_text))]
fn write_row<W: Write>(f: &mut Formatter<W>, row: &Vec<Cell>) -> fmt::Result
    ensures { WritesOnOk W.write_str_gives f.old result (row_text row.now) f.new }
{
    write!(f, "<tr>{}</tr>", Cells(row.as_slice()))
}

/// The cells of a row.
#[derive(Clone, Copy)]
struct Cells<'a>(&'a [Cell]);

impl Display for Cells<'_> {
    ghost output = { λ it. Some (flat_map cell_text it.0.now) };

    /// Prints by [`write_cells`], which has the loop.
    fn fmt<W: Write>(&self, f: &mut Formatter<W>) -> fmt::Result {
        write_cells(f, self.0)
    }
}

/// Writes the cells of a row, from left to right.
fn write_cells<W: Write>(f: &mut Formatter<W>, cells: &[Cell]) -> fmt::Result
    ensures { WritesOnOk W.write_str_gives f.old result (flat_map cell_text cells.now) f.new }
{
    for cell in cells {
        write!(f, "{cell}")?;
    }
    Ok(())
}

impl Display for Cell {
    ghost output = { λ cell. Some (cell_text cell) };

    /// Writes a cell by its kind. A bar is a picture that is 1,000 wide, of which it fills its thousandths, and as high
    /// as the bar; its number stands in the cell before it. `bar` of `specs/TableTrees.antt` has the same text. Nothing
    /// but this line ties its 1000 to that of `share_of` (`view/cells.rt`), and its 20 to the other.
    #[tactic(auto, unfolding(crate::specs::TableTrees::cell_text, crate::specs::TableTrees::link_text))]
    fn fmt<W: Write>(&self, f: &mut Formatter<W>) -> fmt::Result {
        match self {
            Cell::Text(text) => write!(f, "<td><bdi>{}</bdi></td>", Escaped(text.as_str())),
            Cell::Link { target, text } => write_link(f, target.as_str(), text.as_str()),
            Cell::Number(number) => write!(f, "<td class=\"n\">{number}</td>"),
            Cell::Bar(share) => write!(
                f,
                "<td class=\"b\"><svg viewbox=\"0 0 1000 20\" preserveaspectratio=\"none\" \
                aria-hidden=\"true\"><rect width=\"{share}\" height=\"20\"></rect></svg></td>"
            ),
        }
    }
}

/// Writes a cell with a link: `text` is shown, `target` is where it leads. The browser does not tell it where from.
#[tactic(auto, unfolding(crate::specs::TableTrees::link_text))]
fn write_link<W: Write>(f: &mut Formatter<W>, target: &str, text: &str) -> fmt::Result
    ensures { WritesOnOk W.write_str_gives f.old result (link_text target.now text.now) f.new }
{
    write!(
        f,
        "<td><a href=\"{}\" rel=\"noreferrer\">{}</a></td>",
        Escaped(target),
        Escaped(text)
    )
}
