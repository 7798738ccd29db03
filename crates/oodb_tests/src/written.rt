// Answers as text.
use hv_model::{Cell, OutRow, Refusal};
use hv_row::Bytes;
use std::alloc::Global;
use std::test::Fail;

/// The rows in lines, or `no row`.
pub fn rows_text(alloc: Global, rows: &[OutRow]) -> Result<String, Fail> {
    let mut text = String::new(alloc);
    if rows.is_empty() {
        text.push_str("no row")?;
    }
    let mut before = "";
    for row in rows {
        text.push_str(before)?;
        push_row(&mut text, row.as_slice())?;
        before = "\n";
    }
    Ok(text)
}

fn push_row(text: &mut String, row: &[Cell]) -> Result<(), Fail> {
    let mut before = "";
    for cell in row {
        text.push_str(before)?;
        push_cell(text, cell)?;
        before = "|";
    }
    Ok(())
}

fn push_cell(text: &mut String, cell: &Cell) -> Result<(), Fail> {
    match cell {
        Cell::Num(number) => {
            write!(text, "{number}")?;
            Ok(())
        }
        Cell::Txt(bytes) => push_quoted(text, bytes),
    }
}

// A text between single quotes, each quote in it twice.
fn push_quoted(text: &mut String, bytes: &Bytes) -> Result<(), Fail> {
    text.push_str("'")?;
    for letter in str::from_utf8(bytes.as_slice())?.chars() {
        match letter {
            '\'' => text.push_str("''")?,
            _ => text.push(letter)?,
        }
    }
    text.push_str("'")?;
    Ok(())
}

/// A refusal by its word, and its byte where it has one.
pub fn refusal_text(alloc: Global, refusal: Refusal) -> Result<String, Fail> {
    let mut text = String::new(alloc);
    match refusal {
        Refusal::Unbuilt => text.push_str("unbuilt")?,
        Refusal::EmptyAggregate => text.push_str("empty-aggregate")?,
        Refusal::Syntax { byte } => write!(text, "syntax {byte}")?,
        Refusal::NoTable { byte } => write!(text, "no-table {byte}")?,
        Refusal::TooManyPlaces { byte } => write!(text, "too-many-places {byte}")?,
        Refusal::DuplicateAlias { byte } => write!(text, "duplicate-alias {byte}")?,
        Refusal::NoColumn { byte } => write!(text, "no-column {byte}")?,
        Refusal::Ambiguous { byte } => write!(text, "ambiguous {byte}")?,
        Refusal::TypeMismatch { byte } => write!(text, "type-mismatch {byte}")?,
        Refusal::NotGrouped { byte } => write!(text, "not-grouped {byte}")?,
        Refusal::NoOutput { byte } => write!(text, "no-output {byte}")?,
        // A command's, which no select has.
        _ => write!(text, "{refusal:?}")?,
    }
    Ok(text)
}
