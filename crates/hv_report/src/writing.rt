// A report, written part by part. No call takes memory.
ghost use Rattle.std.specs.Prelude.{◌≡◌, ◌<◌, ◌++◌, ◌==◌, length, codes, decimal, position, Some, IfErr, IfSome, OnOk};
ghost use Rattle.std.specs.List.{All, flat_map};
ghost use Rattle.hv_io.specs.Seen.{seen};
ghost use Rattle.hv_io.specs.Printing.{Prints};
ghost use Rattle.hv_io.specs.Putting.{Stopped, TookAll};
ghost use Rattle.hv_model.specs.Report.{cell_text, detail_text, entries_text, entry_text, failure_text, history_text, quoted_byte, refusal_text, replies_text, reply_text, row_line, session_text, sessions_text};
ghost use Rattle.hv_report.specs.Law.{CellInRange, DetailInRange, EntryInRange, FailureInRange, InRange, Is64, RefusalInRange, ReplyInRange, RowInRange, SessionInRange, StatsInRange};
ghost use Rattle.hv_report.specs.Text.{names_of, replies_of, stats_text, text_of};

use crate::report::{Report, SessionReport, Stats};
use hv_io::{Printer, PutAll, Sink};
use hv_model::{Cell, Detail, Entry, Failure, OutRow, Refusal, Reply};
use itoa::{Buffer, Integer};

/// Writes a report to a sink, a few KiB at a time, up to the first write that fails or takes nothing.
pub fn write_report<K: Sink>(out: &mut K, report: &Report) -> Result<(), PutAll>
    ensures all { OnOk result (TookAll (seen K.Sink out.old) (text_of report.now) (seen K.Sink out.new)) }
    ensures part { IfErr result (λ cause. Stopped (seen K.Sink out.old) (text_of report.now) (seen K.Sink out.new) cause) }
    ensures in_range { InRange report.now }
{
    let mut printer = Printer::new();
    print_report(&mut printer, out, report);
    printer.finish(out)
}

fn print_report<K: Sink>(printer: &mut Printer, out: &mut K, report: &Report)
    ensures prints { Prints (text_of report.now) (seen K.Sink out.old) printer.old (seen K.Sink out.new) printer.new }
    ensures in_range { InRange report.now }
{
    print_sessions(printer, out, report.sessions.as_slice());
    print_history(printer, out, report.history.as_slice());
    if let Some(stats) = &report.stats {
        print_stats(printer, out, stats);
    }
}

// The sessions in order of naming.
fn print_sessions<K: Sink>(printer: &mut Printer, out: &mut K, sessions: &[SessionReport])
    ensures prints { Prints (sessions_text (names_of sessions.now) (replies_of sessions.now)) (seen K.Sink out.old) printer.old (seen K.Sink out.new) printer.new }
    ensures in_range { All SessionInRange sessions.now }
{
    for session in sessions {
        print_session(
            printer,
            out,
            session.name.as_slice(),
            session.replies.as_slice(),
        );
    }
}

// A session; nothing where it has no reply.
fn print_session<K: Sink>(printer: &mut Printer, out: &mut K, name: &[u8], replies: &[Reply])
    ensures prints { Prints (session_text name.now replies.now) (seen K.Sink out.old) printer.old (seen K.Sink out.new) printer.new }
    ensures count { Is64 (length replies.now) }
    ensures in_range { All ReplyInRange replies.now }
{
    if replies.is_empty() {
        return;
    }
    printer.put(out, b"session ");
    printer.put(out, name);
    printer.put(out, b"\n");
    print_replies(printer, out, replies);
}

// The replies of a session, numbered from 1.
fn print_replies<K: Sink>(printer: &mut Printer, out: &mut K, replies: &[Reply])
    ensures prints { Prints (replies_text 1 replies.now) (seen K.Sink out.old) printer.old (seen K.Sink out.new) printer.new }
    ensures in_range { All ReplyInRange replies.now }
{
    for (i, reply) in replies.iter().enumerate() {
        print_reply(printer, out, i + 1, reply);
    }
}

// The reply to the statement of this number.
fn print_reply<K: Sink>(printer: &mut Printer, out: &mut K, number: usize, reply: &Reply)
    ensures prints { Prints (reply_text number reply.now) (seen K.Sink out.old) printer.old (seen K.Sink out.new) printer.new }
    ensures in_range { ReplyInRange reply.now }
{
    match reply {
        Reply::Done { at, what } => {
            print_outcome(printer, out, number, b" ok @", *at);
            print_detail(printer, out, what);
            printer.put(out, b"\n");
        }
        Reply::Rows { at, rows } => {
            print_outcome(printer, out, number, b" rows @", *at);
            print_number(printer, out, rows.len());
            printer.put(out, b"\n");
            print_rows(printer, out, rows.as_slice());
        }
        Reply::Refused { at, cause } => {
            print_outcome(printer, out, number, b" refused @", *at);
            print_refusal(printer, out, *cause);
            printer.put(out, b"\n");
        }
        Reply::Failed { at, cause } => {
            print_outcome(printer, out, number, b" failed @", *at);
            print_failure(printer, out, *cause);
            printer.put(out, b"\n");
        }
    }
}

// What every reply begins with: the statement's number, a word between blanks, and a length of the history.
fn print_outcome<K: Sink>(printer: &mut Printer, out: &mut K, number: usize, word: &[u8], at: u32)
    ensures { Prints (decimal number ++ word.now ++ decimal at ++ codes " ") (seen K.Sink out.old) printer.old (seen K.Sink out.new) printer.new }
{
    print_number(printer, out, number);
    printer.put(out, word);
    print_number(printer, out, at);
    printer.put(out, b" ");
}

fn print_refusal<K: Sink>(printer: &mut Printer, out: &mut K, cause: Refusal)
    ensures prints { Prints (refusal_text cause) (seen K.Sink out.old) printer.old (seen K.Sink out.new) printer.new }
    ensures in_range { RefusalInRange cause }
{
    match cause {
        Refusal::Unbuilt => printer.put(out, b"unbuilt"),
        Refusal::Syntax { byte } => print_numbered(printer, out, b"syntax ", byte),
        Refusal::TooManyColumns => printer.put(out, b"too-many-columns"),
        Refusal::DuplicateColumn { column } => print_numbered(
            printer,
            out,
            b"duplicate-column ",
            column,
        ),
        Refusal::TableExists => printer.put(out, b"table-exists"),
        Refusal::TooManyTables => printer.put(out, b"too-many-tables"),
        Refusal::NoTable { byte } => print_numbered(printer, out, b"no-table ", byte),
        Refusal::BadRow { row, column } => {
            print_numbered(printer, out, b"bad-row ", row);
            print_numbered(printer, out, b" ", column);
        }
        Refusal::LongRow { row } => print_numbered(printer, out, b"long-row ", row),
        Refusal::TooManyChunks => printer.put(out, b"too-many-chunks"),
        Refusal::NoChunk { chunk } => print_numbered(printer, out, b"no-chunk ", chunk),
        Refusal::HistoryFull => printer.put(out, b"history-full"),
        Refusal::TooManyPlaces { byte } => print_numbered(printer, out, b"too-many-places ", byte),
        Refusal::DuplicateAlias { byte } => print_numbered(printer, out, b"duplicate-alias ", byte),
        Refusal::NoColumn { byte } => print_numbered(printer, out, b"no-column ", byte),
        Refusal::Ambiguous { byte } => print_numbered(printer, out, b"ambiguous ", byte),
        Refusal::TypeMismatch { byte } => print_numbered(printer, out, b"type-mismatch ", byte),
        Refusal::NotGrouped { byte } => print_numbered(printer, out, b"not-grouped ", byte),
        Refusal::NoOutput { byte } => print_numbered(printer, out, b"no-output ", byte),
        Refusal::EmptyAggregate => printer.put(out, b"empty-aggregate"),
    }
}

// A word and a number.
fn print_numbered<K: Sink, I: Integer>(printer: &mut Printer, out: &mut K, word: &[u8], number: I)
    ensures { Prints (word.now ++ I.text number) (seen K.Sink out.old) printer.old (seen K.Sink out.new) printer.new }
{
    printer.put(out, word);
    print_number(printer, out, number);
}

fn print_failure<K: Sink>(printer: &mut Printer, out: &mut K, cause: Failure)
    ensures prints { Prints (failure_text cause) (seen K.Sink out.old) printer.old (seen K.Sink out.new) printer.new }
    ensures in_range { FailureInRange cause }
{
    match cause {
        Failure::Read => printer.put(out, b"read"),
        Failure::Write => printer.put(out, b"write"),
        Failure::Damaged {
            chunk,
            page,
            why: _,
        } => {
            printer.put(out, b"damaged ");
            print_number(printer, out, chunk);
            printer.put(out, b" ");
            print_number(printer, out, page);
        }
        Failure::Memory => printer.put(out, b"memory"),
    }
}

fn print_rows<K: Sink>(printer: &mut Printer, out: &mut K, rows: &[OutRow])
    ensures prints { Prints (flat_map row_line rows.now) (seen K.Sink out.old) printer.old (seen K.Sink out.new) printer.new }
    ensures in_range { All RowInRange rows.now }
{
    for row in rows {
        print_row(printer, out, row.as_slice());
    }
}

// A row, with its line feed.
fn print_row<K: Sink>(printer: &mut Printer, out: &mut K, cells: &[Cell])
    ensures prints { Prints (row_line cells.now) (seen K.Sink out.old) printer.old (seen K.Sink out.new) printer.new }
    ensures in_range { RowInRange cells.now }
{
    if let Some((first, more)) = cells.split_first() {
        print_cell(printer, out, first);
        print_more_cells(printer, out, more);
    }
    printer.put(out, b"\n");
}

// Cells behind a first one.
fn print_more_cells<K: Sink>(printer: &mut Printer, out: &mut K, cells: &[Cell])
    ensures prints { Prints (flat_map (λ cell. codes "|" ++ cell_text cell) cells.now) (seen K.Sink out.old) printer.old (seen K.Sink out.new) printer.new }
    ensures in_range { All CellInRange cells.now }
{
    for cell in cells {
        printer.put(out, b"|");
        print_cell(printer, out, cell);
    }
}

fn print_cell<K: Sink>(printer: &mut Printer, out: &mut K, cell: &Cell)
    ensures prints { Prints (cell_text cell.now) (seen K.Sink out.old) printer.old (seen K.Sink out.new) printer.new }
    ensures in_range { CellInRange cell.now }
{
    match cell {
        Cell::Num(number) => print_number(printer, out, *number),
        Cell::Txt(text) => {
            printer.put(out, b"'");
            print_quoted(printer, out, text.as_slice());
            printer.put(out, b"'");
        }
    }
}

// A text whose quotes are written twice: each run up to a quote is put with it, and the quote again.
fn print_quoted<K: Sink>(printer: &mut Printer, out: &mut K, text: &[u8])
    ensures { Prints (flat_map quoted_byte text.now) (seen K.Sink out.old) printer.old (seen K.Sink out.new) printer.new }
{
    let mut rest = text;
    while let Some(at) = quote_place(rest) {
        let (run, behind) = rest.split_at(at + 1);
        printer.put(out, run);
        printer.put(out, b"'");
        rest = behind;
    }
    printer.put(out, rest);
}

// Where the first quote of a text is.
fn quote_place(text: &[u8]) -> Option<usize>
    ensures place { result ≡ position (λ byte. byte == 39) text.now }
    ensures within { IfSome result (λ at. at < length text.now) }
{
    text.iter().position(|byte| *byte == b'\'')
}

fn print_history<K: Sink>(printer: &mut Printer, out: &mut K, history: &[Entry])
    ensures prints { Prints (history_text history.now) (seen K.Sink out.old) printer.old (seen K.Sink out.new) printer.new }
    ensures count { Is64 (length history.now) }
    ensures in_range { All EntryInRange history.now }
{
    printer.put(out, b"history ");
    print_number(printer, out, history.len());
    printer.put(out, b"\n");
    print_entries(printer, out, history);
}

// The entries of a history, numbered from 1.
fn print_entries<K: Sink>(printer: &mut Printer, out: &mut K, history: &[Entry])
    ensures prints { Prints (entries_text 1 history.now) (seen K.Sink out.old) printer.old (seen K.Sink out.new) printer.new }
    ensures in_range { All EntryInRange history.now }
{
    for (i, entry) in history.iter().enumerate() {
        print_entry(printer, out, i + 1, entry);
    }
}

fn print_entry<K: Sink>(printer: &mut Printer, out: &mut K, place: usize, entry: &Entry)
    ensures prints { Prints (entry_text place entry.now) (seen K.Sink out.old) printer.old (seen K.Sink out.new) printer.new }
    ensures in_range { EntryInRange entry.now }
{
    print_number(printer, out, place);
    printer.put(out, b" ");
    printer.put(out, entry.session.as_slice());
    printer.put(out, b" ");
    print_number(printer, out, entry.number);
    printer.put(out, b" ");
    print_detail(printer, out, &entry.what);
    printer.put(out, b"\n");
}

// What an accepted command did.
fn print_detail<K: Sink>(printer: &mut Printer, out: &mut K, what: &Detail)
    ensures prints { Prints (detail_text what.now) (seen K.Sink out.old) printer.old (seen K.Sink out.new) printer.new }
    ensures in_range { DetailInRange what.now }
{
    match what {
        Detail::Create { table } => {
            printer.put(out, b"create ");
            printer.put(out, table.as_slice());
        }
        Detail::Import { table, chunk, rows } => {
            printer.put(out, b"import ");
            printer.put(out, table.as_slice());
            printer.put(out, b" chunk ");
            print_number(printer, out, *chunk);
            printer.put(out, b" rows ");
            print_number(printer, out, *rows);
        }
        Detail::Purge { table, chunk } => {
            printer.put(out, b"purge ");
            printer.put(out, table.as_slice());
            print_numbered(printer, out, b" chunk ", *chunk);
        }
    }
}

// The last line.
fn print_stats<K: Sink>(printer: &mut Printer, out: &mut K, stats: &Stats)
    ensures prints { Prints (stats_text (Some stats.now)) (seen K.Sink out.old) printer.old (seen K.Sink out.new) printer.new }
    ensures in_range { StatsInRange stats.now }
{
    let Stats {
        tasks,
        reads,
        submits,
    } = *stats;
    print_numbered(printer, out, b"stats tasks ", tasks);
    print_numbered(printer, out, b" reads ", reads);
    print_numbered(printer, out, b" submits ", submits);
    printer.put(out, b"\n");
}

// A number in decimal.
fn print_number<K: Sink, I: Integer>(printer: &mut Printer, out: &mut K, number: I)
    ensures { Prints (I.text number) (seen K.Sink out.old) printer.old (seen K.Sink out.new) printer.new }
{
    let mut buffer = Buffer::new();
    printer.put(out, buffer.format(number).as_bytes());
}
