// The lines that a run writes in place of a report.
ghost use Rattle.std.specs.Prelude.{◌≡◌};
ghost use Rattle.hv_io.specs.Seen.{seen};
ghost use Rattle.hv_io.specs.Printing.{Prints};
ghost use Rattle.oodb.specs.Lines.{fault_name, word_line, fault_line, Written};

use hv_io::{Printer, PutAll, Sink};
use hv_model::{FaultName, ScriptFault};
use itoa::Buffer;

fn fault_name(name: FaultName) -> &'static [u8]
    ensures { result.now ≡ fault_name name }
{
    match name {
        FaultName::TooLong => b"too-long",
        FaultName::NotUtf8 => b"not-utf8",
        FaultName::Unended => b"unended",
        FaultName::LongImport => b"long-import",
        FaultName::ShortImport => b"short-import",
        FaultName::TooManySessions => b"too-many-sessions",
        FaultName::TooManyStatements => b"too-many-statements",
    }
}

fn print_word<K: Sink>(printer: &mut Printer, out: &mut K, word: u32)
    ensures { Prints (word_line word) (seen K.Sink out.old) printer.old (seen K.Sink out.new) printer.new }
{
    let mut digits = Buffer::new();
    printer.put(out, b"fault word ");
    printer.put(out, digits.format(word).as_bytes());
    printer.put(out, b"\n");
}

fn print_fault<K: Sink>(printer: &mut Printer, out: &mut K, fault: ScriptFault)
    ensures { Prints (fault_line fault.name fault.byte) (seen K.Sink out.old) printer.old (seen K.Sink out.new) printer.new }
{
    let mut digits = Buffer::new();
    printer.put(out, b"fault ");
    printer.put(out, fault_name(fault.name));
    printer.put(out, b" ");
    printer.put(out, digits.format(fault.byte).as_bytes());
    printer.put(out, b"\n");
}

/// Writes which word is at fault, counted from 1. Takes no memory.
pub fn put_word_line<K: Sink>(out: &mut K, word: u32) -> Result<(), PutAll>
    ensures { Written result (seen K.Sink out.old) (word_line word) (seen K.Sink out.new) }
{
    let mut printer = Printer::new();
    print_word(&mut printer, out, word);
    printer.finish(out)
}

/// Writes which fault the script has, and at which byte. Takes no memory.
pub fn put_fault_line<K: Sink>(out: &mut K, fault: ScriptFault) -> Result<(), PutAll>
    ensures { Written result (seen K.Sink out.old) (fault_line fault.name fault.byte) (seen K.Sink out.new) }
{
    let mut printer = Printer::new();
    print_fault(&mut printer, out, fault);
    printer.finish(out)
}
