// A happy path for each public call, and a sink that takes little, fails in the middle or takes nothing.
ghost use Rattle.std.specs.Prelude.{◌≡◌, ◌++◌, codes, None, Some};
ghost use Rattle.hv_io.specs.Seen.{seen};
ghost use Rattle.hv_io.specs.Printing.{Prints};

use hv_io::{Failed, MemSink, MemSource, Printer, PutAll, Sink, Source, StdSink, StdSource, put};
use std::io;
use std::io::{ErrorKind, Read, Write};
use std::test::Fail;

// A sink that takes three bytes and then nothing.
#[derive(Drop)]
struct Once {
    taken: usize,
    zeros: u64,
}

impl Sink for Once {
    ghost taken = { λ _. None };

    ghost faults = { λ _. 0 };

    ghost zeros = { λ it. it.zeros };

    fn write(&mut self, piece: &[u8]) -> Result<usize, Failed> {
        if self.taken == 0 {
            self.taken = piece.len().min(3);
            return Ok(self.taken);
        }
        if !piece.is_empty() {
            self.zeros = self.zeros.saturating_add(1);
        }
        Ok(0)
    }
}

// A reader and a writer of std that always fail.
#[derive(Drop)]
struct Broken;

impl Read for Broken {
    fn read(&mut self, _: &mut [u8]) -> io::Result<usize> {
        Err(io::Error::from(ErrorKind::Other))
    }
}

impl Write for Broken {
    fn write(&mut self, _: &[u8]) -> io::Result<usize> {
        Err(io::Error::from(ErrorKind::Other))
    }

    fn flush(&mut self) -> io::Result<()> {
        Ok(())
    }
}

// A length of pieces, the write that fails, what `put` of "hello, world" answers, and what the sink has taken then.
const PUTS: [(usize, Option<u32>, Result<(), PutAll>, &str); 5] = [
    (1, None, Ok(()), "hello, world"),
    (10, None, Ok(()), "hello, world"),
    (10, Some(2), Err(PutAll::Failed), "hello, wor"),
    (10, Some(1), Err(PutAll::Failed), ""),
    (10, Some(3), Ok(()), "hello, world"),
];

#[test]
fn put_hands_all_over(rt: HostRuntime) {
    for (cut, fail, want, taken) in PUTS {
        let mut sink = MemSink::new(rt.alloc(), cut, fail);
        assert!(rt; put(&mut sink, b"hello, world") == want);
        assert!(rt; sink.bytes() == taken.as_bytes());
    }
}

#[test]
fn put_stops_at_a_write_of_nothing(rt: HostRuntime) {
    let mut sink = Once { taken: 0, zeros: 0 };
    assert!(rt; put(&mut sink, b"") == Ok(()));
    assert!(rt; put(&mut sink, b"four") == Err(PutAll::Zero));
    assert!(rt; sink.taken == 3 && sink.zeros == 1);
}

// A caller that prints, with the clause that its own callers chain.
fn put_pair<K: Sink>(printer: &mut Printer, out: &mut K, name: &[u8], value: &[u8])
    ensures { Prints (name.now ++ codes " = " ++ value.now ++ codes "\n") (seen K.Sink out.old) printer.old (seen K.Sink out.new) printer.new }
{
    printer.put(out, name);
    printer.put(out, b" = ");
    printer.put(out, value);
    printer.put(out, b"\n");
}

#[test]
fn a_caller_of_a_printer_prints(rt: HostRuntime) {
    let mut sink = MemSink::new(rt.alloc(), 5, None);
    let mut printer = Printer::new();
    put_pair(&mut printer, &mut sink, b"rows", b"12");
    put_pair(&mut printer, &mut sink, b"pages", b"3");
    assert!(rt; printer.finish(&mut sink).is_ok());
    assert!(rt; sink.bytes() == b"rows = 12\npages = 3\n".as_slice());
}

// Puts three parts, and says how many bytes the sink had taken before the end.
fn put_three(out: &mut MemSink, parts: [&[u8]; 3]) -> (usize, Result<(), PutAll>) {
    let mut printer = Printer::new();
    for part in parts {
        printer.put(out, part);
    }
    let before = out.bytes().len();
    (before, printer.finish(out))
}

#[test]
fn a_printer_keeps_the_order(rt: HostRuntime) {
    let mut sink = MemSink::new(rt.alloc(), 5000, None);
    let parts = [b"a".as_slice(), &[b'x'; 20000], b"z"];
    assert!(rt; put_three(&mut sink, parts) == (16384, Ok(())));
    let all = sink.into_vec();
    assert!(rt; all.len() == 20002);
    assert!(rt; all.first() == Some(&b'a') && all.last() == Some(&b'z'));
}

#[test]
fn a_printer_stops_at_a_fault(rt: HostRuntime) {
    let mut sink = MemSink::new(rt.alloc(), 10, Some(2));
    let parts = [b"hello, ".as_slice(), &[b'x'; 20000], b"lost"];
    assert!(rt; put_three(&mut sink, parts).1 == Err(PutAll::Failed));
    assert!(rt; sink.bytes() == b"hello, xxx".as_slice());
}

// What each read answers, and the piece afterwards.
const READS: [(Result<usize, Failed>, [u8; 4]); 5] = [
    (Ok(2), *b"ab\0\0"),
    (Err(Failed), *b"ab\0\0"),
    (Ok(2), *b"cd\0\0"),
    (Ok(1), *b"ed\0\0"),
    (Ok(0), *b"ed\0\0"),
];

// Whether the reads of a source answer so.
fn is_read_so<S: Source>(source: &mut S, want: &[(Result<usize, Failed>, [u8; 4])]) -> bool {
    let mut piece = [0; 4];
    for (answer, now) in want {
        if source.read(&mut piece) != *answer || piece != *now {
            return false;
        }
    }
    true
}

#[test]
fn a_source_gives_pieces(rt: HostRuntime) -> Result<(), Fail> {
    let mut source = MemSource::new(b"abcde".to_vec(rt.alloc())?, 2, Some(2));
    assert!(rt; is_read_so(&mut source, &READS));
    Ok(())
}

// A source that tells the bytes of a slice.
fn over<'a>(bytes: &'a [u8]) -> StdSource<&'a [u8]>
    ensures { ⟦<StdSource<&'a [u8]> as Source>⟧.left result ≡ Some bytes.now }
{
    StdSource::new(bytes)
}

// A sink that tells the bytes of a list.
fn behind<'a>(kept: &'a mut Vec<u8>) -> StdSink<&'a mut Vec<u8>>
    ensures { ⟦<StdSink<&'a mut Vec<u8>> as Sink>⟧.taken result ≡ Some kept.old.items }
{
    StdSink::new(kept)
}

#[test]
fn a_reader_is_a_source(rt: HostRuntime) {
    let want = [(Ok(4), *b"abcd"), (Ok(1), *b"ebcd"), (Ok(0), *b"ebcd")];
    assert!(rt; is_read_so(&mut over(b"abcde"), &want));
    assert!(rt; is_read_so(&mut StdSource::new(Broken), &[(Err(Failed), [0; 4])]));
}

#[test]
fn a_writer_is_a_sink(rt: HostRuntime) {
    let mut kept = Vec::new(rt.alloc());
    assert!(rt; put(&mut behind(&mut kept), b"abc").is_ok());
    assert!(rt; put(&mut behind(&mut kept), b"de").is_ok());
    assert!(rt; kept.as_slice() == b"abcde".as_slice());
    assert!(rt; put(&mut StdSink::new(Broken), b"abc") == Err(PutAll::Failed));
}
