// The words of the command line, with what they choose or the number of the first at fault.
use hv_dev::Order;
use hv_row::Bytes;
use hv_script::{Options, read_words};
use std::alloc::{AllocError, Global};
use std::test::Fail;

const CHOSEN: [(&[&str], Order); 10] = [
    (&["run"], Order::Fifo),
    (&["run", "order=fifo"], Order::Fifo),
    (&["run", "order=lifo"], Order::Lifo),
    (&["run", "order=seed:0"], Order::Seed(0)),
    (&["run", "order=seed:7"], Order::Seed(7)),
    (&["run", "order=seed:007"], Order::Seed(7)),
    (
        &["run", "order=seed:9223372036854775808"],
        Order::Seed(9223372036854775808),
    ),
    (
        &["run", "order=seed:18446744073709551614"],
        Order::Seed(18446744073709551614),
    ),
    (
        &["run", "order=seed:18446744073709551615"],
        Order::Seed(18446744073709551615),
    ),
    (
        &["run", "order=seed:000018446744073709551615"],
        Order::Seed(18446744073709551615),
    ),
];

const FAULTS: [(&[&str], u32); 38] = [
    (&[], 1),
    (&[""], 1),
    (&["RUN"], 1),
    (&["Run"], 1),
    (&["run "], 1),
    (&[" run"], 1),
    (&["ru"], 1),
    (&["order=fifo"], 1),
    (&["order=fifo", "run"], 1),
    (&["x", "y"], 1),
    (&["run", ""], 2),
    (&["run", "run"], 2),
    (&["run", "x=1"], 2),
    (&["run", "workers=4"], 2),
    (&["run", "order"], 2),
    (&["run", "order="], 2),
    (&["run", "=fifo"], 2),
    (&["run", "ORDER=fifo"], 2),
    (&["run", "Order=fifo"], 2),
    (&["run", "order =fifo"], 2),
    (&["run", "order= fifo"], 2),
    (&["run", "order=fifo "], 2),
    (&["run", "order=FIFO"], 2),
    (&["run", "order=fifolifo"], 2),
    (&["run", "order==fifo"], 2),
    (&["run", "order=random"], 2),
    (&["run", "order=seed"], 2),
    (&["run", "order=seed:"], 2),
    (&["run", "order=seed:+1"], 2),
    (&["run", "order=seed:-1"], 2),
    (&["run", "order=seed: 1"], 2),
    (&["run", "order=seed:1x"], 2),
    (&["run", "order=seed:0x1"], 2),
    (&["run", "order=seed:18446744073709551616"], 2),
    (&["run", "order=seed:99999999999999999999999999"], 2),
    (&["run", "order=fifo", "order=fifo"], 3),
    (&["run", "order=fifo", "order=seed:1", "x"], 3),
    (&["run", "order=lifo", "x=1", "order=lifo"], 3),
];

fn owned(alloc: Global, words: &[&str]) -> Result<Vec<Bytes>, AllocError> {
    let mut all = Vec::new(alloc);
    for word in words {
        all.push(Bytes::from_slice(alloc, word.as_bytes())?)?;
    }
    Ok(all)
}

#[test]
fn words_choose(rt: HostRuntime) -> Result<(), Fail> {
    for (words, order) in CHOSEN {
        let all = owned(rt.alloc(), words)?;
        assert!(rt;
            read_words(false, all.as_slice()) == Ok(Options { order }),
            "{words:?}"
        );
    }
    Ok(())
}

#[test]
fn the_first_word_at_fault_is_told(rt: HostRuntime) -> Result<(), Fail> {
    for (words, number) in FAULTS {
        let all = owned(rt.alloc(), words)?;
        assert!(rt;
            read_words(false, all.as_slice()) == Err(number),
            "{words:?}"
        );
    }
    Ok(())
}

#[test]
fn no_word_goes_with_serve_yet(rt: HostRuntime) -> Result<(), Fail> {
    for (words, _) in CHOSEN {
        let all = owned(rt.alloc(), words)?;
        assert!(rt; read_words(true, all.as_slice()) == Err(1), "{words:?}");
    }
    Ok(())
}
