// The words of the command line.
ghost use Rattle.std.specs.Prelude.{◌≡◌, codes};
ghost use Rattle.hv_row.specs.Schema.{same_name};
ghost use Rattle.hv_script.specs.Words.{number_of, order_of, unchosen, with_order, with_word, choose, options};

use hv_dev::Order;
use hv_model::is_number;
use hv_row::Bytes;

/// What the words of the command line choose.
#[derive(Debug, Clone, Copy, PartialEq, Eq)]
pub struct Options {
    /// In which order a device in memory lets reads land.
    pub order: Order,
}

// What the words that were read choose, and which keys they have.
#[derive(Clone, Copy)]
struct Chosen {
    options: Options,
    has_order: bool,
}

// The value of one decimal digit or more that is below 2^64.
fn number_of(digits: &[u8]) -> Option<u64>
    ensures { result ≡ number_of digits.now }
{
    if !is_number(digits) {
        return None;
    }
    let Ok(text) = str::from_utf8(digits) else {
        return None;
    };
    text.parse().ok()
}

// `fifo`, `lifo` or `seed:N`.
fn order_of(value: &[u8]) -> Option<Order>
    ensures { result ≡ order_of value.now }
{
    if value == b"fifo".as_slice() {
        return Some(Order::Fifo);
    }
    if value == b"lifo".as_slice() {
        return Some(Order::Lifo);
    }
    let seed = number_of(value.strip_prefix(b"seed:".as_slice())?)?;
    Some(Order::Seed(seed))
}

// With this value of `order`, which may be given once.
fn with_order(chosen: Chosen, value: &[u8]) -> Option<Chosen>
    ensures { result ≡ with_order chosen value.now }
{
    if chosen.has_order {
        return None;
    }
    let order = order_of(value)?;
    Some(Chosen {
        options: Options { order },
        has_order: true,
    })
}

// With one word more, if it is one.
fn with_word(chosen: Chosen, word: &[u8]) -> Option<Chosen>
    ensures { result ≡ with_word chosen word.now }
{
    with_order(chosen, word.strip_prefix(b"order=".as_slice())?)
}

// What the words behind the first choose, or the number of the first of them at fault.
fn read_others(words: &[Bytes]) -> Result<Options, u32>
    ensures { result ≡ choose 2 unchosen words.now }
{
    let mut number = 2;
    let mut chosen = Chosen {
        options: Options { order: Order::Fifo },
        has_order: false,
    };
    for word in words {
        let Some(more) = with_word(chosen, word.as_slice()) else {
            return Err(number);
        };
        chosen = more;
        number += 1;
    }
    Ok(chosen.options)
}

/// What the words choose, read for `serve` or for `run`; `Err` is the number of the first word at fault, counted from 1.
/// Of no word at all the first is at fault. Takes no memory.
pub fn read_words(serve: bool, words: &[Bytes]) -> Result<Options, u32>
    ensures { result ≡ options serve words.now }
{
    if serve {
        return Err(1);
    }
    match words {
        [word, others @ ..] if is_run(word) => read_others(others),
        _ => Err(1),
    }
}

fn is_run(word: &Bytes) -> bool
    ensures { result ≡ same_name word.now (codes "run") }
{
    word.as_slice() == b"run".as_slice()
}
