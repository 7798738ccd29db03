// Where the places are found by their keys: a chain of places for each bucket, as many buckets as places.
// The first links are the buckets', each with the first place of its chain; behind them stand the places', each with the next one.
ghost use Rattle.std.specs.Prelude.{◌≡◌, ℕ, ◌-◌, ◌*◌, ◌<◌, ◌^◌, length, get_or, set, replicate, IfSome, IfNone, IfOk, true};
ghost use Rattle.std.specs.List.{count_by};
ghost use Rattle.hv_pool.specs.declared.slot.Slot.{Slot};
ghost use Rattle.hv_pool.specs.Slots.{under};
ghost use Rattle.hv_pool.specs.Index.{bucket_of, IsIndexed, IsIndexedBut};

use crate::{PageKey, Slot};
use std::alloc::{AllocError, Global};

// What the last link of a chain has.
const NO_PLACE: u32 = u32::MAX;

// What spreads the chunks over the buckets: 2^32 by the golden ratio.
const SPREAD: u64 = 2_654_435_761;

/// Empty chains for so many places.
pub fn empty_chains(alloc: Global, count: usize) -> Result<Vec<u32>, AllocError>
    requires { count < 2 ^ 32 }
    ensures { IfOk result (λ links. links.items ≡ replicate (2 * count) (2 ^ 32 - 1)) }
{
    vec![in alloc; NO_PLACE; 2 * count]
}

// The bucket of a key, of so many.
fn bucket_of(key: &PageKey, count: usize) -> usize
    requires { 0 < count }
    ensures { result ≡ bucket_of key.now count }
{
    let chunk = key.chunk;
    let page = key.page;
    ((u64::from(chunk) * SPREAD + u64::from(page)) % count as u64) as usize
}

/// The place that stands under the key.
pub fn find_under(slots: &[Slot], links: &[u32], key: &PageKey) -> Option<usize>
    requires { IsIndexed links.now slots.now }
    ensures found { IfSome result (λ n. (n < length slots.now) × ((d : Slot) → under key.now (get_or slots.now n d) ≡ true)) }
    ensures none { IfNone result (count_by (under key.now) slots.now ≡ 0) }
{
    if slots.is_empty() {
        return None;
    }
    find_in(slots, links, bucket_of(key, slots.len()), key)
}

// The place of the key's bucket that stands under the key.
fn find_in(slots: &[Slot], links: &[u32], bucket: usize, key: &PageKey) -> Option<usize>
    requires indexed { IsIndexed links.now slots.now }
    requires some { 0 < length slots.now }
    requires bucket { bucket ≡ bucket_of key.now (length slots.now) }
    ensures found { IfSome result (λ n. (n < length slots.now) × ((d : Slot) → under key.now (get_or slots.now n d) ≡ true)) }
    ensures none { IfNone result (count_by (under key.now) slots.now ≡ 0) }
{
    let mut at = bucket;
    for _passed in 0..slots.len() {
        let n = links[at] as usize;
        if n >= slots.len() {
            return None;
        }
        if slots[n].is_under(key) {
            return Some(n);
        }
        at = slots.len() + n;
    }
    None
}

// Takes a place out of the chain of a bucket.
fn unlink(links: &mut [u32], slots: &[Slot], bucket: usize, place: usize)
    requires indexed { IsIndexed links.old slots.now }
    requires within { place < length slots.now }
    requires bucket { (d : Slot) → bucket ≡ bucket_of (get_or slots.now place d).key (length slots.now) }
    ensures length { length links.new ≡ length links.old }
    ensures indexed { IsIndexedBut place links.new slots.now }
{
    let mut at = bucket;
    for _passed in 0..slots.len() {
        let n = links[at] as usize;
        if n >= slots.len() {
            return;
        }
        if n == place {
            links[at] = links[slots.len() + place];
            return;
        }
        at = slots.len() + n;
    }
}

// Puts a place that is in no chain at the head of a bucket's.
fn link(links: &mut [u32], slots: &[Slot], bucket: usize, place: usize)
    requires indexed { IsIndexedBut place links.old slots.now }
    requires within { (place < length slots.now) × (bucket < length slots.now) × (length slots.now < 2 ^ 32) }
    ensures length { length links.new ≡ length links.old }
    ensures indexed { (v : Slot) → bucket ≡ bucket_of v.key (length slots.now) → IsIndexed links.new (set slots.now place v) }
{
    links[slots.len() + place] = links[bucket];
    links[bucket] = place as u32;
}

/// A place gets a key.
pub fn reindex(links: &mut [u32], slots: &[Slot], n: usize, key: &PageKey)
    requires indexed { IsIndexed links.old slots.now }
    requires within { n < length slots.now }
    requires short { length slots.now < 2 ^ 32 }
    ensures length { length links.new ≡ length links.old }
    ensures indexed { (v : Slot) → v.key ≡ key.now → IsIndexed links.new (set slots.now n v) }
{
    let count = slots.len();
    unlink(links, slots, bucket_of(&slots[n].key, count), n);
    link(links, slots, bucket_of(key, count), n);
}
