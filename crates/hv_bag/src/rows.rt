// Whether two lists are one bag.
ghost use Rattle.std.specs.Prelude.{◌≡◌, ◌↔◌, IfOk, IsTrue, map};
ghost use Rattle.std.specs.List.Sorted.{IsPermutation, IsSorted};
ghost use Rattle.hv_bag.specs.Bag.{SameBag, TiesEqualsAlone};

use std::alloc::{AllocError, Global};
use std::cmp::Ordering;

/// True exactly where each value stands in both lists as often, in any order: the two are one multiset of rows, as ISO/IEC 9075
/// has it. The order of the type has to tell different values apart. It takes memory for a reference to each element.
pub fn same_rows<T: Ord>(alloc: Global, a: &[T], b: &[T]) -> Result<bool, AllocError>
    requires { TiesEqualsAlone T.cmp }
    ensures { IfOk result (λ same. IsTrue same ↔ SameBag a.now b.now) }
{
    let left = sorted_places(alloc, a)?;
    let right = sorted_places(alloc, b)?;
    Ok(left.as_slice().cmp(right.as_slice()) == Ordering::Equal)
}

// References to the elements, in the order of what they refer to.
fn sorted_places<'a, T: Ord>(alloc: Global, rows: &'a [T]) -> Result<Vec<&'a T>, AllocError>
    ensures permutation { IfOk result (λ v. IsPermutation rows.now (map (λ r. r.now) v.items)) }
    ensures sorted { IfOk result (λ v. IsSorted T.cmp (map (λ r. r.now) v.items)) }
{
    let mut places = Vec::new(alloc);
    for row in rows {
        places.push(row)?;
    }
    places.sort_unstable();
    Ok(places)
}
