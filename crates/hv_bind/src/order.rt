// Order keys.
ghost use Rattle.std.specs.Prelude.{◌≡◌, ◌-◌, ◌&&◌, nat_le, Some, None, map, IfOk, IfErr, if◌then◌else◌};
ghost use Rattle.hv_model.specs.Bound as spec;
ghost use Rattle.hv_bind.specs.Cause.{IsFirstRefusal};
ghost use Rattle.hv_bind.specs.Keys.{key_refusal, keys_refusal};

use crate::binding::BindFault;
use crate::grouping::same_column;
use crate::scope::Scope;
use hv_model::{ColRef, Item, KeyAst, KeyBy, Refusal, SortKey, SortKeys};
use hv_row::Listed;
use std::alloc::Global;

/// Whether an item is this column.
fn is_item(column: ColRef, item: &Item) -> bool
    ensures { result ≡ spec.is_item column item.now }
{
    match item {
        Item::Col(other) => same_column(column, *other),
        _ => false,
    }
}

/// The number of the first item that is this column.
fn item_number(items: &[Item], column: ColRef) -> Option<usize>
    ensures { result ≡ spec.item_number items.now column }
{
    items.iter().position(|item| is_item(column, item))
}

/// The number, from 0, of the item of a written number among `count` items; written numbers count from 1.
fn written_item(number: u64, count: usize) -> Option<usize>
    ensures { result ≡ (if nat_le 1 number && nat_le number count then Some (number - 1) else None) }
{
    if number >= 1 && number <= count as u64 {
        Some((number - 1) as usize)
    } else {
        None
    }
}

impl Scope<'_> {
    /// The number, from 0, of the item that an order key names.
    fn key_item(&self, items: &[Item], by: &KeyBy) -> Option<usize>
        ensures { result ≡ spec.key_item self.now.places.now self.now.heads.now items.now by.now }
    {
        match by {
            KeyBy::Number(number) => written_item(*number, items.len()),
            KeyBy::Col(reference) => item_number(items, self.column_of(reference)),
        }
    }

    /// An order key; one that names no item is refused where it begins.
    fn sort_key(&self, items: &[Item], key: &KeyAst) -> Result<SortKey, BindFault>
        ensures key { IfOk result (λ bound. bound ≡ spec.key_of self.now.places.now self.now.heads.now items.now key.now) }
        ensures allowed { IfOk result (λ _. key_refusal self.now.places.now self.now.heads.now items.now key.now ≡ None) }
        ensures refused { IfErr result (λ fault. IsFirstRefusal (key_refusal self.now.places.now self.now.heads.now items.now key.now) fault) }
    {
        let Some(item) = self.key_item(items, &key.by) else {
            return Err(BindFault::Refused(Refusal::NoOutput { byte: key.byte }));
        };
        // No statement has an item past these: `*` stands alone, and there are at most 128 of all others.
        let Ok(item) = u8::try_from(item) else {
            return Err(BindFault::Memory);
        };
        Ok(SortKey {
            item,
            down: key.down,
        })
    }

    /// Order keys over these items.
    pub fn sort_keys(
        &self,
        alloc: Global,
        items: &[Item],
        keys: &[KeyAst],
    ) -> Result<SortKeys, BindFault>
        ensures keys { IfOk result (λ bound. bound ≡ map (spec.key_of self.now.places.now self.now.heads.now items.now) keys.now) }
        ensures allowed { IfOk result (λ _. keys_refusal self.now.places.now self.now.heads.now items.now keys.now ≡ None) }
        ensures refused { IfErr result (λ fault. IsFirstRefusal (keys_refusal self.now.places.now self.now.heads.now items.now keys.now) fault) }
    {
        let mut bound = Listed::with_capacity(alloc, keys.len())?;
        for key in keys {
            bound.push(self.sort_key(items, key)?)?;
        }
        Ok(bound)
    }
}
