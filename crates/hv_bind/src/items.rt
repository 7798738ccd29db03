// The items of a select list.
ghost use Rattle.std.specs.Prelude.{◌≡◌, ◌++◌, map, IfOk, OnOk};
ghost use Rattle.hv_model.specs.declared.query.Item.TheVariants as item;
ghost use Rattle.hv_model.specs.Scope.{all_columns};
ghost use Rattle.hv_model.specs.Bound as spec;

use crate::scope::Scope;
use hv_model::{ColRef, Item, ItemAst, Items};
use hv_row::Listed;
use std::alloc::{AllocError, Global};

/// Adds these columns.
fn add_columns(columns: &[ColRef], items: &mut Items) -> Result<(), AllocError>
    ensures { OnOk result (items.new ≡ items.old ++ map item.Col columns.now) }
{
    for column in columns {
        items.push(Item::Col(*column))?;
    }
    Ok(())
}

impl Scope<'_> {
    /// Adds the items that one stands for; `*` stands for the columns of all places.
    fn add_items(
        &self,
        item: &ItemAst,
        columns: &[ColRef],
        items: &mut Items,
    ) -> Result<(), AllocError>
        requires { columns.now ≡ all_columns self.now.heads.now }
        ensures { OnOk result (items.new ≡ items.old ++ spec.items_of self.now.places.now self.now.heads.now item.now) }
    {
        let one = match item {
            ItemAst::Star { .. } => return add_columns(columns, items),
            ItemAst::Col(reference) => Item::Col(self.column_of(reference)),
            ItemAst::Count => Item::Count,
            ItemAst::CountOf(reference) => Item::CountOf(self.column_of(reference)),
            ItemAst::Sum(reference) => Item::Sum(self.column_of(reference)),
            ItemAst::Least(reference) => Item::Least(self.column_of(reference)),
            ItemAst::Greatest(reference) => Item::Greatest(self.column_of(reference)),
        };
        items.push(one)
    }

    /// All items; `columns` are those of all places.
    pub fn all_items(
        &self,
        alloc: Global,
        items: &[ItemAst],
        columns: &[ColRef],
    ) -> Result<Items, AllocError>
        requires { columns.now ≡ all_columns self.now.heads.now }
        ensures { IfOk result (λ list. list ≡ spec.all_items self.now.places.now self.now.heads.now items.now) }
    {
        let mut list = Listed::with_capacity(alloc, items.len())?;
        for item in items {
            self.add_items(item, columns, &mut list)?;
        }
        Ok(list)
    }
}
