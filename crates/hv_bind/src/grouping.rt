// Plain columns of a grouped select.
ghost use Rattle.std.specs.Prelude.{◌≡◌, map};
ghost use Rattle.std.specs.List.{list_all};
ghost use Rattle.std.specs.Result.{result_err};
ghost use Rattle.hv_model.specs.Causes.{first_of};
ghost use Rattle.hv_model.specs.Scope.{all_columns};
ghost use Rattle.hv_model.specs.Fits as fits;
ghost use Rattle.hv_model.specs.Bound as spec;
ghost use Rattle.hv_model.specs.Bound.{ref_of};

use crate::scope::Scope;
use hv_model::{ColRef, ItemAst, Refusal, SelectAst, is_grouped};

/// Whether two columns are the same.
pub fn same_column(a: ColRef, b: ColRef) -> bool
    ensures { result ≡ fits.same_column a b }
{
    a == b
}

/// Whether a column is among these.
fn is_among(columns: &[ColRef], column: ColRef) -> bool
    ensures { result ≡ spec.is_among columns.now column }
{
    columns.iter().any(|other| same_column(column, *other))
}

/// Whether these columns are all among the groups.
fn are_among(groups: &[ColRef], columns: &[ColRef]) -> bool
    ensures { result ≡ list_all (spec.is_among groups.now) columns.now }
{
    columns.iter().all(|column| is_among(groups, *column))
}

impl Scope<'_> {
    /// Refuses a column that isn't a group column, at its reference or at the `*`.
    fn check_plain(
        &self,
        item: &ItemAst,
        groups: &[ColRef],
        columns: &[ColRef],
    ) -> Result<(), Refusal>
        requires { columns.now ≡ all_columns self.now.heads.now }
        ensures { result_err result ≡ spec.plain_refusal self.now.places.now self.now.heads.now groups.now item.now }
    {
        match item {
            ItemAst::Star { byte } if !are_among(groups, columns) => {
                Err(Refusal::NotGrouped { byte: *byte })
            }
            ItemAst::Col(reference) if !is_among(groups, self.column_of(reference)) => {
                Err(Refusal::NotGrouped {
                    byte: reference.byte,
                })
            }
            _ => Ok(()),
        }
    }

    /// Refuses the first item of a grouped select that is refused so; `columns` are those of all places.
    fn check_all_plain(
        &self,
        items: &[ItemAst],
        groups: &[ColRef],
        columns: &[ColRef],
    ) -> Result<(), Refusal>
        requires { columns.now ≡ all_columns self.now.heads.now }
        ensures { result_err result ≡ first_of (map (spec.plain_refusal self.now.places.now self.now.heads.now groups.now) items.now) }
    {
        for item in items {
            self.check_plain(item, groups, columns)?;
        }
        Ok(())
    }

    /// Refuses the first plain column of a select that is grouped.
    pub fn check_grouping(
        &self,
        ast: &SelectAst,
        groups: &[ColRef],
        columns: &[ColRef],
    ) -> Result<(), Refusal>
        requires places { self.now.places.now ≡ ast.now.places }
        requires groups { groups.now ≡ map (ref_of self.now.places.now self.now.heads.now) ast.now.groups }
        requires columns { columns.now ≡ all_columns self.now.heads.now }
        ensures { result_err result ≡ spec.grouping_refusal ast.now self.now.heads.now }
    {
        if is_grouped(ast) {
            self.check_all_plain(ast.items.as_slice(), groups, columns)
        } else {
            Ok(())
        }
    }
}
