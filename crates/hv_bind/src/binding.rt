// The bound query of a select, or its first refusal.
ghost use Rattle.std.specs.Prelude.{◌≡◌, true, None, length, map, IfOk, IfErr};
ghost use Rattle.hv_model.specs.Scope.{places_refusal};
ghost use Rattle.hv_model.specs.Fits.{FitsSchemas};
ghost use Rattle.hv_model.specs.Bound.{schemas_of, is_grouped, bind_refusal, bound_query};
ghost use Rattle.hv_bind.specs.Cause.{IsFirstRefusal};

use crate::scope::Scope;
use hv_model::{BoundQuery, Places, Refusal, SelectAst, TableHead, is_grouped};
use hv_row::Listed;
use std::alloc::{AllocError, Global};

/// Why a select has no bound query.
#[derive(Debug, Clone, Copy, PartialEq, Eq)]
pub enum BindFault {
    /// The first refusal, in the order of the text: of names and types; of plain columns where the select is grouped; of order keys.
    Refused(Refusal),
    Memory,
}

impl From<AllocError> for BindFault {
    ghost use Rattle.hv_bind.specs.declared.binding.BindFault.TheVariants.{Memory};

    ghost from_gives = { λ _ e. e ≡ Memory };

    fn from(_error: AllocError) -> BindFault {
        BindFault::Memory
    }
}

impl From<Refusal> for BindFault {
    ghost use Rattle.hv_bind.specs.declared.binding.BindFault.TheVariants.{Refused};

    ghost from_gives = { λ r e. e ≡ Refused r };

    fn from(refusal: Refusal) -> BindFault {
        BindFault::Refused(refusal)
    }
}

/// The numbers of tables.
fn numbers(alloc: Global, heads: &[TableHead]) -> Result<Places, AllocError>
    ensures { IfOk result (λ list. list ≡ map (λ h. h.number) heads.now) }
{
    let numbers = heads.iter().map(|head| head.number).collect(alloc)?;
    Ok(Listed::from_vec(numbers))
}

/// The query that a select means over the tables of its places, whose heads stand in the order of the places; or its first refusal.
/// A query that is given fits the schemas of the heads. ISO/IEC 9075, query specification; the order of refusals is this project's own.
pub fn bind(alloc: Global, ast: &SelectAst, heads: &[TableHead]) -> Result<BoundQuery, BindFault>
    requires heads { length heads.now ≡ length ast.now.places }
    requires places { places_refusal ast.now.places None ≡ None }
    requires one_place { is_grouped ast.now ≡ true → length ast.now.places ≡ 1 }
    ensures bound { IfOk result (λ q. q ≡ bound_query ast.now heads.now) }
    ensures allowed { IfOk result (λ q. bind_refusal ast.now heads.now ≡ None) }
    ensures fits { IfOk result (λ q. FitsSchemas (schemas_of heads.now) q) }
    ensures refused { IfErr result (λ fault. IsFirstRefusal (bind_refusal ast.now heads.now) fault) }
{
    let scope = Scope {
        places: ast.places.as_slice(),
        heads,
    };
    scope.check_names(ast)?;
    let columns = scope.all_columns(alloc)?;
    let groups = scope.columns_of(alloc, ast.groups.as_slice())?;
    scope.check_grouping(ast, groups.as_slice(), columns.as_slice())?;
    let items = scope.all_items(alloc, ast.items.as_slice(), columns.as_slice())?;
    let order = scope.sort_keys(alloc, items.as_slice(), ast.order.as_slice())?;
    Ok(BoundQuery {
        places: numbers(alloc, heads)?,
        cond: scope.cond_of(alloc, &ast.cond)?,
        items,
        grouped: is_grouped(ast),
        groups,
        order,
        limit: ast.limit,
    })
}
