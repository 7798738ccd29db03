// The first output rows in the order of keys.
ghost use Rattle.std.specs.Prelude.{map, Some, IfOk};
ghost use Rattle.hv_model.specs.Query.{row_out};
ghost use Rattle.hv_model.specs.Answer.{AnswersFor};
ghost use Rattle.hv_expr.specs.Limits.{StandsFor};

use crate::lent::Lent;
use crate::ordering::ordered;
use crate::rows_out::row_out;
use hv_model::{Items, OutRows, SortKeys};
use std::alloc::{AllocError, Global};

// At least so many rows are gathered before they are put in order: this project's own.
const MIN_GATHERED: usize = 4096;

/// The output rows of combinations in the order of keys, up to a limit. At most `MIN_GATHERED` rows are held at once, or twice as many as the limit.
pub fn first_rows(
    alloc: Global,
    items: &Items,
    keys: &SortKeys,
    limit: u64,
    combos: &[Lent<'_>],
) -> Result<OutRows, AllocError>
    ensures { IfOk result (λ rows. AnswersFor keys.now (Some limit) (map (row_out items.now) combos.now) rows) }
{
    let mut rows = OutRows::new(alloc);
    for combo in combos {
        rows = fewer(rows, keys, limit)?;
        rows.push(row_out(alloc, items.as_slice(), combo)?)?;
    }
    ordered(rows, keys, Some(limit))
}

// Rows that stand for these; where many are gathered they are put in order, up to the limit.
fn fewer(rows: OutRows, keys: &SortKeys, limit: u64) -> Result<OutRows, AllocError>
    ensures { IfOk result (λ fewer. StandsFor keys.now (Some limit) fewer rows) }
{
    let most = (limit as usize).saturating_mul(2).max(MIN_GATHERED);
    if rows.len() < most {
        return Ok(rows);
    }
    ordered(rows, keys, Some(limit))
}
