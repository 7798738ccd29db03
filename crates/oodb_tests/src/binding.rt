// Selects with their bound queries or refusals, without a text of SQL. The expected values follow from the rules of names, and none is an
// output of the crate's own.
use crate::drafts::{heads_of, select};
use crate::query_line::query_line;
use hv_bind::{bind, places};
use hv_model::{SelectAst, TableHead, is_grouped};
use std::alloc::Global;
use std::test::Fail;

// The places of selects, each with the number of the first whose table doesn't stand, and the refusal.
const PLACE_CASES: &str = "\
select * from t u; None
select * from t t/x t/y t/z; None
select * from t t; Some(DuplicateAlias { byte: 16 })
select * from t u/t; Some(DuplicateAlias { byte: 17 })
select * from t/x t u t/x; Some(DuplicateAlias { byte: 23 })
select * from t u; 0 Some(NoTable { byte: 14 })
select * from t t; 1 Some(NoTable { byte: 16 })
select * from t t u; 2 Some(DuplicateAlias { byte: 16 })
select * from t u t/x u/x; 3 Some(NoTable { byte: 22 })
select * from a b c d a; Some(TooManyPlaces { byte: 22 })
select * from a b c d e f; Some(TooManyPlaces { byte: 22 })
select * from a b c a e; Some(DuplicateAlias { byte: 20 })";

// Selects and their queries.
const QUERY_CASES: &str = "\
select * from t; from 3 where always items 0.0 0.1 plain order limit None
select * from t u limit 5; from 3 5 where always items 0.0 0.1 1.0 1.1 plain order limit Some(5)
select t.a b x.a c from t/x u/t; from 3 5 where always items 1.0 0.1 0.0 1.1 plain order limit None
select a from t where a<7 'x'!t.b; from 3 where ( 0.0 < 7 and 'x' <> 0.1 and ) items 0.0 plain order limit None
select b from t neither a>-7 b='x'; from 3 where not ( 0.0 > -7 or 0.1 = 'x' or ) items 0.1 plain order limit None
select count(*) count(b) sum(a) min(b) max(a) from t; from 3 where always items count count 0.1 sum 0.0 min 0.1 max 0.0 grouped order limit None
select * from t group b a; from 3 where always items 0.0 0.1 grouped 0.1 0.0 order limit None
select b a b from t order b- 1 3 t.a; from 3 where always items 0.1 0.0 0.1 plain order 0- 0 2 1 limit None";

// Selects that are refused at a name or a comparison.
const NAME_CASES: &str = "\
select z from t; Refused(NoColumn { byte: 7 })
select t.a from t/x; Refused(NoColumn { byte: 7 })
select u.b from t u; Refused(NoColumn { byte: 7 })
select c a from t u; Refused(Ambiguous { byte: 9 })
select sum(b) from t; Refused(TypeMismatch { byte: 7 })
select sum(z) from t; Refused(NoColumn { byte: 7 })
select * from t where y=z; Refused(NoColumn { byte: 22 })
select * from t where b=z; Refused(NoColumn { byte: 24 })
select * from t where a='x'; Refused(TypeMismatch { byte: 23 })
select * from t where a=b z=1; Refused(TypeMismatch { byte: 23 })
select * from t neither a=1 z=1; Refused(NoColumn { byte: 28 })
select z from t where y=1; Refused(NoColumn { byte: 7 })
select * from t where y=1 group z; Refused(NoColumn { byte: 22 })
select * from t group a y order z; Refused(NoColumn { byte: 24 })
select * from t order 3 z; Refused(NoColumn { byte: 24 })
select b from t group a order z; Refused(NoColumn { byte: 30 })";

// Selects that are refused at a plain column or at an order key.
const OUTPUT_CASES: &str = "\
select * from t group a; Refused(NotGrouped { byte: 7 })
select a b from t group a; Refused(NotGrouped { byte: 9 })
select count(*) a from t; Refused(NotGrouped { byte: 16 })
select b from t group a order 9; Refused(NotGrouped { byte: 7 })
select * from t order 0; Refused(NoOutput { byte: 22 })
select * from t order 1- 3; Refused(NoOutput { byte: 25 })
select * from t order 18446744073709551615; Refused(NoOutput { byte: 22 })
select a min(b) from t group a order b; Refused(NoOutput { byte: 37 })";

// The query of a select, or its fault, in one line; `unmet` where the call asks for more than stands.
fn told(alloc: Global, ast: &SelectAst, heads: &[TableHead]) -> Result<String, Fail> {
    let one_place = !is_grouped(ast) || ast.places.len() == 1;
    if heads.len() != ast.places.len() || places(ast, None).is_some() || !one_place {
        return Ok(String::from_str(alloc, "unmet")?);
    }
    match bind(alloc, ast, heads) {
        Ok(query) => query_line(alloc, &query),
        Err(fault) => Ok(format!(in alloc; "{fault:?}")?),
    }
}

// The refusal of a select's places, behind the number of the one whose table doesn't stand.
fn told_of_places(alloc: Global, line: &str, want: &str) -> Result<String, Fail> {
    let ast = select(alloc, line)?;
    let absent = match want.split_once(' ') {
        Some((number, _)) => number.parse().ok(),
        None => None,
    };
    let refusal = places(&ast, absent);
    match absent {
        Some(number) => Ok(format!(in alloc; "{number} {refusal:?}")?),
        None => Ok(format!(in alloc; "{refusal:?}")?),
    }
}

// Whether a line of a select and its refusal holds.
fn is_refused(alloc: Global, case: &str) -> Result<bool, Fail> {
    let (line, want) = case.split_once("; ").ok_or("no case")?;
    Ok(told_of_places(alloc, line, want)?.as_str() == want)
}

// Whether a line of a select and its query, or its fault, holds.
fn is_bound(alloc: Global, case: &str) -> Result<bool, Fail> {
    let (line, want) = case.split_once("; ").ok_or("no case")?;
    let ast = select(alloc, line)?;
    let heads = heads_of(alloc, &ast)?;
    Ok(told(alloc, &ast, &heads)?.as_str() == want)
}

#[test]
fn refuses_places(rt: HostRuntime) -> Result<(), Fail> {
    for case in PLACE_CASES.lines() {
        assert!(rt; is_refused(rt.alloc(), case)?, "{case}");
    }
    Ok(())
}

#[test]
fn binds(rt: HostRuntime) -> Result<(), Fail> {
    for case in QUERY_CASES.lines() {
        assert!(rt; is_bound(rt.alloc(), case)?, "{case}");
    }
    Ok(())
}

#[test]
fn refuses_names(rt: HostRuntime) -> Result<(), Fail> {
    for case in NAME_CASES.lines() {
        assert!(rt; is_bound(rt.alloc(), case)?, "{case}");
    }
    Ok(())
}

#[test]
fn refuses_outputs(rt: HostRuntime) -> Result<(), Fail> {
    for case in OUTPUT_CASES.lines() {
        assert!(rt; is_bound(rt.alloc(), case)?, "{case}");
    }
    Ok(())
}
