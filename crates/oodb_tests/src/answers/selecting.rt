// Cases on whole tables and columns.

// Rows in the table's order, and by a key.
pub const SELECT_CASES: &str = "\
CREATE TABLE t (a INT, b TEXT)
    2,b
    1,a
SELECT * FROM t ORDER BY a
    1|'a'
    2|'b'
SELECT * FROM t
    2|'b'
    1|'a'
SELECT b, a, b FROM t
    'b'|2|'b'
    'a'|1|'a'
SELECT x.b FROM t AS x WHERE x.a = 1
    'a'
select t.a from t where t.b = 'b'
    2
SELECT MIN(a), MAX(b), COUNT(*) FROM t
    1|'b'|2";

// The same row three times counts three times.
pub const SAME_ROW_CASES: &str = "\
CREATE TABLE t (a INT, b TEXT)
    7,x
    7,x
    7,x
SELECT * FROM t
    7|'x'
    7|'x'
    7|'x'
SELECT a FROM t WHERE b = 'x' AND a >= 7
    7
    7
    7
SELECT * FROM t ORDER BY b, a LIMIT 2
    7|'x'
    7|'x'
SELECT COUNT(*), COUNT(b), SUM(a), MIN(a), MAX(b) FROM t
    3|3|21|7|'x'
SELECT a, b, COUNT(*) FROM t GROUP BY a, b
    7|'x'|3
SELECT x.a, y.b FROM t x, t y
    7|'x'
    7|'x'
    7|'x'
    7|'x'
    7|'x'
    7|'x'
    7|'x'
    7|'x'
    7|'x'
SELECT COUNT(*) FROM t WHERE a <> 7
    0
SELECT MIN(a) FROM t WHERE a <> 7
    empty-aggregate
SELECT MIN(a) FROM t WHERE a <> 7 GROUP BY b
    no row";
