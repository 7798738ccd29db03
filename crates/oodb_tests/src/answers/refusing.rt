// Cases that are refused, each at its byte.

// Each refusal alone.
pub const REFUSAL_CASES: &str = "\
CREATE TABLE t (a INT, b TEXT)
    1,b
    1,a
    0,z
    1,c
SELECT FROM t
    syntax 7
SELECT COUNT(*) FROM t, t b
    syntax 22
SELECT t.a FROM t, t b GROUP BY t.a
    syntax 23
SELECT a FROM t LIMIT 1
    syntax 16
SELECT A FROM t
    no-column 7
SELECT a FROM T
    no-table 14
SELECT a FROM t, u
    no-table 17
SELECT x.a FROM t x, x
    no-table 21
SELECT a FROM t, t b, t c, t d, t e
    too-many-places 32
SELECT a FROM t, t
    duplicate-alias 17
SELECT t.a FROM t x, t AS t, t x
    duplicate-alias 31
SELECT z FROM t
    no-column 7
SELECT x.a FROM t
    no-column 7
SELECT t.a FROM t x
    no-column 7
SELECT a, t.z FROM t
    no-column 10
SELECT COUNT(z) FROM t
    no-column 13
SELECT SUM(z) FROM t
    no-column 11
SELECT MIN(t.z) FROM t
    no-column 11
SELECT MAX(x.a) FROM t
    no-column 11
SELECT a FROM t WHERE z = 1
    no-column 22
SELECT a FROM t WHERE 1 = z
    no-column 26
SELECT a FROM t GROUP BY z
    no-column 25
SELECT a FROM t ORDER BY z
    no-column 25
SELECT b FROM t x, t y, t z
    ambiguous 7
SELECT x.a FROM t x, t y WHERE b = 'a'
    ambiguous 31
SELECT x.a FROM t x, t y WHERE 'a' < b
    ambiguous 37
SELECT x.a FROM t x, t y ORDER BY b
    ambiguous 34
SELECT SUM(b) FROM t
    type-mismatch 11
SELECT a FROM t WHERE a = 'x'
    type-mismatch 24
SELECT a FROM t WHERE b <= 1
    type-mismatch 24
SELECT a FROM t WHERE 'x' = 1
    type-mismatch 26
SELECT a FROM t WHERE a<>b
    type-mismatch 23
SELECT a, COUNT(*) FROM t
    not-grouped 7
SELECT COUNT(*), a FROM t
    not-grouped 17
SELECT b FROM t GROUP BY a
    not-grouped 7
SELECT * FROM t GROUP BY a
    not-grouped 7
SELECT a FROM t ORDER BY 2
    no-output 25
SELECT a FROM t ORDER BY 0
    no-output 25
SELECT * FROM t ORDER BY 3
    no-output 25
SELECT a FROM t ORDER BY b
    no-output 25
SELECT a FROM t ORDER BY 9223372036854775807
    no-output 25
SELECT SUM(a) FROM t ORDER BY a
    no-output 30
SELECT a FROM t GROUP BY a, b ORDER BY b
    no-output 39
SELECT SUM(a) FROM t WHERE a > 1
    empty-aggregate";

// Where several stand together: places from left to right; then items, condition, group columns and keys in the order of the text; then
// plain columns; then keys that name no item.
pub const FIRST_REFUSAL_CASES: &str = "\
CREATE TABLE t (a INT, b TEXT)
    1,b
SELECT z FROM u WHERE
    syntax 21
SELECT z FROM t, u
    no-table 17
SELECT a FROM u, t x, t x
    no-table 14
SELECT a FROM t x, t x, u
    duplicate-alias 21
SELECT a FROM t x, u x
    no-table 19
SELECT a FROM t, t, t c, t d, t e
    duplicate-alias 17
SELECT a FROM t, t b, t c, t d, u
    too-many-places 32
SELECT a FROM t, t b, t c, t d, t b, t f
    too-many-places 32
SELECT a FROM t, t b, t c, u d, t e
    no-table 27
SELECT z FROM t x, t x
    duplicate-alias 21
SELECT z FROM t WHERE y = 1
    no-column 7
SELECT SUM(b), z FROM t
    type-mismatch 11
SELECT z, SUM(b) FROM t
    no-column 7
SELECT SUM(z), SUM(b) FROM t
    no-column 11
SELECT a, y.c FROM t x, t y
    ambiguous 7
SELECT y.c, a FROM t x, t y
    no-column 7
SELECT a FROM t WHERE z = y
    no-column 22
SELECT a FROM t WHERE b = z
    no-column 26
SELECT a FROM t WHERE a = 'x' AND z = 1
    type-mismatch 24
SELECT a FROM t WHERE a = 1 AND (b = 2 OR z = 1)
    type-mismatch 35
SELECT a FROM t WHERE NOT (z = 1 OR b = 2)
    no-column 27
SELECT a FROM t WHERE a = 1 OR a = 2 AND NOT b > -3
    type-mismatch 47
SELECT a FROM t WHERE a = 'x' GROUP BY z
    type-mismatch 24
SELECT a FROM t GROUP BY a, z ORDER BY y
    no-column 28
SELECT b FROM t GROUP BY a ORDER BY z
    no-column 36
SELECT b, SUM(b) FROM t
    type-mismatch 14
SELECT b FROM t GROUP BY a ORDER BY 9
    not-grouped 7
SELECT a, COUNT(*), b FROM t GROUP BY a ORDER BY b, a
    not-grouped 20
SELECT a FROM t ORDER BY 9, z
    no-column 28
SELECT a FROM t ORDER BY 1, 2, 3
    no-output 28
SELECT a FROM t ORDER BY b, 9 LIMIT 0
    no-output 25
SELECT SUM(a), b FROM t WHERE 1 = 2
    not-grouped 15
SELECT SUM(a) FROM t WHERE 1 = 2 ORDER BY 2
    no-output 42";

// Without a table.
pub const NO_TABLE_CASES: &str = "\
SELECT a FROM t
    no-table 14
SELECT COUNT(*) FROM t WHERE a = 'x' ORDER BY 9
    no-table 21
SELECT a FROM t, t, t, t, t
    no-table 14
SELECT a FROM t WHERE
    syntax 21";
