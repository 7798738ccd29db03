// Cases on aggregates and groups.

// Over no row COUNT is 0, SUM, MIN and MAX are refused, and there is no group.
pub const EMPTY_CASES: &str = "\
CREATE TABLE t (a INT, b TEXT)
SELECT COUNT(*) FROM t
    0
SELECT b, COUNT(*) FROM t GROUP BY b
    no row
SELECT SUM(a) FROM t
    empty-aggregate
SELECT MIN(b) FROM t
    empty-aggregate
SELECT MAX(a) FROM t
    empty-aggregate
SELECT COUNT(b), COUNT(*) FROM t
    0|0
SELECT COUNT(*), MAX(b) FROM t
    empty-aggregate
SELECT SUM(a) FROM t GROUP BY b
    no row
SELECT MIN(a), b FROM t GROUP BY b ORDER BY 1 DESC LIMIT 3
    no row
SELECT SUM(a) FROM t ORDER BY 1 LIMIT 0
    empty-aggregate
SELECT COUNT(*) FROM t ORDER BY 1
    0
SELECT COUNT(*) FROM t ORDER BY 1 LIMIT 0
    no row
SELECT * FROM t
    no row
SELECT a FROM t ORDER BY a LIMIT 5
    no row
SELECT x.a FROM t x, t y
    no row
SELECT SUM(b) FROM t
    type-mismatch 11
SELECT b, SUM(a) FROM t
    not-grouped 7";

// Sums past 64 bits.
pub const SUM_CASES: &str = "\
CREATE TABLE t (a INT)
    9223372036854775807
    -9223372036854775808
CREATE TABLE u (a INT)
    9223372036854775807
    9223372036854775807
    9223372036854775807
CREATE TABLE v (a INT, b TEXT)
    -9223372036854775808,x
    9223372036854775807,y
    -9223372036854775808,x
    -9223372036854775808,x
SELECT SUM(a) FROM t
    -1
SELECT MIN(a), MAX(a) FROM t
    -9223372036854775808|9223372036854775807
SELECT SUM(a) FROM u
    27670116110564327421
SELECT SUM(a) FROM v WHERE b = 'x'
    -27670116110564327424
SELECT b, SUM(a), SUM(a) FROM v GROUP BY b ORDER BY 2 DESC
    'y'|9223372036854775807|9223372036854775807
    'x'|-27670116110564327424|-27670116110564327424
SELECT SUM(a), COUNT(*) FROM v GROUP BY a
    -27670116110564327424|3
    9223372036854775807|1
SELECT a FROM t WHERE a < -9223372036854775807
    -9223372036854775808
SELECT a FROM t WHERE a >= 9223372036854775807
    9223372036854775807
SELECT a FROM t ORDER BY a
    -9223372036854775808
    9223372036854775807";

// Groups stand in the order of their first rows.
pub const GROUP_CASES: &str = "\
CREATE TABLE g (a INT, b TEXT, n INT)
    2,x,5
    1,x,7
    2,y,-3
    2,x,1
    1,x,0
SELECT b, SUM(n) FROM g GROUP BY b
    'x'|13
    'y'|-3
SELECT a, COUNT(*) FROM g GROUP BY a
    2|3
    1|2
SELECT a, b, COUNT(*), SUM(n), MIN(n), MAX(n) FROM g GROUP BY a, b
    2|'x'|2|6|1|5
    1|'x'|2|7|0|7
    2|'y'|1|-3|-3|-3
SELECT b, a, COUNT(b) FROM g GROUP BY b, a
    'x'|2|2
    'x'|1|2
    'y'|2|1
SELECT COUNT(*) FROM g GROUP BY a, b
    2
    2
    1
SELECT COUNT(*) FROM g GROUP BY b, b
    4
    1
SELECT a, g.a FROM g GROUP BY g.a
    2|2
    1|1
SELECT * FROM g GROUP BY n, a, b
    2|'x'|5
    1|'x'|7
    2|'y'|-3
    2|'x'|1
    1|'x'|0
SELECT b, a FROM g GROUP BY a, b ORDER BY b DESC, a
    'y'|2
    'x'|1
    'x'|2
SELECT a, SUM(n) FROM g WHERE b = 'x' GROUP BY a ORDER BY 2 DESC
    1|7
    2|6
SELECT SUM(n) FROM g GROUP BY a ORDER BY 1 LIMIT 1
    3
SELECT MAX(n), a FROM g WHERE n < 7 GROUP BY a
    5|2
    0|1
SELECT MIN(b), MAX(b), COUNT(b), COUNT(*) FROM g
    'x'|'y'|5|5
SELECT SUM(a), SUM(n), SUM(n) FROM g
    8|10|10
SELECT SUM(n), COUNT(n) FROM g WHERE n < 0
    -3|1
SELECT COUNT(*) FROM g WHERE n > 100
    0
SELECT COUNT(*), SUM(n) FROM g WHERE n > 100
    empty-aggregate
SELECT COUNT(n), SUM(n) FROM g WHERE n > 100 GROUP BY b
    no row
SELECT MIN(n) FROM g WHERE 1 = 2
    empty-aggregate
SELECT a, MIN(b), MAX(b) FROM g GROUP BY a
    2|'x'|'y'
    1|'x'|'x'";
