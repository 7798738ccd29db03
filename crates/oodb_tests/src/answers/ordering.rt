// Cases on ORDER BY and LIMIT.

// Ties stand in the order of all columns of the answer, ascending.
pub const ORDER_CASES: &str = "\
CREATE TABLE t (a INT, b TEXT)
    1,b
    1,a
    0,z
    1,c
SELECT a, b FROM t ORDER BY a DESC LIMIT 2
    1|'a'
    1|'b'
SELECT b, a FROM t ORDER BY a, b DESC
    'z'|0
    'c'|1
    'b'|1
    'a'|1
SELECT b, a FROM t ORDER BY a
    'z'|0
    'a'|1
    'b'|1
    'c'|1
SELECT * FROM t ORDER BY 2
    1|'a'
    1|'b'
    1|'c'
    0|'z'
SELECT * FROM t ORDER BY 2 DESC LIMIT 3
    0|'z'
    1|'c'
    1|'b'
SELECT * FROM t ORDER BY t.a, t.b LIMIT 100
    0|'z'
    1|'a'
    1|'b'
    1|'c'
SELECT * FROM t ORDER BY 1 ASC LIMIT 4
    0|'z'
    1|'a'
    1|'b'
    1|'c'
SELECT a, a FROM t ORDER BY 2 DESC
    1|1
    1|1
    1|1
    0|0
SELECT a FROM t ORDER BY a LIMIT 0
    no row
SELECT a FROM t ORDER BY a, a DESC LIMIT 1
    0
SELECT a, COUNT(*) FROM t GROUP BY a
    1|3
    0|1
SELECT a, COUNT(*) FROM t GROUP BY a ORDER BY a
    0|1
    1|3
SELECT a, MIN(b), MAX(b) FROM t GROUP BY a ORDER BY 2 DESC, 1
    0|'z'|'z'
    1|'a'|'c'
SELECT MAX(b), COUNT(*) FROM t ORDER BY 1 LIMIT 1
    'z'|4
SELECT b FROM t WHERE a = 1 ORDER BY b DESC LIMIT 9223372036854775807
    'c'
    'b'
    'a'";

// Several keys, and keys of each kind.
pub const SHORT_ORDER_CASES: &str = "\
CREATE TABLE g (a INT, b TEXT, n INT)
    2,x,5
    1,x,7
    2,y,-3
    2,x,1
    1,x,0
SELECT n FROM g ORDER BY g.n
    -3
    0
    1
    5
    7
SELECT n, b FROM g ORDER BY b
    0|'x'
    1|'x'
    5|'x'
    7|'x'
    -3|'y'
SELECT n, b, a FROM g ORDER BY a DESC LIMIT 3
    -3|'y'|2
    1|'x'|2
    5|'x'|2
SELECT a, b, n FROM g ORDER BY b, a DESC, 3 DESC
    2|'x'|5
    2|'x'|1
    1|'x'|7
    1|'x'|0
    2|'y'|-3
SELECT b, n FROM g ORDER BY 1 DESC, n DESC LIMIT 4
    'y'|-3
    'x'|7
    'x'|5
    'x'|1
SELECT * FROM g ORDER BY 3 LIMIT 2
    2|'y'|-3
    1|'x'|0
SELECT * FROM g ORDER BY n DESC LIMIT 1
    1|'x'|7
SELECT a, COUNT(*), b FROM g GROUP BY a, b ORDER BY 2 DESC, b, a
    1|2|'x'
    2|2|'x'
    2|1|'y'
SELECT b, a FROM g ORDER BY b LIMIT 5
    'x'|1
    'x'|1
    'x'|2
    'x'|2
    'y'|2";
