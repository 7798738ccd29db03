// Cases on SELECT but its conditions: a statement, ` => ` and what it is. `{N:piece}` is N times the piece.

// Items.
pub const ITEM_CASES: &str = "\
SELECT * FROM t => select(*; from t)
SELECT*FROM t => select(*; from t)
SELECT a FROM t => select(a; from t)
SELECT a,b,a FROM t => select(a b a; from t)
SELECT t.a, b FROM t => select(t.a b; from t)
SELECT t . a , t. b, t .c FROM t => select(t.a t.b t.c; from t)
SELECT COUNT(*) FROM t => select(count(*); from t)
SELECT COUNT(a), COUNT(t.b) FROM t => select(count(a) count(t.b); from t)
SELECT SUM(a), MIN(b), MAX(t.c) FROM t => select(sum(a) least(b) greatest(t.c); from t)
SELECT a, COUNT(*), b, SUM(a) FROM t => select(a count(*) b sum(a); from t)
select count ( * ) , max ( t . a ) from t => select(count(*) greatest(t.a); from t)
sElEcT a, CoUnT(*), SuM(a), mIn(a), Max(a) FrOm t => select(a count(*) sum(a) least(a) greatest(a); from t)
SELECT distinct FROM t => select(distinct; from t)
SELECT counts, sums FROM t => select(counts sums; from t)
SELECT => fault 6
SELECT FROM t => fault 7
SELECT , a FROM t => fault 7
SELECT 1 FROM t => fault 7
SELECT 'x' FROM t => fault 7
SELECT -1 FROM t => fault 7
SELECT (a) FROM t => fault 7
SELECT .a FROM t => fault 7
SELECT \"a\" FROM t => fault 7
SELECT SELECT a FROM t => fault 7
SELECT WHERE FROM t => fault 7
SELECT is FROM t => fault 7
SELECT * => fault 8
SELECT *, a FROM t => fault 8
SELECT ** FROM t => fault 8
SELECT * a FROM t => fault 9
SELECT *.a FROM t => fault 8
SELECT a => fault 8
SELECT a, => fault 9
SELECT a, FROM t => fault 10
SELECT a, * FROM t => fault 10
SELECT a,, b FROM t => fault 9
SELECT a b FROM t => fault 9
SELECT a AS b FROM t => fault 9
SELECT a + 1 FROM t => fault 9
SELECT a - 1 FROM t => fault 9
SELECT a * 2 FROM t => fault 9
SELECT a = 1 FROM t => fault 9
SELECT a WHERE b = 1 => fault 9
SELECT a; FROM t => fault 8
SELECT DISTINCT a FROM t => fault 16
SELECT ALL a FROM t => fault 11
SELECT t.* FROM t => fault 9
SELECT t.1 FROM t => fault 9
SELECT t.FROM t => fault 9
SELECT t.sum FROM t => fault 9
SELECT t..a FROM t => fault 9
SELECT t.a.b FROM t => fault 10
SELECT COUNT FROM t => fault 13
SELECT COUNT, a FROM t => fault 12
SELECT COUNT.a FROM t => fault 12
SELECT COUNT* FROM t => fault 12
SELECT COUNT() FROM t => fault 13
SELECT COUNT(1) FROM t => fault 13
SELECT COUNT((a)) FROM t => fault 13
SELECT COUNT(COUNT(a)) FROM t => fault 13
SELECT COUNT(DISTINCT a) FROM t => fault 22
SELECT COUNT(t.*) FROM t => fault 15
SELECT COUNT(* => fault 14
SELECT COUNT(*, a) FROM t => fault 14
SELECT COUNT(*.a) FROM t => fault 14
SELECT COUNT(a, b) FROM t => fault 14
SELECT COUNT(*).a FROM t => fault 15
SELECT COUNT(*) a FROM t => fault 16
SELECT COUNT(*) = 1 FROM t => fault 16
SELECT SUM(*) FROM t => fault 11
SELECT MIN(*) FROM t => fault 11
SELECT MAX(*) FROM t => fault 11
SELECT SUM() FROM t => fault 11
SELECT SUM(1) FROM t => fault 11
SELECT SUM(-a) FROM t => fault 11
SELECT SUM(a + 1) FROM t => fault 13
SELECT SUM(a, b) FROM t => fault 12
SELECT SUM(MAX(a)) FROM t => fault 11
SELECT SUM a FROM t => fault 11
SELECT MIN => fault 10
SELECT MAX(a => fault 12
SELECT AVG(a) FROM t => fault 10
SELECT NULL FROM t => fault 7";

// FROM.
pub const PLACE_CASES: &str = "\
SELECT * FROM t, u => select(*; from t u)
SELECT * FROM t a => select(*; from t as a)
SELECT * FROM t AS a => select(*; from t as a)
SELECT * FROM t t, t as T,t => select(*; from t as t t as T t)
SELECT a FROM t x, u AS y, v, t z => select(a; from t as x u as y v t as z)
SELECT * FROM t having => select(*; from t as having)
SELECT * FROM t, t, t, t, t => select(*; from t t t t t)
SELECT * FROM {299:t u, }t => select(*; from {299:t as u }t)
SELECT * FROM => fault 13
SELECT * FROM 1 => fault 14
SELECT * FROM 't' => fault 14
SELECT * FROM (t) => fault 14
SELECT * FROM (SELECT * FROM t) => fault 14
SELECT * FROM , t => fault 14
SELECT * FROM * => fault 14
SELECT * FROM FROM t => fault 14
SELECT * FROM WHERE a = 1 => fault 14
SELECT * FROM AS a => fault 14
SELECT * FROM table => fault 14
SELECT * FROM t, => fault 16
SELECT * FROM t,, u => fault 16
SELECT * FROM t, WHERE a = 1 => fault 17
SELECT * FROM t.u => fault 15
SELECT * FROM t(a) => fault 15
SELECT * FROM t 'a' => fault 16
SELECT * FROM t 1 => fault 16
SELECT * FROM t * => fault 16
SELECT * FROM t FROM u => fault 16
SELECT * FROM t AND a = 1 => fault 16
SELECT * FROM t INDEX => fault 16
SELECT * FROM t AS => fault 18
SELECT * FROM t AS AS => fault 19
SELECT * FROM t AS 1 => fault 19
SELECT * FROM t AS , u => fault 19
SELECT * FROM t AS WHERE a = 1 => fault 19
SELECT * FROM t a b => fault 18
SELECT * FROM t a AS b => fault 18
SELECT * FROM t AS a b => fault 21
SELECT * FROM t AS a.b => fault 20
SELECT * FROM t a(b) => fault 17
SELECT * FROM t JOIN u ON t.a = u.a => fault 21
SELECT * FROM t INNER JOIN u ON t.a = u.a => fault 22
SELECT * FROM t, u ON t.a = u.a => fault 22
SELECT * FROM t UNION SELECT * FROM u => fault 22
SELECT * FROM t -- rest => fault 16
SELECT * FROM t /* rest */ => fault 16";

// GROUP BY, and aggregates and groups against a second place.
pub const GROUP_CASES: &str = "\
SELECT a FROM t GROUP BY a => select(a; from t; group a)
SELECT a, t.b FROM t GROUP BY a, t.b => select(a t.b; from t; group a t.b)
SELECT * FROM t GROUP BY a => select(*; from t; group a)
SELECT a, COUNT(*) FROM t u WHERE b = 1 GROUP BY a, a ORDER BY 2 DESC, a LIMIT 3 => select(a count(*); from t as u; where b = 1; group a a; order 2 desc a; limit 3)
select sum(a) from t as u group by u . a => select(sum(a); from t as u; group u.a)
SELECT COUNT(*) FROM t, t b => fault 22
SELECT COUNT(a) FROM t, u => fault 22
SELECT a, SUM(b) FROM t, u => fault 23
SELECT MIN(a), b FROM t a, u => fault 25
SELECT a, MAX(b), c FROM t AS a, u => fault 31
SELECT COUNT(*) FROM t, => fault 22
SELECT COUNT(*) FROM t a, u GROUP BY a => fault 24
SELECT COUNT(*) FROM => fault 20
SELECT t.a FROM t, t b GROUP BY t.a => fault 23
SELECT * FROM t, u GROUP BY a => fault 19
SELECT a FROM t a, u AS b GROUP BY a => fault 26
SELECT a FROM t, u, v GROUP BY a => fault 22
SELECT a FROM t, u WHERE t.a = u.a GROUP BY a => fault 35
SELECT a FROM t, u WHERE (t.a = u.a) GROUP BY a => fault 37
SELECT a FROM t, u ORDER BY a GROUP BY a => fault 30
SELECT a FROM t, u WHERE a = GROUP => fault 29
SELECT a FROM t GROUP => fault 21
SELECT a FROM t GROUP a => fault 22
SELECT a FROM t GROUP BY => fault 24
SELECT a FROM t GROUP BY 1 => fault 25
SELECT a FROM t GROUP BY 'a' => fault 25
SELECT a FROM t GROUP BY * => fault 25
SELECT a FROM t GROUP BY (a) => fault 25
SELECT a FROM t GROUP BY COUNT(*) => fault 25
SELECT a FROM t GROUP BY ORDER BY a => fault 25
SELECT a FROM t GROUP BY a.* => fault 27
SELECT a FROM t GROUP BY a b => fault 27
SELECT a FROM t GROUP BY a, => fault 27
SELECT a FROM t GROUP BY a, ORDER BY a => fault 28
SELECT a FROM t GROUP BY a) => fault 26
SELECT a FROM t GROUP BY a DESC => fault 27
SELECT a FROM t GROUP BY a = 1 => fault 27
SELECT a FROM t GROUP BY a HAVING COUNT(*) > 1 => fault 27
SELECT a FROM t GROUP BY a WHERE a = 1 => fault 27
SELECT a FROM t GROUP BY a GROUP BY b => fault 27
SELECT a FROM t BY a => fault 16";

// ORDER BY and LIMIT.
pub const ORDER_CASES: &str = "\
SELECT a FROM t ORDER BY a => select(a; from t; order a)
SELECT a FROM t ORDER BY 1 => select(a; from t; order 1)
SELECT a FROM t ORDER BY 0 => select(a; from t; order 0)
SELECT a FROM t ORDER BY 999, t.a => select(a; from t; order 999 t.a)
SELECT a FROM t ORDER BY a ASC, 2 DESC, t . c desc, 3 asc => select(a; from t; order a 2 desc t.c desc 3)
SELECT a FROM t ORDER BY 1DESC,a => select(a; from t; order 1 desc a)
SELECT a FROM t ORDER BY 9223372036854775807 => select(a; from t; order 9223372036854775807)
SELECT a FROM t ORDER BY a LIMIT 0 => select(a; from t; order a; limit 0)
SELECT a FROM t ORDER BY a LIMIT 5 => select(a; from t; order a; limit 5)
SELECT a FROM t ORDER BY 1 LIMIT 007 => select(a; from t; order 1; limit 7)
select a from t, u order by t.a desc limit 9223372036854775807 => select(a; from t u; order t.a desc; limit 9223372036854775807)
SELECT * FROM t ORDER BY limits LIMIT 1 => select(*; from t; order limits; limit 1)
SELECT * FROM t LIMIT 5 => fault 16
SELECT * FROM t a LIMIT 5 => fault 18
SELECT * FROM t, u LIMIT 5 => fault 19
SELECT * FROM t WHERE a = 1 LIMIT 5 => fault 28
SELECT a FROM t GROUP BY a LIMIT 5 => fault 27
SELECT COUNT(*) FROM t LIMIT 5 => fault 23
SELECT a FROM t ORDER => fault 21
SELECT a FROM t ORDER a => fault 22
SELECT a FROM t ORDER BY => fault 24
SELECT a FROM t ORDER BY BY => fault 25
SELECT a FROM t ORDER BY DESC => fault 25
SELECT a FROM t ORDER BY LIMIT 1 => fault 25
SELECT a FROM t ORDER BY -1 => fault 25
SELECT a FROM t ORDER BY 'a' => fault 25
SELECT a FROM t ORDER BY * => fault 25
SELECT a FROM t ORDER BY (a) => fault 25
SELECT a FROM t ORDER BY COUNT(*) => fault 25
SELECT a FROM t ORDER BY 9223372036854775808 => fault 25
SELECT a FROM t ORDER BY 1, 9223372036854775808 DESC => fault 28
SELECT a FROM t ORDER BY 18446744073709551616 => fault 25
SELECT a FROM t ORDER BY a.* => fault 27
SELECT a FROM t ORDER BY a.b.c => fault 28
SELECT a FROM t ORDER BY a b => fault 27
SELECT a FROM t ORDER BY a 1 => fault 27
SELECT a FROM t ORDER BY 1 2 => fault 27
SELECT a FROM t ORDER BY 1.5 => fault 26
SELECT a FROM t ORDER BY 1d => fault 26
SELECT a FROM t ORDER BY a + 1 => fault 27
SELECT a FROM t ORDER BY a, => fault 27
SELECT a FROM t ORDER BY a, LIMIT 1 => fault 28
SELECT a FROM t ORDER BY a,, b => fault 27
SELECT a FROM t ORDER BY a ASC ASC => fault 31
SELECT a FROM t ORDER BY a ASC DESC => fault 31
SELECT a FROM t ORDER BY a DESC ASC => fault 32
SELECT a FROM t ORDER BY a DESC 1 => fault 32
SELECT a FROM t ORDER BY a NULLS FIRST => fault 27
SELECT a FROM t ORDER BY a WHERE a = 1 => fault 27
SELECT a FROM t ORDER BY a GROUP BY a => fault 27
SELECT a FROM t ORDER BY a ORDER BY b => fault 27
SELECT a FROM t ORDER BY a LIMIT => fault 32
SELECT a FROM t ORDER BY a LIMIT a => fault 33
SELECT a FROM t ORDER BY a LIMIT ALL => fault 33
SELECT a FROM t ORDER BY a LIMIT '1' => fault 33
SELECT a FROM t ORDER BY a LIMIT -1 => fault 33
SELECT a FROM t ORDER BY a LIMIT 9223372036854775808 => fault 33
SELECT a FROM t ORDER BY a LIMIT 18446744073709551616 => fault 33
SELECT a FROM t ORDER BY a LIMIT 1.5 => fault 34
SELECT a FROM t ORDER BY a LIMIT 1, 2 => fault 34
SELECT a FROM t ORDER BY a LIMIT 1 OFFSET 2 => fault 35
SELECT a FROM t ORDER BY a LIMIT 1 LIMIT 2 => fault 35
SELECT a FROM t ORDER BY a LIMIT 1 ORDER BY b => fault 35
SELECT a FROM t ORDER BY a LIMIT 1 DESC => fault 35
SELECT a FROM t DESC => fault 16
SELECT a FROM t ASC => fault 16";

// 128 items, group columns and order keys, and the comma before one more.
pub const COUNT_CASES: &str = "\
SELECT {127:a, }a FROM t => select({127:a }a; from t)
SELECT {127:a, }a, a FROM t => fault 389
SELECT {127:a, }a, => fault 389
SELECT {127:t.a, }t.b FROM t => select({127:t.a }t.b; from t)
SELECT {127:t.a, }t.b, t.c FROM t => fault 645
SELECT {127:COUNT(*), }SUM(a) FROM t => select({127:count(*) }sum(a); from t)
SELECT {127:COUNT(*), }SUM(a), a FROM t => fault 1283
SELECT {127:a, }COUNT(*) FROM t => select({127:a }count(*); from t)
SELECT {127:a, }COUNT(*) FROM t, u => fault 403
SELECT {127:a, }* FROM t => fault 388
SELECT {127:a, }FROM t => fault 388
SELECT a FROM t GROUP BY {127:a, }a => select(a; from t; group {127:a }a)
SELECT a FROM t GROUP BY {127:a, }a, a => fault 407
SELECT a FROM t GROUP BY {127:t.a, }b ORDER BY 1 => select(a; from t; group {127:t.a }b; order 1)
SELECT a FROM t GROUP BY {127:t.a, }b, c ORDER BY 1 => fault 661
SELECT a FROM t ORDER BY {127:1, }1 => select(a; from t; order {127:1 }1)
SELECT a FROM t ORDER BY {127:1, }1, 1 => fault 407
SELECT a FROM t ORDER BY {127:a DESC, }2 ASC LIMIT 5 => select(a; from t; order {127:a desc }2; limit 5)
SELECT a FROM t ORDER BY {127:a DESC, }2 ASC, a LIMIT 5 => fault 1046
SELECT a, b FROM t, u ORDER BY {127:t.a ASC, }u.b DESC => select(a b; from t u; order {127:t.a }u.b desc)
SELECT {127:a, }b FROM t GROUP BY {127:a, }b ORDER BY {127:a, }b LIMIT 1 => select({127:a }b; from t; group {127:a }b; order {127:a }b; limit 1)
SELECT {127:a, }b FROM t GROUP BY {127:a, }b ORDER BY {127:a, }b, c LIMIT 1 => fault 1180";
