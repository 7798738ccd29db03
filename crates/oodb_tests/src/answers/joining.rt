// Cases on several places.

// Joins of two to four places: each combination that meets the condition, the last place moving fastest.
pub const JOIN_CASES: &str = "\
CREATE TABLE o (id INT, cust INT, note TEXT)
    1,10,new
    2,20,late
    3,10,late
CREATE TABLE i (ord INT, part TEXT, qty INT)
    1,p,5
    1,q,1
    3,p,2
    9,r,7
CREATE TABLE c (id INT, name TEXT)
    10,Ann
    20,Bob
    30,Cy
CREATE TABLE e (x INT)
SELECT o.id, part FROM o, i WHERE ord = o.id
    1|'p'
    1|'q'
    3|'p'
SELECT part, id FROM i, o WHERE ord = id
    'p'|1
    'q'|1
    'p'|3
SELECT o.id, c.id FROM o, c
    1|10
    1|20
    1|30
    2|10
    2|20
    2|30
    3|10
    3|20
    3|30
SELECT * FROM o, c WHERE cust = c.id
    1|10|'new'|10|'Ann'
    2|20|'late'|20|'Bob'
    3|10|'late'|10|'Ann'
SELECT * FROM c, o WHERE cust = c.id AND note <> 'new'
    10|'Ann'|3|10|'late'
    20|'Bob'|2|20|'late'
SELECT cust FROM o, c WHERE cust = 10
    10
    10
    10
    10
    10
    10
SELECT o.id, qty FROM o, i WHERE qty > o.id AND note = 'late'
    2|5
    2|7
    3|5
    3|7
SELECT name, part, qty FROM o, i, c WHERE o.id = ord AND cust = c.id ORDER BY qty DESC
    'Ann'|'p'|5
    'Ann'|'p'|2
    'Ann'|'q'|1
SELECT part, name, o.id FROM i, c, o WHERE ord = 1 AND c.id = cust
    'p'|'Ann'|1
    'p'|'Ann'|3
    'p'|'Bob'|2
    'q'|'Ann'|1
    'q'|'Ann'|3
    'q'|'Bob'|2
SELECT a.id, b.id, x.part, y.part FROM o a, o b, i x, i y WHERE a.cust = b.cust AND a.id < b.id AND x.ord = a.id AND y.ord = b.id
    1|3|'p'|'p'
    1|3|'q'|'p'
SELECT o.id FROM o, e
    no row
SELECT name FROM e, o, i, c
    no row
SELECT o.id FROM o, i WHERE ord = o.id ORDER BY o.id DESC LIMIT 2
    3
    1
SELECT o.id, part FROM o, i WHERE ord = o.id ORDER BY o.id DESC, part DESC
    3|'p'
    1|'q'
    1|'p'
SELECT part, name FROM i, c WHERE part = 'r' OR name = 'Cy' AND qty = 5
    'p'|'Cy'
    'r'|'Ann'
    'r'|'Bob'
    'r'|'Cy'";

// A table beside itself.
pub const SELF_JOIN_CASES: &str = "\
CREATE TABLE t (a INT, b INT)
    1,2
    2,3
CREATE TABLE c (id INT, name TEXT)
    30,Cy
    10,Ann
    20,Bob
SELECT x.a, y.b FROM t x, t y WHERE x.b = y.a ORDER BY 1
    1|3
SELECT a FROM t x, t y
    ambiguous 7
SELECT x.a FROM t x, t x
    duplicate-alias 23
SELECT * FROM t x, t y
    1|2|1|2
    1|2|2|3
    2|3|1|2
    2|3|2|3
SELECT t.a, y.a FROM t, t y WHERE t.a < y.a
    1|2
SELECT x.a, y.a, z.a, w.b FROM t AS x, t y, t z, t w WHERE x.a = y.a AND y.a = z.a AND z.b = w.a
    1|1|1|3
SELECT x.name, y.name FROM c x, c y WHERE x.name < y.name
    'Ann'|'Cy'
    'Ann'|'Bob'
    'Bob'|'Cy'
SELECT * FROM c, c d WHERE c.id < d.id ORDER BY 4 DESC, 2
    10|'Ann'|30|'Cy'
    20|'Bob'|30|'Cy'
    10|'Ann'|20|'Bob'
SELECT x.a FROM t x, t y, t z WHERE x.a = 1 AND y.a = 2
    1
    1
SELECT d.name, c.name FROM c, c d WHERE NOT c.id <> d.id
    'Cy'|'Cy'
    'Ann'|'Ann'
    'Bob'|'Bob'";
