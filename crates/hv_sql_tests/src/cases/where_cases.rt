// Cases on WHERE: a statement, ` => ` and what it is. `{N:piece}` is N times the piece.

// Comparisons.
pub const COMPARISON_CASES: &str = "\
SELECT * FROM t WHERE a = 1 => select(*; from t; where a = 1)
SELECT * FROM t WHERE a <> 1 => select(*; from t; where a <> 1)
SELECT * FROM t WHERE a != 1 => select(*; from t; where a <> 1)
SELECT * FROM t WHERE a < 1 => select(*; from t; where a < 1)
SELECT * FROM t WHERE a <= 1 => select(*; from t; where a <= 1)
SELECT * FROM t WHERE a > 1 => select(*; from t; where a > 1)
SELECT * FROM t WHERE a >= 1 => select(*; from t; where a >= 1)
SELECT * FROM t WHERE a<-1 => select(*; from t; where a < -1)
SELECT * FROM t WHERE a<=-1 => select(*; from t; where a <= -1)
SELECT * FROM t WHERE a<>-1 => select(*; from t; where a <> -1)
SELECT * FROM t WHERE a!=-1 => select(*; from t; where a <> -1)
SELECT * FROM t WHERE -1>=a => select(*; from t; where -1 >= a)
SELECT * FROM t WHERE 1 = - 2 => select(*; from t; where 1 = -2)
SELECT * FROM t WHERE 'x' = 'y' => select(*; from t; where 'x' = 'y')
SELECT * FROM t WHERE 1 = 'x' => select(*; from t; where 1 = 'x')
SELECT * FROM t WHERE a = a => select(*; from t; where a = a)
SELECT * FROM t, u WHERE t.a >= u . b => select(*; from t u; where t.a >= u.b)
select * from t where a='x'and b=1or c=2 => select(*; from t; where ((a = 'x' and b = 1) or c = 2))
SELECT * FROM t WHERE => fault 21
SELECT * FROM t WHERE WHERE a = 1 => fault 22
SELECT * FROM t WHERE = 1 => fault 22
SELECT * FROM t WHERE * => fault 22
SELECT * FROM t WHERE .a = 1 => fault 22
SELECT * FROM t WHERE COUNT(*) > 1 => fault 22
SELECT * FROM t WHERE NULL = a => fault 22
SELECT * FROM t WHERE SELECT a FROM t => fault 22
SELECT * FROM t WHERE ORDER BY a => fault 22
SELECT * FROM t WHERE a => fault 23
SELECT * FROM t WHERE 1 => fault 23
SELECT * FROM t WHERE 'x' => fault 25
SELECT * FROM t WHERE t.a => fault 25
SELECT * FROM t WHERE true => fault 26
SELECT * FROM t WHERE a.= 1 => fault 24
SELECT * FROM t WHERE t.a.b = 1 => fault 25
SELECT * FROM t WHERE a b = 1 => fault 24
SELECT * FROM t WHERE a 1 => fault 24
SELECT * FROM t WHERE a 'x' => fault 24
SELECT * FROM t WHERE a AND b = 1 => fault 24
SELECT * FROM t WHERE a IS NULL => fault 24
SELECT * FROM t WHERE a IS NOT NULL => fault 24
SELECT * FROM t WHERE a NOT = 1 => fault 24
SELECT * FROM t WHERE a BETWEEN 1 AND 2 => fault 24
SELECT * FROM t WHERE a LIKE 'x' => fault 24
SELECT * FROM t WHERE a IN (1, 2) => fault 24
SELECT * FROM t WHERE a + 1 = 2 => fault 24
SELECT * FROM t WHERE a - 1 = 2 => fault 24
SELECT * FROM t WHERE a * 2 = 2 => fault 24
SELECT * FROM t WHERE a(b) = 1 => fault 23
SELECT * FROM t WHERE a = => fault 25
SELECT * FROM t WHERE a = = => fault 26
SELECT * FROM t WHERE a == 1 => fault 25
SELECT * FROM t WHERE a =>1 => fault 25
SELECT * FROM t WHERE a =< 1 => fault 25
SELECT * FROM t WHERE a << 1 => fault 25
SELECT * FROM t WHERE a < > 1 => fault 26
SELECT * FROM t WHERE a > = 1 => fault 26
SELECT * FROM t WHERE a >< 1 => fault 25
SELECT * FROM t WHERE a <=> 1 => fault 26
SELECT * FROM t WHERE a <>= 1 => fault 26
SELECT * FROM t WHERE a !== 1 => fault 26
SELECT * FROM t WHERE a ! = 1 => fault 24
SELECT * FROM t WHERE a !!= 1 => fault 24
SELECT * FROM t WHERE a! 1 => fault 23
SELECT * FROM t WHERE a = +1 => fault 26
SELECT * FROM t WHERE a = --1 => fault 27
SELECT * FROM t WHERE a = -b => fault 27
SELECT * FROM t WHERE a = -'x' => fault 27
SELECT * FROM t WHERE a = -(1) => fault 27
SELECT * FROM t WHERE a = - => fault 27
SELECT * FROM t WHERE -a = 1 => fault 23
SELECT * FROM t WHERE a = (1) => fault 26
SELECT * FROM t WHERE a = (b) => fault 26
SELECT * FROM t WHERE a = (SELECT b FROM u) => fault 26
SELECT * FROM t WHERE a = NULL => fault 26
SELECT * FROM t WHERE a = NOT b => fault 26
SELECT * FROM t WHERE a = SUM(b) => fault 26
SELECT * FROM t WHERE a = * => fault 26
SELECT * FROM t WHERE a = b. => fault 28
SELECT * FROM t WHERE a = b.c.d => fault 29
SELECT * FROM t WHERE a = 1 = 1 => fault 28
SELECT * FROM t WHERE a < b < c => fault 28
SELECT * FROM t WHERE a = 1 + 1 => fault 28
SELECT * FROM t WHERE a = 1 - 1 => fault 28
SELECT * FROM t WHERE a = 1.5 => fault 27
SELECT * FROM t WHERE a = 1e5 => fault 27
SELECT * FROM t WHERE a = 0x10 => fault 27
SELECT * FROM t WHERE a = 1_000 => fault 27
SELECT * FROM t WHERE a = 1, b = 2 => fault 27
SELECT * FROM t WHERE a = 1 b => fault 28
SELECT * FROM t WHERE a = 1 WHERE b = 2 => fault 28
SELECT * FROM t WHERE a = 1 FROM u => fault 28
SELECT * FROM t WHERE a = 1 AS b => fault 28";

// Numbers and texts.
pub const VALUE_CASES: &str = "\
SELECT * FROM t WHERE a = 0 => select(*; from t; where a = 0)
SELECT * FROM t WHERE a = -0 => select(*; from t; where a = 0)
SELECT * FROM t WHERE a = 007 => select(*; from t; where a = 7)
SELECT * FROM t WHERE a = -007 => select(*; from t; where a = -7)
SELECT * FROM t WHERE a = 9223372036854775807 => select(*; from t; where a = 9223372036854775807)
SELECT * FROM t WHERE a = -9223372036854775807 => select(*; from t; where a = -9223372036854775807)
SELECT * FROM t WHERE a = -9223372036854775808 => select(*; from t; where a = -9223372036854775808)
SELECT * FROM t WHERE - 9223372036854775808 = a => select(*; from t; where -9223372036854775808 = a)
SELECT * FROM t WHERE a = -{50:0}9223372036854775808 => select(*; from t; where a = -9223372036854775808)
SELECT * FROM t WHERE a = {500:0}1 => select(*; from t; where a = 1)
SELECT * FROM t WHERE a = 9223372036854775808 => fault 26
SELECT * FROM t WHERE 9223372036854775808 = a => fault 22
SELECT * FROM t WHERE a = 009223372036854775808 => fault 26
SELECT * FROM t WHERE a = -9223372036854775809 => fault 27
SELECT * FROM t WHERE a = - 9223372036854775809 => fault 28
SELECT * FROM t WHERE -9223372036854775809 = a => fault 23
SELECT * FROM t WHERE a = 18446744073709551615 => fault 26
SELECT * FROM t WHERE a = 18446744073709551616 => fault 26
SELECT * FROM t WHERE a = 18446744073709551617 => fault 26
SELECT * FROM t WHERE a = -18446744073709551616 => fault 27
SELECT * FROM t WHERE a = -27670116110564327424 => fault 27
SELECT * FROM t WHERE a = 340282366920938463463374607431768211457 => fault 26
SELECT * FROM t WHERE a = {1000:1} => fault 26
SELECT * FROM t WHERE a = '' => select(*; from t; where a = '')
SELECT * FROM t WHERE a = 'x' => select(*; from t; where a = 'x')
SELECT * FROM t WHERE a = ' x ' => select(*; from t; where a = ' x ')
SELECT * FROM t WHERE a = 'it''s' => select(*; from t; where a = 'it's')
SELECT * FROM t WHERE a = '''' => select(*; from t; where a = ''')
SELECT * FROM t WHERE a = '''''' => select(*; from t; where a = '''')
SELECT * FROM t WHERE a = '''x''' => select(*; from t; where a = ''x'')
SELECT * FROM t WHERE a = 'x''''y' => select(*; from t; where a = 'x''y')
SELECT * FROM t WHERE a = 'SELECT;--\"' => select(*; from t; where a = 'SELECT;--\"')
SELECT * FROM t WHERE a = 'é' AND b = '日本' OR c = '😀' => select(*; from t; where ((a = 'é' and b = '日本') or c = '😀'))
SELECT * FROM t WHERE a = '{300:x}' => select(*; from t; where a = '{300:x}')
SELECT * FROM t WHERE a = '{300:é}' => select(*; from t; where a = '{300:é}')
SELECT * FROM t WHERE a = '{100:''}' => select(*; from t; where a = '{100:'}')
SELECT * FROM t WHERE 'x'<'y' => select(*; from t; where 'x' < 'y')
SELECT * FROM t WHERE a = ' => fault 26
SELECT * FROM t WHERE a = 'x => fault 26
SELECT * FROM t WHERE a = 'x AND b = 1 => fault 26
SELECT * FROM t WHERE a = ''' => fault 28
SELECT * FROM t WHERE a = 'x'' => fault 29
SELECT * FROM t WHERE a = 'x'' AND b = 1 => fault 29
SELECT * FROM t WHERE a = 'x''y''z => fault 32
SELECT * FROM t WHERE a = ''''' => fault 30
SELECT * FROM t WHERE a = {100:''}' => fault 226
SELECT * FROM t WHERE a = 'x' 'y' => fault 30
SELECT * FROM t WHERE a = 'x'y => fault 29
SELECT * FROM t WHERE a = x'y' => fault 27
SELECT * FROM t WHERE a = N'y' => fault 27
SELECT * FROM t WHERE a = \"x\" => fault 26
SELECT * FROM t WHERE a = é => fault 26
SELECT * FROM t WHERE a = bé => fault 27
SELECT * FROM t WHERE a = 'é' é => fault 31";

// AND, OR, NOT and parentheses.
pub const CONDITION_CASES: &str = "\
SELECT * FROM t WHERE a = 1 AND b = 2 => select(*; from t; where (a = 1 and b = 2))
SELECT * FROM t WHERE a = 1 AND b = 2 AND c = 3 => select(*; from t; where (a = 1 and b = 2 and c = 3))
SELECT * FROM t WHERE a = 1 OR b = 2 OR c = 3 => select(*; from t; where (a = 1 or b = 2 or c = 3))
SELECT * FROM t WHERE a = 1 OR b = 2 AND c = 3 => select(*; from t; where (a = 1 or (b = 2 and c = 3)))
SELECT * FROM t WHERE a = 1 AND b = 2 OR c = 3 => select(*; from t; where ((a = 1 and b = 2) or c = 3))
SELECT * FROM t WHERE a = 1 AND b = 2 OR c = 3 AND d = 4 OR e = 5 => select(*; from t; where ((a = 1 and b = 2) or (c = 3 and d = 4) or e = 5))
SELECT * FROM t WHERE (a = 1 AND b = 2) OR (c = 3 AND d = 4) => select(*; from t; where ((a = 1 and b = 2) or (c = 3 and d = 4)))
SELECT * FROM t WHERE a = 1 AND (b = 2 OR c = 3) => select(*; from t; where (a = 1 and (b = 2 or c = 3)))
SELECT * FROM t WHERE (a = 1 OR b = 2) AND c = 3 => select(*; from t; where ((a = 1 or b = 2) and c = 3))
SELECT * FROM t WHERE (a = 1 AND b = 2) AND c = 3 => select(*; from t; where ((a = 1 and b = 2) and c = 3))
SELECT * FROM t WHERE a = 1 AND (b = 2 AND c = 3) => select(*; from t; where (a = 1 and (b = 2 and c = 3)))
SELECT * FROM t WHERE (a = 1 OR b = 2) OR (c = 3 OR d = 4) => select(*; from t; where ((a = 1 or b = 2) or (c = 3 or d = 4)))
SELECT * FROM t WHERE a = 1 OR (b = 2 OR (c = 3 OR d = 4)) => select(*; from t; where (a = 1 or (b = 2 or (c = 3 or d = 4))))
SELECT * FROM t WHERE (a = 1) => select(*; from t; where a = 1)
SELECT * FROM t WHERE ((a = 1)) => select(*; from t; where a = 1)
SELECT * FROM t WHERE (a = 1 AND b = 2) => select(*; from t; where (a = 1 and b = 2))
SELECT * FROM t WHERE ((a = 1 OR b = 2)) => select(*; from t; where (a = 1 or b = 2))
SELECT * FROM t WHERE (a = 1) AND (b = 2) => select(*; from t; where (a = 1 and b = 2))
SELECT * FROM t WHERE ((a = 1) OR ((b = 2))) => select(*; from t; where (a = 1 or b = 2))
SELECT * FROM t WHERE NOT a = 1 => select(*; from t; where not a = 1)
SELECT * FROM t WHERE NOT NOT a = 1 => select(*; from t; where not not a = 1)
SELECT * FROM t WHERE NOT (a = 1) => select(*; from t; where not a = 1)
SELECT * FROM t WHERE NOT a = 1 AND b = 2 => select(*; from t; where (not a = 1 and b = 2))
SELECT * FROM t WHERE a = 1 AND NOT b = 2 OR NOT c = 3 => select(*; from t; where ((a = 1 and not b = 2) or not c = 3))
SELECT * FROM t WHERE NOT (a = 1 AND b = 2) => select(*; from t; where not (a = 1 and b = 2))
SELECT * FROM t WHERE NOT (NOT a = 1 OR b = 2) AND NOT ((c = 3)) => select(*; from t; where (not (not a = 1 or b = 2) and not c = 3))
select * from t where not(a=1)and(b<'x'or not c>=-3) => select(*; from t; where (not a = 1 and (b < 'x' or not c >= -3)))
SELECT * FROM t WHERE a = 1 aNd b = 2 oR nOt c = 3 => select(*; from t; where ((a = 1 and b = 2) or not c = 3))
SELECT * FROM t WHERE {199:a = 1 AND }a = 1 => select(*; from t; where ({199:a = 1 and }a = 1))
SELECT * FROM t WHERE {499:a = 1 OR }a = 1 => select(*; from t; where ({499:a = 1 or }a = 1))
SELECT * FROM t WHERE {50:a = 1 AND b = 2 OR }c = 3 => select(*; from t; where ({50:(a = 1 and b = 2) or }c = 3))
SELECT * FROM t WHERE {50:(a = 1 OR b = 2) AND }c = 3 => select(*; from t; where ({50:(a = 1 or b = 2) and }c = 3))
SELECT * FROM t WHERE {100:(a = 1) AND }NOT b = 2 => select(*; from t; where ({100:a = 1 and }not b = 2))
SELECT * FROM t WHERE AND a = 1 => fault 22
SELECT * FROM t WHERE OR a = 1 => fault 22
SELECT * FROM t WHERE a = 1 AND => fault 31
SELECT * FROM t WHERE a = 1 AND AND b = 2 => fault 32
SELECT * FROM t WHERE a = 1 AND OR b = 2 => fault 32
SELECT * FROM t WHERE a = 1 AND ) => fault 32
SELECT * FROM t WHERE a = 1 AND b => fault 33
SELECT * FROM t WHERE a = 1 AND b OR c = 3 => fault 34
SELECT * FROM t WHERE a = 1 OR => fault 30
SELECT * FROM t WHERE a = 1 OR AND b = 2 => fault 31
SELECT * FROM t WHERE a = 1 OR ORDER BY a => fault 31
SELECT * FROM t WHERE a = bAND c = 2 => fault 31
SELECT * FROM t WHERE NOT => fault 25
SELECT * FROM t WHERE NOT AND a = 1 => fault 26
SELECT * FROM t WHERE NOT = 1 => fault 26
SELECT * FROM t WHERE NOT a => fault 27
SELECT * FROM t WHERE a = 1 NOT b = 2 => fault 28
SELECT * FROM t WHERE a = 1 XOR b = 2 => fault 28
SELECT * FROM t WHERE a = 1 && b = 2 => fault 28
SELECT * FROM t WHERE a = 1 || b = 2 => fault 28
SELECT * FROM t WHERE ) => fault 22
SELECT * FROM t WHERE ( => fault 23
SELECT * FROM t WHERE () => fault 23
SELECT * FROM t WHERE (AND a = 1) => fault 23
SELECT * FROM t WHERE NOT () => fault 27
SELECT * FROM t WHERE (a) = 1 => fault 24
SELECT * FROM t WHERE (1) = a => fault 24
SELECT * FROM t WHERE (a AND b) => fault 25
SELECT * FROM t WHERE (SELECT a FROM t) = 1 => fault 23
SELECT * FROM t WHERE (a = 1 => fault 28
SELECT * FROM t WHERE (a = 1, b = 2) => fault 28
SELECT * FROM t WHERE (a = 1 AND => fault 32
SELECT * FROM t WHERE (a = 1 AND ) => fault 33
SELECT * FROM t WHERE (a = 1 OR b) => fault 33
SELECT * FROM t WHERE (a = 1 ORDER BY a) => fault 29
SELECT * FROM t WHERE (a = 1)) => fault 29
SELECT * FROM t WHERE ((a = 1) => fault 30
SELECT * FROM t WHERE (a = 1) (b = 2) => fault 30
SELECT * FROM t WHERE (a = 1) = 2 => fault 30
SELECT * FROM t WHERE (a = 1) b = 2 => fault 30
SELECT * FROM t WHERE (a = 1).b = 2 => fault 29
SELECT * FROM t WHERE a = 1) => fault 27
SELECT * FROM t WHERE a = 1 (b = 2) => fault 28";

// 64 levels of NOT and parentheses, and the token that passes them.
pub const DEPTH_CASES: &str = "\
SELECT * FROM t WHERE {64:NOT }a = 1 => select(*; from t; where {64:not }a = 1)
SELECT * FROM t WHERE {64:NOT }NOT a = 1 => fault 278
SELECT * FROM t WHERE {64:NOT }(a = 1) => fault 278
SELECT * FROM t WHERE {64:(}a = 1{64:)} => select(*; from t; where a = 1)
SELECT * FROM t WHERE {64:(}(a = 1{65:)} => fault 86
SELECT * FROM t WHERE {64:(}NOT a = 1{64:)} => fault 86
SELECT * FROM t WHERE {32:NOT (}a = 1{32:)} => select(*; from t; where {32:not }a = 1)
SELECT * FROM t WHERE {32:NOT (}NOT a = 1{32:)} => fault 182
SELECT * FROM t WHERE {32:NOT (}(a = 1){32:)} => fault 182
SELECT * FROM t WHERE {32:(NOT }a = 1{32:)} => select(*; from t; where {32:not }a = 1)
SELECT * FROM t WHERE {32:(NOT }(a = 1){32:)} => fault 182
SELECT * FROM t WHERE {40:NOT }{24:(}a = 1 OR b = 2{24:)} => select(*; from t; where {40:not }(a = 1 or b = 2))
SELECT * FROM t WHERE {40:NOT }{24:(}a = 1 OR NOT b = 2{24:)} => fault 215
SELECT * FROM t WHERE {63:(}a = 1 AND NOT b = 2{63:)} => select(*; from t; where (a = 1 and not b = 2))
SELECT * FROM t WHERE {63:(}a = 1 AND NOT NOT b = 2{63:)} => fault 99
SELECT * FROM t WHERE {63:(}a = 1 AND (b = 2 OR c = 3){63:)} => select(*; from t; where (a = 1 and (b = 2 or c = 3)))
SELECT * FROM t WHERE {63:(}a = 1 AND ((b = 2)){63:)} => fault 96
SELECT * FROM t WHERE {64:(}a = 1) OR NOT b = 2{63:)} => select(*; from t; where (a = 1 or not b = 2))
SELECT * FROM t WHERE {64:(}a = 1) OR NOT NOT b = 2{63:)} => fault 100
SELECT * FROM t WHERE {64:(}a = 1{64:)} AND {64:(}b = 2{64:)} => select(*; from t; where (a = 1 and b = 2))
SELECT * FROM t WHERE {64:NOT }a = 1 OR {64:NOT }b = 2 => select(*; from t; where ({64:not }a = 1 or {64:not }b = 2))
SELECT * FROM t WHERE {64:NOT }a = 1 OR {64:NOT }NOT b = 2 => fault 543
SELECT * FROM t WHERE {64:(a = 1 AND }b = 2{64:)} => select(*; from t; where {64:(a = 1 and }b = 2{64:)})
SELECT * FROM t WHERE {64:(a = 1 AND }(b = 2){64:)} => fault 726
SELECT * FROM t WHERE {32:(a = 1 OR (b = 2 AND }c = 3{64:)} => select(*; from t; where {32:(a = 1 or (b = 2 and }c = 3{64:)})
SELECT * FROM t WHERE {64:a = 1 AND (}b = 2{64:)} => select(*; from t; where {64:(a = 1 and }b = 2{64:)})
SELECT * FROM t WHERE {64:a = 1 OR (}b = 2 OR (c = 3){64:)} => fault 671
SELECT * FROM t WHERE {200:(NOT a = 1) OR }b = 2 => select(*; from t; where ({200:not a = 1 or }b = 2))
SELECT COUNT(*) FROM t WHERE {64:(}a = 1{64:)} GROUP BY b => select(count(*); from t; where a = 1; group b)
SELECT * FROM t WHERE {64:(}a = 1{63:)} => fault 154
SELECT * FROM t WHERE {64:(}a = 1{64:)}) => fault 155
SELECT * FROM t WHERE {64:(}) => fault 86
SELECT * FROM t WHERE {64:NOT }AND a = 1 => fault 278
SELECT * FROM t WHERE {64:NOT } => fault 278
SELECT * FROM t WHERE {64:(}{1000:(} => fault 86
SELECT * FROM t WHERE {64:NOT }{1000:NOT } => fault 278";
