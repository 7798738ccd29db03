// Cases on conditions.

// Each comparison of numbers and of texts.
pub const COMPARISON_CASES: &str = "\
CREATE TABLE n (k INT, s TEXT)
    1,a
    2,ab
    3,b
SELECT k FROM n WHERE k = 2
    2
SELECT k FROM n WHERE k <> 2
    1
    3
SELECT k FROM n WHERE k != 2
    1
    3
SELECT k FROM n WHERE k < 2
    1
SELECT k FROM n WHERE k <= 2
    1
    2
SELECT k FROM n WHERE k > 2
    3
SELECT k FROM n WHERE k >= 2
    2
    3
SELECT k FROM n WHERE s = 'ab'
    2
SELECT k FROM n WHERE s <> 'ab'
    1
    3
SELECT k FROM n WHERE s != 'ab'
    1
    3
SELECT k FROM n WHERE s < 'ab'
    1
SELECT k FROM n WHERE s <= 'ab'
    1
    2
SELECT k FROM n WHERE s > 'ab'
    3
SELECT k FROM n WHERE s >= 'ab'
    2
    3
SELECT k FROM n WHERE 2 < k
    3
SELECT k FROM n WHERE 'b' = s
    3
SELECT k FROM n WHERE k > - 2 AND k < 002
    1
SELECT k FROM n WHERE n.k = k
    1
    2
    3
SELECT k FROM n WHERE 1 = 2
    no row
SELECT k FROM n WHERE 'a' < 'ab'
    1
    2
    3
SELECT k FROM n WHERE s > ''
    1
    2
    3";

// NOT binds closer than AND, and AND closer than OR.
pub const CONDITION_CASES: &str = "\
CREATE TABLE n (k INT, s TEXT)
    1,a
    2,ab
    3,b
SELECT k FROM n WHERE NOT k = 2
    1
    3
SELECT k FROM n WHERE NOT NOT k = 1
    1
SELECT k FROM n WHERE NOT (k = 1 OR s = 'b')
    2
SELECT k FROM n WHERE NOT (k >= 2 AND s = 'b')
    1
    2
SELECT k FROM n WHERE NOT k = 1 AND s <> 'b' OR k = 1
    1
    2
SELECT k FROM n WHERE NOT k = 1 AND (s <> 'b' OR k = 1)
    2
SELECT k FROM n WHERE k = 1 OR k = 2 AND s = 'b'
    1
SELECT k FROM n WHERE (k = 1 OR k = 2) AND s = 'ab'
    2
SELECT k FROM n WHERE k = 3 OR s = 'a' OR 2 = 1
    1
    3
SELECT k FROM n WHERE k > 0 AND k < 3 AND s > 'a'
    2
SELECT k FROM n WHERE k = 1 AND k = 2
    no row
SELECT k FROM n WHERE k = 1 OR NOT k = 1
    1
    2
    3
SELECT k FROM n WHERE NOT (NOT (k = 1 OR NOT (s = 'b' AND k >= 3)))
    1
    2
SELECT k FROM n WHERE ((k = 2 OR k = 3) AND NOT (s = 'ab' OR s = 'a')) OR (k = 1 AND NOT s = 'x')
    1
    3
SELECT COUNT(*) FROM n WHERE NOT k < 2
    2";

// Texts are ordered by their bytes, also past ASCII, and each quote in them is written twice.
pub const TEXT_CASES: &str = "\
CREATE TABLE w (s TEXT)
    z
    é
    日本
    Z
    😀
    ～
    zé
CREATE TABLE q (n INT, s TEXT)
    1,it's
    2,
    3,'
    4,''
SELECT MIN(s), MAX(s) FROM w
    'Z'|'😀'
SELECT s FROM w ORDER BY s
    'Z'
    'z'
    'zé'
    'é'
    '日本'
    '～'
    '😀'
SELECT MIN(s), MAX(s), COUNT(s) FROM w WHERE s > 'zz' AND s < '～'
    'zé'|'日本'|3
SELECT s FROM w WHERE s = 'é' OR s >= '日本語'
    'é'
    '😀'
    '～'
SELECT s FROM w WHERE s < 'a'
    'Z'
SELECT s FROM q
    'it''s'
    ''
    ''''
    ''''''
SELECT n FROM q WHERE s = 'it''s'
    1
SELECT n FROM q WHERE s = ''
    2
SELECT n FROM q WHERE s = '''' OR s = ''''''
    3
    4
SELECT MIN(s), MAX(s) FROM q
    ''|'it''s'
SELECT s, n FROM q ORDER BY s DESC
    'it''s'|1
    ''''''|4
    ''''|3
    ''|2
SELECT s, COUNT(*) FROM q WHERE n <= 2 GROUP BY s
    'it''s'|1
    ''|1";
