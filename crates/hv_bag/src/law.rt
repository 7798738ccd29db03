// The laws of bags, which callers cite by these contracts.
ghost use Rattle.std.specs.Prelude.{◌≡◌, ℕ, ◌+◌, ◌≤◌, ◌↔◌, Bool, not, List, ◌++◌, map, length};
ghost use Rattle.std.specs.Cmp.{IsTotalOrder};
ghost use Rattle.std.specs.Cmp.Lexicographic.{slice_cmp};
ghost use Rattle.std.specs.List.{sum_by, filter, flat_map, fold};
ghost use Rattle.std.specs.List.Sorted.{IsPermutation, IsSorted};
ghost use Rattle.std.specs.Ordering.{eq_by_cmp};
ghost use Rattle.std.specs.declared.cmp.Ordering.{Ordering};
ghost use Rattle.hv_bag.specs.Bag.{SameBag, PartOf, TellsApart, TiesEqualsAlone, count};

/// Equality of bags is an equivalence; bags are added in any order, and what two sums have in common is cancelled.
/// This project's own. It does nothing: its contract is these laws.
pub fn bag_laws<T>()
    ensures itself { (xs : List T) → SameBag xs xs }
    ensures turned { (xs ys : List T) → SameBag xs ys → SameBag ys xs }
    ensures joined { (xs ys zs : List T) → SameBag xs ys → SameBag ys zs → SameBag xs zs }
    ensures added { (xs ys us vs : List T) → SameBag xs ys → SameBag us vs → SameBag (xs ++ us) (ys ++ vs) }
    ensures swapped { (xs ys : List T) → SameBag (xs ++ ys) (ys ++ xs) }
    ensures cancelled { (xs ys us vs : List T) → SameBag xs ys → SameBag (xs ++ us) (ys ++ vs) → SameBag us vs }
    ensures lengths { (xs ys : List T) → SameBag xs ys → length xs ≡ length ys }
{}

/// Equal bags are told by their counts, and are permutations of each other, where a test tells the values apart; permutations
/// are equal bags of any values. Counts are added, as ISO/IEC 9075's multiset union of all has it.
/// It does nothing: its contract is these laws.
pub fn count_laws<T>()
    ensures sums { (same : T → T → Bool) (x : T) (xs ys : List T) → count same x (xs ++ ys) ≡ count same x xs + count same x ys }
    ensures counted { (same : T → T → Bool) (xs ys : List T) → TellsApart same → SameBag xs ys ↔ ((x : T) → count same x xs ≡ count same x ys) }
    ensures permuted { (same : T → T → Bool) (xs ys : List T) → TellsApart same → SameBag xs ys → IsPermutation xs ys }
    ensures unmoved { (xs ys : List T) → IsPermutation xs ys → SameBag xs ys }
{}

/// A part of a bag has one rest, weighs at most the whole, and is told by counts that are at most those of the whole.
/// This project's own. It does nothing: its contract is these laws.
pub fn part_laws<T>()
    ensures itself { (xs : List T) → PartOf xs xs }
    ensures first { (xs ys : List T) → PartOf xs (xs ++ ys) }
    ensures joined { (xs ys zs : List T) → PartOf xs ys → PartOf ys zs → PartOf xs zs }
    ensures both { (xs ys : List T) → PartOf xs ys → PartOf ys xs → SameBag xs ys }
    ensures added { (xs ys us vs : List T) → PartOf xs ys → PartOf us vs → PartOf (xs ++ us) (ys ++ vs) }
    ensures one_rest { (whole part rest other : List T) → SameBag whole (part ++ rest) → SameBag whole (part ++ other) → SameBag rest other }
    ensures weighs { (weight : T → ℕ) (part whole : List T) → PartOf part whole → sum_by weight part ≤ sum_by weight whole }
    ensures counted { (same : T → T → Bool) (part whole : List T) → TellsApart same → PartOf part whole ↔ ((x : T) → count same x part ≤ count same x whole) }
    ensures parted { (test : T → Bool) (xs : List T) → SameBag xs (filter test xs ++ filter (λ x. not (test x)) xs) }
{}

/// What is computed of each member sees no order: a weight's sum, a map, a test, a list for each member; and a fold whose steps may
/// be exchanged, where a test tells the values apart. This project's own. It does nothing: its contract is these laws.
pub fn map_laws<T, U>()
    ensures weighed { (weight : T → ℕ) (xs ys : List T) → SameBag xs ys → sum_by weight xs ≡ sum_by weight ys }
    ensures mapped { (f : T → U) (xs ys : List T) → SameBag xs ys → SameBag (map f xs) (map f ys) }
    ensures filtered { (test : T → Bool) (xs ys : List T) → SameBag xs ys → SameBag (filter test xs) (filter test ys) }
    ensures listed { (f g : T → List U) (xs ys : List T) → ((x : T) → SameBag (f x) (g x)) → SameBag xs ys → SameBag (flat_map f xs) (flat_map g ys) }
    ensures folded { (same : T → T → Bool) (step : U → T → U) (start : U) (xs ys : List T) → TellsApart same
        → ((u : U) (x y : T) → step (step u x) y ≡ step (step u y) x) → SameBag xs ys → fold step start xs ≡ fold step start ys }
{}

/// Two sorted lists of one bag are one list, where the order ties equal values alone; such an order tells values apart, and its
/// order of lists is such an order of lists. This project's own. It does nothing: its contract is these laws.
pub fn order_laws<T>()
    ensures sorted { (cmp : T → T → Ordering) (xs ys : List T) → IsTotalOrder cmp → TiesEqualsAlone cmp → IsSorted cmp xs → IsSorted cmp ys
        → SameBag xs ys → xs ≡ ys }
    ensures apart { (cmp : T → T → Ordering) → IsTotalOrder cmp → TiesEqualsAlone cmp → TellsApart (eq_by_cmp cmp) }
    ensures lists { (cmp : T → T → Ordering) → TiesEqualsAlone cmp → TiesEqualsAlone (slice_cmp cmp) }
{}
