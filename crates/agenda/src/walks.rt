//! Laws of a walk over the places that are marked.
//!
//! The function does nothing: its contract is the law. This project's own.

ghost use Rattle.std.specs.Prelude.{◌≡◌, ◌<◌, ◌+◌, ◌||◌, ℕ, false, nat_eq, List, [], ◌∷◌, ◌++◌, length, take, drop, slice_index};
ghost use Rattle.std.specs.List.{IsDistinct, list_any};
ghost use Rattle.agenda.specs.Marked.{none_marked, AreListed};

/// A walk over listed places by their index meets each of them once.
///
/// Whether a place is listed is so of the lists on both sides of an index, and with the place at that
/// index of those on both sides of the next; none of a list of distinct places stands before or after
/// its index once more. Where no place is marked, just the marked ones are listed.
pub fn walk_law()
    ensures appended { (k : ℕ) (xs ys : List ℕ) →
        list_any (nat_eq k) (xs ++ ys) ≡ (list_any (nat_eq k) xs || list_any (nat_eq k) ys) }
    ensures pushed { (k n : ℕ) (xs : List ℕ) →
        list_any (nat_eq k) (xs ++ n ∷ []) ≡ (list_any (nat_eq k) xs || nat_eq k n) }
    ensures to_come { (k i : ℕ) (xs : List ℕ) → i < length xs →
        list_any (nat_eq k) (drop i xs) ≡
        (nat_eq k (slice_index xs i) || list_any (nat_eq k) (drop (i + 1) xs)) }
    ensures behind { (k i : ℕ) (xs : List ℕ) → i < length xs →
        list_any (nat_eq k) (take (i + 1) xs) ≡
        (list_any (nat_eq k) (take i xs) || nat_eq k (slice_index xs i)) }
    ensures not_again { (i : ℕ) (xs : List ℕ) → IsDistinct nat_eq xs → i < length xs →
        list_any (nat_eq (slice_index xs i)) (drop (i + 1) xs) ≡ false }
    ensures not_before { (i : ℕ) (xs : List ℕ) → IsDistinct nat_eq xs → i < length xs →
        list_any (nat_eq (slice_index xs i)) (take i xs) ≡ false }
    ensures none { (count : ℕ) → AreListed (none_marked count) }
{}
