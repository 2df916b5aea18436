//! Laws of groups of items that are alike, and of runs of numbers.

ghost use Rattle.std.specs.Prelude.{◌≡◌, ◌↔◌, ℕ, suc, ◌<◌, ◌≤◌, Bool, true, List, All, Option, Some, Contains, length, slice_get};
ghost use Rattle.std.specs.Cmp.{IsEquivalence};
ghost use Rattle.std.specs.List.{AllPairs, flat_map};
ghost use Rattle.hz_pipeline_model.specs.Accepting.Plays.{Tells};
ghost use Rattle.hz_why_model.specs.Groups.{group_texts};
ghost use Rattle.hz_why_model.specs.Lists.{runs};
ghost use Rattle.hz_why_model.specs.Reasons.{Reason, are_alike};
ghost use Rattle.hz_why_laws.specs.Grouped.{Leads, group_at, IsNumberOf, IsTheGroupOf, leading, text_at, numbers_of, AreApart};

/// A group has exactly the numbers of the items that are alike to its first, and they ascend.
pub fn groups_have_what_is_alike<A>()
    ensures ascend { (alike : A → A → Bool) (items : List A) (place : ℕ) → AllPairs (λ m n. m < n) (group_at alike items place) }
    ensures members { (alike : A → A → Bool) → IsEquivalence alike → (items : List A) (place : ℕ) (first : A) → slice_get items place ≡ Some first → Leads alike items place → (number : ℕ) → Contains (group_at alike items place) number ↔ IsNumberOf alike items first number }
{}

/// The number of each item is in exactly one group.
pub fn items_are_in_one_group<A>()
    ensures { (alike : A → A → Bool) → IsEquivalence alike → (items : List A) (i : ℕ) → i < length items → (place : ℕ) × IsTheGroupOf alike items (suc i) place }
{}

/// What is written of items in groups is a text for each group, in the order of their first items.
pub fn texts_are_those_of_groups<A>()
    ensures places { (alike : A → A → Bool) (items : List A) (place : ℕ) → Contains (leading alike items) place ↔ Leads alike items place }
    ensures order { (alike : A → A → Bool) (items : List A) → AllPairs (λ m n. m < n) (leading alike items) }
    ensures texts { (alike : A → A → Bool) (text : List ℕ → A → List ℕ) (items : List A) → group_texts alike text items ≡ flat_map (text_at alike items text) (leading alike items) }
{}

/// Where a test tells units apart, alternatives are alike exactly if what forbids them is the same: so a group has exactly the
/// alternatives with its reason.
pub fn alternatives_are_alike_by_their_reasons<U>()
    ensures same { (same : U → U → Bool) → Tells same → (a b : Option (Reason U)) → (are_alike same a b ≡ true) ↔ (a ≡ b) }
    ensures group { (same : U → U → Bool) → Tells same → (reasons : List (Option (Reason U))) (place : ℕ) (reason : Option (Reason U)) → slice_get reasons place ≡ Some reason → Leads (are_alike same) reasons place → (i : ℕ) → i < length reasons → Contains (group_at (are_alike same) reasons place) (suc i) ↔ (slice_get reasons i ≡ Some reason) }
{}

/// The numbers of runs are the numbers, in their order; and no run goes on with the next one.
pub fn runs_have_the_numbers()
    ensures numbers { (numbers : List ℕ) → flat_map numbers_of (runs numbers) ≡ numbers }
    ensures order { (numbers : List ℕ) → All (λ run. run.first ≤ run.last) (runs numbers) }
    ensures apart { (numbers : List ℕ) → AreApart (runs numbers) }
{}
