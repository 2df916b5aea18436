//! Laws of products.

ghost use Rattle.std.specs.Prelude.{◌≡◌, ◌↔◌, ◌<◌, ℕ, List, length, All};
ghost use Rattle.hz_pipeline_model.specs.Tables.Machines.{Machine};
ghost use Rattle.hz_same_model.specs.Telling.{TellsApart};
ghost use Rattle.hz_same_model.specs.Products.{Product, IsDifference, HasNoDifference, move_of, start_of, product_of};
ghost use Rattle.hz_same_model.specs.Groups.{group_of};

/// The differences of the product of two machines are the traces that tell the machines apart.
pub fn differences_tell_machines_apart()
    ensures { (first second : Machine) (before : List ℕ) (last : ℕ) → TellsApart first second before last ↔ IsDifference (move_of (product_of first second)) (product_of first second).symbols (start_of (product_of first second)) before last }
{}

/// Where each group of automata has no difference, the product has none, however they are grouped.
pub fn products_of_groups()
    ensures { (p : Product) (groups others : List ℕ) (count : ℕ) → length p.first ≡ length groups → length p.second ≡ length others → All (λ g. g < count) groups → All (λ g. g < count) others → ((group : ℕ) → group < count → HasNoDifference (move_of (group_of p groups others group)) p.symbols (start_of (group_of p groups others group))) → HasNoDifference (move_of p) p.symbols (start_of p) }
{}
