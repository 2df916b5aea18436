//! What leads to a block, by columns.

ghost use Rattle.std.specs.Prelude.{◌≡◌, ◌<◌, ℕ, OnOk, vec_len};
ghost use Rattle.std.specs.List.{Contains};
ghost use Rattle.hz_minim.specs.declared.arrows.Arrow.{Arrow};
ghost use Rattle.hz_minim.specs.Lists.{lists_of, list_at};
ghost use Rattle.hz_minim.specs.Buckets.{AddsArrows, AreBuckets};
ghost use Rattle.hz_minim.specs.Moves.{IsListed};

use crate::arrows::Arrow;
use crate::lists::{add, at, clear_all};
use crate::partition::Partition;
use hz_tables::NoMemory;

// Adds the source of each arrow to the bucket of its column.
fn add_arrows(buckets: &mut Vec<Vec<u32>>, arrows: &[Arrow]) -> Result<(), NoMemory>
    requires { (arrow : Arrow) → Contains arrows.now arrow → arrow.column < vec_len buckets.old }
    ensures { OnOk result (AddsArrows arrows.now (lists_of buckets.old.items) (lists_of buckets.new.items)) }
{
    for arrow in arrows {
        add(buckets, arrow.column, arrow.source)?;
    }
    Ok(())
}

/// Makes each bucket the list of the states that lead to a block in its column.
pub fn fill(
    buckets: &mut Vec<Vec<u32>>,
    arrows: &[Vec<Arrow>],
    partition: &Partition,
    block: u32,
) -> Result<(), NoMemory>
    requires columns { (target : ℕ) (arrow : Arrow) → Contains (list_at (lists_of arrows.now) target) arrow → arrow.column < vec_len buckets.old }
    requires listed { IsListed partition.now.blocks.items (lists_of partition.now.members.items) }
    ensures size { OnOk result (vec_len buckets.new ≡ vec_len buckets.old) }
    ensures buckets { OnOk result (AreBuckets (lists_of arrows.now) partition.now.blocks.items block (lists_of buckets.new.items)) }
{
    clear_all(buckets);
    for state in at(&partition.members, block) {
        if partition.blocks[*state as usize] == block {
            add_arrows(buckets, at(arrows, *state))?;
        }
    }
    Ok(())
}
