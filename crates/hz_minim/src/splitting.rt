//! Splitting of blocks by what leads to a block.

ghost use Rattle.std.specs.Prelude.{◌≡◌, ℕ, OnOk, length, vec_len};
ghost use Rattle.hz_pipeline_model.specs.Tables.Tables.{IsTable};
ghost use Rattle.hz_pipeline_model.specs.Least.Blocks.{KeepsApart};
ghost use Rattle.hz_tables.specs.Rows.{Rows};
ghost use Rattle.hz_minim.specs.Arrows.{AreArrows, AreWithin};
ghost use Rattle.hz_minim.specs.Kept.{AreBelow, IsKept, StayApart, StaysApart};
ghost use Rattle.hz_minim.specs.Lists.{lists_of, list_at};

use crate::arrows::Arrow;
use crate::buckets::fill;
use crate::lists::grow;
use crate::marks::Marks;
use crate::partition::Partition;
use hz_tables::NoMemory;
use std::alloc::Global;

// Splits each block that has some of these states, and not these alone.
fn split(
    alloc: Global,
    partition: &mut Partition,
    marks: &mut Marks,
    states: &[u32],
) -> Result<(), NoMemory>
    requires states { AreBelow (length partition.old.blocks.items) states.now }
    requires kept { IsKept (length partition.old.blocks.items) partition.old marks.old }
    ensures kept { OnOk result (IsKept (length partition.old.blocks.items) partition.new marks.new) }
    ensures apart { OnOk result (StaysApart states.now partition.old.blocks.items partition.new.blocks.items) }
{
    let old = marks.of_blocks.len();
    marks.count_all(&partition.blocks, states)?;
    marks.settle_all()?;
    grow(alloc, &mut partition.members, marks.of_blocks.len())?;
    partition.move_all(&marks.of_blocks, old, states)?;
    Ok(())
}

// Splits blocks by each of these lists of states.
fn split_all(
    alloc: Global,
    partition: &mut Partition,
    marks: &mut Marks,
    lists: &[Vec<u32>],
) -> Result<(), NoMemory>
    requires states { (place : ℕ) → AreBelow (length partition.old.blocks.items) (list_at (lists_of lists.now) place) }
    requires kept { IsKept (length partition.old.blocks.items) partition.old marks.old }
    ensures kept { OnOk result (IsKept (length partition.old.blocks.items) partition.new marks.new) }
    ensures apart { OnOk result (StayApart (lists_of lists.now) partition.old.blocks.items partition.new.blocks.items) }
{
    for list in lists {
        split(alloc, partition, marks, list)?;
    }
    Ok(())
}

/// Splits blocks by what leads to a block in each column.
pub fn turn(
    alloc: Global,
    arrows: &[Vec<Arrow>],
    partition: &mut Partition,
    marks: &mut Marks,
    buckets: &mut Vec<Vec<u32>>,
    block: u32,
) -> Result<(), NoMemory>
    requires arrows { AreWithin (length partition.old.blocks.items) (vec_len buckets.old) (lists_of arrows.now) }
    requires kept { IsKept (length partition.old.blocks.items) partition.old marks.old }
    ensures kept { OnOk result (IsKept (length partition.old.blocks.items) partition.new marks.new) }
    ensures buckets { OnOk result (vec_len buckets.new ≡ vec_len buckets.old) }
    ensures apart { OnOk result ((plain : Rows) → IsTable plain.rows plain.columns → AreArrows plain (lists_of arrows.now) → KeepsApart plain.rows partition.old.blocks.items → KeepsApart plain.rows partition.new.blocks.items) }
{
    fill(buckets, arrows, partition, block)?;
    split_all(alloc, partition, marks, buckets)?;
    Ok(())
}
