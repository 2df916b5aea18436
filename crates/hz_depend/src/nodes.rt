//! The instructions of a block with their classes and what they read and write.

ghost use Rattle.std.specs.Prelude.{◌≡◌, ◌≤◌, ◌<◌, true, length, map, None, IfOk, All};
ghost use Rattle.std.specs.Option.{option_map};
ghost use Rattle.hz_depend.specs.GraphShape.{first_class_fault};
ghost use Rattle.hz_depend.specs.Faults.{placed};
ghost use Rattle.hz_depend.specs.Held.{held, node_for};
ghost use Rattle.hz_depend.specs.Shape.{class_for};
ghost use Rattle.std.specs.Result.{is_ok};
ghost use Rattle.hz_block_model.specs.Running.Limits.{instruction_limit};

use crate::class::{ClassFault, class_of};
use crate::finding::access::{Access, access_of};
use hz_checked::Checked;
use hz_regexp::NoMemory;
use hz_rtl::Insn;
use std::alloc::Global;

/// An instruction with the number of its class, the latency of that in cycles, and what it reads and writes.
#[derive(Debug, Drop)]
pub struct Node<'a> {
    pub insn: &'a Insn,
    pub class: u32,
    pub latency: u32,
    pub access: Access,
}

/// The place of the first instruction whose class is wrong, and what is wrong.
pub fn first_class_fault(checked: &Checked, insns: &[Insn]) -> Option<(u32, ClassFault)>
    requires { length insns.now ≤ instruction_limit }
    ensures { option_map placed result ≡ first_class_fault 0 checked.now insns.now }
{
    for (place, insn) in insns.iter().enumerate() {
        if let Err(fault) = class_of(checked, insn) {
            return Some((place as u32, fault));
        }
    }
    None
}

/// An instruction whose class is not wrong.
fn node_of<'a>(alloc: Global, checked: &Checked, insn: &'a Insn) -> Result<Node<'a>, NoMemory>
    requires { is_ok (class_for checked.now insn.now) ≡ true }
    ensures held { IfOk result (λ node. held node ≡ node_for checked.now insn.now) }
    ensures within { IfOk result (λ node. node.class < length checked.now.classes.items) }
{
    let Ok(class) = class_of(checked, insn) else {
        unreachable!()
    };
    let access = access_of(alloc, insn)?;
    let latency = checked.classes[class as usize].latency;
    Ok(Node {
        insn,
        class,
        latency,
        access,
    })
}

/// The instructions of a block in which no class is wrong.
pub fn nodes_of<'a>(
    alloc: Global,
    checked: &Checked,
    insns: &'a [Insn],
) -> Result<Vec<Node<'a>>, NoMemory>
    requires { first_class_fault 0 checked.now insns.now ≡ None }
    ensures held { IfOk result (λ nodes. map held nodes.items ≡ map (node_for checked.now) insns.now) }
    ensures within { IfOk result (λ nodes. All (λ n. n.class < length checked.now.classes.items) nodes.items) }
{
    let mut nodes = Vec::new(alloc);
    for insn in insns {
        nodes.push(node_of(alloc, checked, insn)?)?;
    }
    Ok(nodes)
}
