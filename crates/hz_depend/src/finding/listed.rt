//! The cycles of a true dependence by the bypasses as they are listed, without a table.

ghost use Rattle.std.specs.Prelude.{◌≡◌, ◌==◌, ◌<◌, ◌&&◌, ℕ, filter, length, map, slice_index};
ghost use Rattle.std.specs.List.{list_any};
ghost use Rattle.hz_block_model.specs.Dependences.Classes.{bypass_between, number_between};
ghost use Rattle.hz_checked.specs.Shape.{bypass_of};
ghost use Rattle.hz_depend.specs.GraphShape.{latencies_of};
ghost use Rattle.hz_depend.specs.Numbers.{has_guard};
ghost use Rattle.hz_rtl.specs.Shape.{instruction};

use crate::finding::numbers::{is_asked, served};
use hz_checked::{Checked, CheckedBypass};
use hz_rtl::Insn;

/// Whether the class is in the list.
fn has_class(classes: &[u32], class: u32) -> bool
    ensures { result ≡ list_any (λ n. n == class) classes.now }
{
    for listed in classes {
        if *listed == class {
            return true;
        }
    }
    false
}

/// Whether the bypass lists the first class among its outs and the second among its ins.
fn lists_both(bypass: &CheckedBypass, out: u32, into: u32) -> bool
    ensures { result ≡ (list_any (λ n. n == out) bypass.now.outs.items && list_any (λ n. n == into) bypass.now.ins.items) }
{
    has_class(&bypass.outs, out) && has_class(&bypass.ins, into)
}

/// The number of the first bypass with the guard, or of the first without it, that lists both classes.
fn number_listed(bypasses: &[CheckedBypass], guard: bool, out: u32, into: u32) -> Option<u32>
    ensures { result ≡ bypass_between (filter (has_guard guard) (map bypass_of bypasses.now)) out into }
{
    for bypass in bypasses {
        if is_asked(bypass, guard) && lists_both(bypass, out, into) {
            return Some(bypass.number);
        }
    }
    None
}

/// The cycles from a producer of a class to a consumer of a class that reads what it makes, where all is ready then: those of the
/// first bypass with the guard that lists both classes, where the consumer only stores what is made; else those of a bypass without
/// it that lists both; else the latency of the producing class. It takes no memory. docs/RULES.md, 'Dependences'.
pub fn ripe(
    checked: &Checked,
    producer: &Insn,
    producer_class: u32,
    consumer: &Insn,
    consumer_class: u32,
) -> u32
    requires { producer_class < length checked.now.classes.items }
    ensures { result ≡ number_between (map bypass_of checked.now.bypasses.items) (slice_index (latencies_of checked.now) producer_class) producer_class consumer_class (instruction producer.now) (instruction consumer.now) }
{
    let guarded = number_listed(&checked.bypasses, true, producer_class, consumer_class);
    let plain = number_listed(&checked.bypasses, false, producer_class, consumer_class);
    let latency = checked.classes[producer_class as usize].latency;
    served(guarded, plain, latency, producer, consumer)
}
