//! The lines of issues that still hold something.

ghost use Rattle.std.specs.Prelude.{◌≡◌, ◌++◌, suc, OnOk, decimal, length};
ghost use Rattle.std.specs.List.{flat_map};
ghost use Rattle.hz_why_model.specs.Ways.{ago_text};
ghost use Rattle.hz_reasons.specs.Holding.{age_of};
ghost use Rattle.hz_explain.specs.Telling as reported;
ghost use Rattle.hz_explain.specs.Ways.{issue_words, taking_words, issue_reported, before_reported, issues_reported};

use crate::drawing::{add, add_number};
use crate::lists::add_narrow;
use crate::telling::{add_count, class_name};
use hz_grid::NoMemory;
use hz_mdread::Description;
use hz_reasons::Holder;
use itoa::Buffer;
use std::alloc::Global;

/// How many issues are written, at most.
const ISSUES: usize = 64;

/// Adds how many cycles ago something was, as a cycle that is counted from the present one.
#[tactic(auto, using(crate::proofs::WayLaws::ago_some))]
fn add_ago(text: &mut Vec<u8>, cycles: u16) -> Result<(), NoMemory>
    ensures { OnOk result (text.new.items ≡ text.old.items ++ ago_text cycles) }
{
    if cycles == 0 {
        return add(text, b"0");
    }
    add(text, b"-")?;
    add_number(text, u32::from(cycles))
}

/// Adds in which cycle an issue was, as a cycle that is counted from the present one.
fn add_cycle(text: &mut Vec<u8>, holder: Holder) -> Result<(), NoMemory>
    ensures { OnOk result (text.new.items ≡ text.old.items ++ ago_text (age_of holder)) }
{
    add_ago(text, holder.last.saturating_sub(holder.left))
}

/// Adds the number of an alternative, which is written from 1 on.
fn add_alternative_number(text: &mut Vec<u8>, number: usize) -> Result<(), NoMemory>
    ensures { OnOk result (text.new.items ≡ text.old.items ++ decimal (suc number)) }
{
    add(text, Buffer::new().format(number as u128 + 1).as_bytes())
}

/// Adds which issue it is.
fn add_issue_words(text: &mut Vec<u8>, desc: &Description, holder: Holder) -> Result<(), NoMemory>
    ensures { OnOk result (text.new.items ≡ text.old.items ++ issue_words (reported.class_name desc.now) holder) }
{
    add(text, b"line ")?;
    add_number(text, holder.line)?;
    add(text, b" ")?;
    add(text, class_name(desc, holder.class))
}

/// Adds in which cycle an issue was, and which alternative it took.
fn add_taking_words(text: &mut Vec<u8>, holder: Holder) -> Result<(), NoMemory>
    ensures { OnOk result (text.new.items ≡ text.old.items ++ taking_words holder) }
{
    add(text, b" in cycle ")?;
    add_cycle(text, holder)?;
    add(text, b" took alternative ")?;
    add_alternative_number(text, holder.number)?;
    Ok(())
}

/// Adds the line of an issue.
fn add_issue(
    alloc: Global,
    text: &mut Vec<u8>,
    desc: &Description,
    holder: Holder,
) -> Result<(), NoMemory>
    ensures { OnOk result (text.new.items ≡ text.old.items ++ issue_reported (reported.class_name desc.now) holder) }
{
    let mut line = Vec::new(alloc);
    add_issue_words(&mut line, desc, holder)?;
    add_taking_words(&mut line, holder)?;
    add_narrow(text, &line)?;
    add(text, b"\n")
}

/// Adds the lines of issues.
fn add_issues(
    alloc: Global,
    text: &mut Vec<u8>,
    desc: &Description,
    issues: &[Holder],
) -> Result<(), NoMemory>
    ensures { OnOk result (text.new.items ≡ text.old.items ++ flat_map (issue_reported (reported.class_name desc.now)) issues.now) }
{
    for holder in issues {
        add_issue(alloc, text, desc, *holder)?;
    }
    Ok(())
}

/// Adds the line that says how many issues come before those that are written, if any does.
fn add_before(text: &mut Vec<u8>, issues: usize) -> Result<(), NoMemory>
    ensures { OnOk result (text.new.items ≡ text.old.items ++ before_reported issues) }
{
    if issues <= ISSUES {
        return Ok(());
    }
    add(text, b"more issues before: ")?;
    add_count(text, issues - ISSUES)?;
    add(text, b"\n")
}

/// Adds the lines of the last of the issues that still hold something.
pub(crate) fn add_ways(
    alloc: Global,
    text: &mut Vec<u8>,
    desc: &Description,
    issues: &[Holder],
) -> Result<(), NoMemory>
    ensures { OnOk result (text.new.items ≡ text.old.items ++ issues_reported (reported.class_name desc.now) issues.now) }
{
    add_before(text, issues.len())?;
    let first = issues.len().saturating_sub(ISSUES);
    add_issues(alloc, text, desc, &issues[first..])
}
