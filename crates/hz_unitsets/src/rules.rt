//! The set statements of an automaton, each once, which are asked of grids.

ghost use Rattle.std.specs.Prelude.{◌≡◌, ◌≢◌, ◌↔◌, ◌≤◌, map, length, All, IfOk, OnOk, IsTrue};
ghost use Rattle.std.specs.List.{AllPairs};
ghost use Rattle.hz_description_model.specs.Reservations.Sets.{Fits};
ghost use Rattle.hz_pipeline_model.specs.Accepting.Fitting.{AskTheSame, IsUnbroken};
ghost use Rattle.hz_unitsets.specs.SetRules.{statements_of, IsInRange, ordered};
ghost use Rattle.hz_unitsets.specs.RowRules.{statement_in, asked_statement, IsBounded, IsAsked, AllowsRows, Breaks, BreaksRow, IsKept, AreSame, IsBlock, FitsRow, Between, PassesRows};

use crate::row_rules::Rule;
use crate::set_rules::SetRule;
use hz_grid::{Grid, NoMemory, Row};
use indexmap::IndexSet;
use std::alloc::Global;
use std::marker::Model;

/// The set statements of an automaton, made to be asked of grids: no statement stands twice.
#[derive(Drop, Debug)]
pub struct Rules {
    rules: Vec<Asked>,
    blocks: Vec<Block>,
    triggers: Row<4>,
}

impl Model for Rules {
    ghost use Rattle.std.specs.Prelude.{List, ℕ, map};
    ghost use Rattle.hz_description_model.specs.Reservations.Sets.{Statement};
    ghost use Rattle.hz_unitsets.specs.RowRules.{asked_statement, AreBuilt};

    ghost Value = { List (Statement ℕ) };

    ghost view = { λ all. map asked_statement all.rules.items };

    ghost invariant = { λ all. AreBuilt all.rules.items all.blocks.items all.triggers };
}

// A rule, and the units whose addition may break it.
#[derive(Drop, Debug)]
struct Asked {
    rule: Rule,
    triggers: Row<4>,
}

// Neighbours among the rules, from one place to another, of which it is seen at once where they allow what is added: the
// units whose addition may break one, and their summary.
#[derive(Drop, Debug)]
struct Block {
    from: usize,
    to: usize,
    triggers: Row<4>,
    keys: Row<4>,
    wanted: Row<4>,
}

impl Rules {
    /// The rules of these statements: under them the same pairs fit, and no two are equal. The units of each are below
    /// `UNITS`. `NoMemory` where there was none.
    pub fn build(alloc: Global, sets: &[SetRule]) -> Result<Rules, NoMemory>
        requires { All IsInRange sets.now }
        ensures same { IfOk result (λ rules. AskTheSame rules (statements_of sets.now)) }
        ensures once { IfOk result (λ rules. AllPairs (λ one other. one ≢ other) rules) }
    {
        let mut rules = Vec::new(alloc);
        let mut triggers = Row::empty();
        for rule in distinct(alloc, sets)? {
            let asked = Asked::of(rule);
            triggers = triggers.join(asked.triggers);
            rules.push(asked)?;
        }
        let blocks = blocks_of(alloc, &rules)?;
        Ok(Rules {
            rules,
            blocks,
            triggers,
        })
    }

    /// Whether the added pairs fit what is reserved, both with cycles counted from the present one: no pair is in both, and
    /// each statement allows each cycle, the present one and all later ones. It takes no memory.
    pub fn fits(&self, source: &Grid, add: &Grid) -> bool
        ensures { IsTrue result ↔ Fits self.now source.now add.now 0 }
    {
        if !self.is_unbroken(source) {
            return false;
        }
        for cycle in 0..add.length() {
            if !self.fits_row(source, cycle, add.row(cycle)) {
                return false;
            }
        }
        true
    }

    /// Whether units that are added in one cycle fit a source that breaks no exclusion: none of them stands there, and each
    /// statement allows that cycle. Pairs fit exactly where the units of each of their cycles do. It takes no memory.
    pub fn fits_row(&self, source: &Grid, cycle: u16, units: Row<4>) -> bool
        requires { IsUnbroken self.now source.now }
        ensures { IsTrue result ↔ FitsRow self.now source.now cycle units }
    {
        let there = source.row(cycle);
        !there.meets(units) && self.allow_rows(there, units)
    }

    // Whether what is reserved breaks no exclusion.
    fn is_unbroken(&self, source: &Grid) -> bool
        ensures { IsTrue result ↔ IsUnbroken self.now source.now }
    {
        none_broken(&self.rules, source)
    }

    // Whether each rule allows a cycle with these rows, what stood there and what is added, where the first breaks none.
    fn allow_rows(&self, there: Row<4>, added: Row<4>) -> bool
        requires { All (λ s. ¬ BreaksRow s there) self.now }
        ensures { IsTrue result ↔ All (λ s. AllowsRows s there added) self.now }
    {
        !self.triggers.meets(added)
            || all_allow_rows_in_blocks(&self.rules, &self.blocks, there, added)
    }
}

// So many rules are in a block, or more where there are more than so many blocks of them.
const MANY: usize = 64;

// The blocks of the rules, and none where these are few.
fn blocks_of(alloc: Global, rules: &[Asked]) -> Result<Vec<Block>, NoMemory>
    requires { All IsAsked rules.now }
    ensures { IfOk result (λ blocks. All (IsBlock rules.now) blocks.items) }
{
    let mut blocks = Vec::new(alloc);
    let size = MANY.max(rules.len() / MANY);
    let mut from = 0;
    while rules.len() - from > size {
        let to = from + size;
        blocks.push(block_of(rules, from, to))?;
        from = to;
    }
    Ok(blocks)
}

// The block of the rules from one place to another.
fn block_of(rules: &[Asked], from: usize, to: usize) -> Block
    requires asked { All IsAsked rules.now }
    requires order { from ≤ to }
    requires within { to ≤ length rules.now }
    ensures block { IsBlock rules.now result }
    ensures from { result.from ≡ from }
    ensures to { result.to ≡ to }
{
    let mut triggers = Row::empty();
    let mut keys = Row::empty();
    let mut wanted = Row::empty();
    for place in from..to {
        let asked = &rules[place];
        let summary = asked.rule.summary();
        triggers = triggers.join(asked.triggers);
        keys = keys.join(summary.keys);
        wanted = wanted.join(summary.wanted);
    }
    Block {
        from,
        to,
        triggers,
        keys,
        wanted,
    }
}

// Whether each rule allows a cycle with these rows, what stood there and what is added, where the first breaks none. Blocks are
// passed over of which this is seen at once.
fn all_allow_rows_in_blocks(rules: &[Asked], blocks: &[Block], there: Row<4>, added: Row<4>) -> bool
    requires asked { All IsAsked rules.now }
    requires blocks { All (IsBlock rules.now) blocks.now }
    requires unbroken { All (λ asked. ¬ BreaksRow (asked_statement asked) there) rules.now }
    ensures { IsTrue result ↔ All (λ asked. AllowsRows (asked_statement asked) there added) rules.now }
{
    let mut next = 0;
    for block in blocks {
        if block.from == next {
            if !block_allows_rows(rules, block, there, added) {
                return false;
            }
            next = block.to;
        }
    }
    all_allow_rows(&rules[next..], there, added)
}

// The same of the rules of a block.
fn block_allows_rows(rules: &[Asked], block: &Block, there: Row<4>, added: Row<4>) -> bool
    requires asked { All IsAsked rules.now }
    requires block { IsBlock rules.now block.now }
    requires unbroken { All (λ asked. ¬ BreaksRow (asked_statement asked) there) rules.now }
    ensures { IsTrue result ↔ Between (λ asked. AllowsRows (asked_statement asked) there added) rules.now block.now.from block.now.to }
{
    passes_rows(block, there, added) || all_allow_rows(&rules[block.from..block.to], there, added)
}

// Whether it is seen that no rule of the block is broken in a cycle with these rows: by the units that are added, or by what
// stands there.
fn passes_rows(block: &Block, there: Row<4>, added: Row<4>) -> bool
    ensures { IsTrue result → PassesRows block.now there added }
{
    if !block.triggers.meets(added) {
        return true;
    }
    !block.keys.meets(there) && !block.keys.meets(added) && block.wanted.within(there)
}

// Whether the source breaks none of the rules.
fn none_broken(rules: &[Asked], source: &Grid) -> bool
    requires { All IsAsked rules.now }
    ensures { IsTrue result ↔ All (λ asked. ¬ Breaks (asked_statement asked) source.now) rules.now }
{
    rules.iter().all(|asked| !asked.rule.is_broken(source))
}

// Whether each rule allows a cycle with these rows, what stood there and what is added, where the first breaks none.
fn all_allow_rows(rules: &[Asked], there: Row<4>, added: Row<4>) -> bool
    requires asked { All IsAsked rules.now }
    requires unbroken { All (λ asked. ¬ BreaksRow (asked_statement asked) there) rules.now }
    ensures { IsTrue result ↔ All (λ asked. AllowsRows (asked_statement asked) there added) rules.now }
{
    rules.iter().all(|asked| asked.allows_rows(there, added))
}

// The rules of these statements, each once.
fn distinct(alloc: Global, sets: &[SetRule]) -> Result<IndexSet<Rule>, NoMemory>
    requires { All IsInRange sets.now }
    ensures bounded { IfOk result (λ rules. All IsBounded rules.keys) }
    ensures same { IfOk result (λ rules. AreSame (map statement_in rules.keys) (map ordered (statements_of sets.now))) }
    ensures once { IfOk result (λ rules. AllPairs (λ one other. one ≢ other) (map statement_in rules.keys)) }
{
    let mut rules = IndexSet::new(alloc);
    for set in sets {
        keep(&mut rules, Rule::build(alloc, set)?)?;
    }
    Ok(rules)
}

// Adds a rule after the others where no equal one stands.
fn keep(rules: &mut IndexSet<Rule>, rule: Rule) -> Result<(), NoMemory>
    requires rules { All IsBounded rules.old.keys }
    requires rule { IsBounded rule }
    ensures bounded { OnOk result (All IsBounded rules.new.keys) }
    ensures kept { OnOk result (IsKept (map statement_in rules.old.keys) (statement_in rule) (map statement_in rules.new.keys)) }
{
    rules.insert(rule)?;
    Ok(())
}

impl Asked {
    // The rule with its triggers.
    fn of(rule: Rule) -> Asked
        requires { IsBounded rule }
        ensures asked { IsAsked result }
        ensures statement { asked_statement result ≡ statement_in rule }
    {
        let triggers = rule.triggers();
        Asked { rule, triggers }
    }

    // Whether the rule allows a cycle with these rows, what stood there and what is added, where the first does not break it.
    // It is asked only where an added unit may break it.
    fn allows_rows(&self, there: Row<4>, added: Row<4>) -> bool
        requires asked { IsAsked self.now }
        requires unbroken { ¬ BreaksRow (asked_statement self.now) there }
        ensures { IsTrue result ↔ AllowsRows (asked_statement self.now) there added }
    {
        if !self.triggers.meets(added) {
            return true;
        }
        self.rule.allows_rows(there, added, there.join(added))
    }
}
