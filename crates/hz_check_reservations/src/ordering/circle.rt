//! The first node of a graph that leads to itself.

ghost use Rattle.std.specs.Prelude.{◌≡◌, ◌↔◌, ◌<◌, ◌≤◌, ◌++◌, ◌∷◌, [], ℕ, IfOk, OnOk, length, replicate, slice_set, vec_len};
ghost use Rattle.std.specs.List.{Contains};
ghost use Rattle.hz_check_reservations.specs.Circles.{AddsStarts, IsTurned, IsFirstWith, IsReady, Takes, lead_of, knowledge_of, found, all_found, unknown};
ghost use Rattle.hz_check_reservations.specs.declared.ordering.circle.Lead.TheVariants.{Around as around};
ghost use Rattle.hz_check_reservations.specs.Graphs.{AreInside, ends_in, IsOnce, Path, Spans};
ghost use Rattle.hz_check_reservations.specs.Walks.{lists_of};

use crate::ordering::graph::ends_of;
use hz_regexp::NoMemory;
use std::alloc::Global;

/// So many lists that are empty.
fn empty_lists(alloc: Global, count: usize) -> Result<Vec<Vec<usize>>, NoMemory>
    ensures { IfOk result (λ lists. lists_of lists.items ≡ replicate count []) }
{
    let mut lists = Vec::new(alloc);
    while lists.len() < count {
        lists.push(Vec::new(alloc))?;
    }
    Ok(lists)
}

/// Adds a start of an edge to those that end at a node.
fn add_start(starts: &mut Vec<Vec<usize>>, end: usize, start: usize) -> Result<(), NoMemory>
    requires { end < vec_len starts.old }
    ensures { OnOk result (lists_of starts.new.items ≡ slice_set (lists_of starts.old.items) end (ends_in (lists_of starts.old.items) end ++ start ∷ [])) }
{
    starts[end].push(start)?;
    Ok(())
}

/// Adds the start of edges to those that end at their ends.
fn add_starts(starts: &mut Vec<Vec<usize>>, ends: &[usize], start: usize) -> Result<(), NoMemory>
    requires { (end : ℕ) → Contains ends.now end → end < vec_len starts.old }
    ensures { OnOk result (AddsStarts start ends.now (lists_of starts.old.items) (lists_of starts.new.items)) }
{
    for end in ends {
        add_start(starts, *end, start)?;
    }
    Ok(())
}

/// The starts of the edges that end at each node.
fn turned(alloc: Global, edges: &[Vec<usize>]) -> Result<Vec<Vec<usize>>, NoMemory>
    requires { AreInside (length edges.now) (lists_of edges.now) }
    ensures { IfOk result (λ starts. IsTurned (lists_of edges.now) (lists_of starts.items)) }
{
    let mut starts = empty_lists(alloc, edges.len())?;
    for node in 0..edges.len() {
        add_starts(&mut starts, ends_of(edges, node), node)?;
    }
    Ok(starts)
}

/// Where a node leads, as far as nodes were taken.
#[derive(Clone, Copy, Debug, PartialEq, Eq)]
enum Lead {
    /// To none of them.
    Nowhere,
    /// To some of them, and not to itself.
    Straight,
    /// To itself.
    Around,
}

/// What is known of the nodes.
#[derive(Drop)]
struct Labels {
    leads: Vec<Lead>,
    taken: Vec<bool>,
    /// Nodes that were found, and whose edges are not followed back.
    pending: Vec<usize>,
}

impl Labels {
    /// Finds that a node leads to the one that is taken now.
    fn find(&mut self, node: usize) -> Result<(), NoMemory>
        requires leads { node < vec_len self.old.leads }
        requires taken { node < vec_len self.old.taken }
        ensures { OnOk result (knowledge_of self.new ≡ found node (knowledge_of self.old)) }
    {
        if self.leads[node] != Lead::Nowhere {
            return Ok(());
        }
        self.pending.push(node)?;
        self.leads[node] = if self.taken[node] {
            Lead::Straight
        } else {
            Lead::Around
        };
        Ok(())
    }

    /// Finds that nodes lead to the one that is taken now.
    fn find_all(&mut self, nodes: &[usize]) -> Result<(), NoMemory>
        requires leads { (node : ℕ) → Contains nodes.now node → node < vec_len self.old.leads }
        requires taken { (node : ℕ) → Contains nodes.now node → node < vec_len self.old.taken }
        ensures { OnOk result (knowledge_of self.new ≡ all_found nodes.now (knowledge_of self.old)) }
    {
        for node in nodes {
            self.find(*node)?;
        }
        Ok(())
    }

    /// Knows nothing of so many nodes.
    fn new(alloc: Global, count: usize) -> Result<Labels, NoMemory>
        ensures { IfOk result (λ labels. knowledge_of labels ≡ unknown count) }
    {
        Ok(Labels {
            leads: vec![in alloc; Lead::Nowhere; count]?,
            taken: vec![in alloc; false; count]?,
            pending: Vec::new(alloc),
        })
    }

    /// Takes a node, and finds all that lead to it.
    fn take(&mut self, starts: &[Vec<usize>], node: usize) -> Result<(), NoMemory>
        requires node { node < length starts.now }
        requires leads { vec_len self.old.leads ≡ length starts.now }
        requires taken { vec_len self.old.taken ≡ length starts.now }
        requires inside { AreInside (length starts.now) (lists_of starts.now) }
        requires ready { IsReady (ends_in (lists_of starts.now)) (knowledge_of self.old) }
        ensures { OnOk result (Takes (ends_in (lists_of starts.now)) node (knowledge_of self.old) (knowledge_of self.new)) }
    {
        self.pending.push(node)?;
        while let Some(end) = self.pending.pop() {
            self.find_all(ends_of(starts, end))?;
        }
        self.taken[node] = true;
        Ok(())
    }

    /// The first node below a count that is found to lead to itself.
    fn first_around(&self, count: usize) -> Option<usize>
        requires { count ≤ vec_len self.now.leads }
        ensures { IsFirstWith (λ node. lead_of self.now.leads.items node ≡ around) count result }
    {
        for node in 0..count {
            if self.leads[node] == Lead::Around {
                return Some(node);
            }
        }
        None
    }
}

/// The first node below a count that leads to itself, where a walk has left all nodes in this order.
pub fn first_around(
    alloc: Global,
    edges: &[Vec<usize>],
    order: &[usize],
    count: usize,
) -> Result<Option<usize>, NoMemory>
    requires inside { AreInside (length edges.now) (lists_of edges.now) }
    requires count { count ≤ length edges.now }
    requires once { IsOnce order.now }
    requires spans { Spans (ends_in (lists_of edges.now)) order.now }
    requires all { (node : ℕ) → Contains order.now node ↔ (node < length edges.now) }
    ensures { IfOk result (IsFirstWith (λ node. Path (ends_in (lists_of edges.now)) node node) count) }
{
    let starts = turned(alloc, edges)?;
    let mut labels = Labels::new(alloc, edges.len())?;
    for i in (0..order.len()).rev() {
        labels.take(&starts, order[i])?;
    }
    Ok(labels.first_around(count))
}
