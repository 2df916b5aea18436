//! A walk through a graph that leaves each node after those that its edges lead to.

ghost use Rattle.std.specs.Prelude.{◌≡◌, ◌+◌, ◌<◌, ◌^◌, IfOk, OnOk, OnSome, length, slice_get, vec_len};
ghost use Rattle.hz_check_reservations.specs.Graphs.{AreInside, ends_in, IsWalk};
ghost use Rattle.hz_check_reservations.specs.Walks.{begun, entered, left, lists_of, passed, state_of, stepped};

use crate::ordering::graph::ends_of;
use hz_regexp::NoMemory;
use std::alloc::Global;

/// How far a walk has come with a node.
#[derive(Clone, Copy, Debug, PartialEq, Eq)]
enum Mark {
    /// It was not seen.
    New,
    /// It was entered, and not left.
    Open,
    /// It was left.
    Done,
}

/// A node that was entered, with the number of its next edge.
#[derive(Clone, Copy, Debug)]
struct Frame {
    node: usize,
    next: usize,
}

/// A walk through a graph.
#[derive(Drop)]
pub struct Walk {
    marks: Vec<Mark>,
    frames: Vec<Frame>,
    /// The nodes in the order in which they were left.
    pub order: Vec<usize>,
    /// Whether an edge led to a node that was entered and not left.
    pub circular: bool,
}

impl Walk {
    /// Begins a walk at a root, among so many nodes.
    fn begin(alloc: Global, count: usize, root: usize) -> Result<Walk, NoMemory>
        requires { root < count }
        ensures { IfOk result (λ walk. state_of walk ≡ begun count root) }
    {
        let mut walk = Walk {
            marks: vec![in alloc; Mark::New; count]?,
            frames: Vec::new(alloc),
            order: Vec::new(alloc),
            circular: false,
        };
        walk.enter(root)?;
        Ok(walk)
    }

    /// Enters a new node.
    fn enter(&mut self, node: usize) -> Result<(), NoMemory>
        requires { node < vec_len self.old.marks }
        ensures { OnOk result (state_of self.new ≡ entered node (state_of self.old)) }
    {
        self.frames.push(Frame { node, next: 0 })?;
        self.marks[node] = Mark::Open;
        Ok(())
    }

    /// Goes along the next edge of a frame, to this node.
    fn pass(&mut self, frame: Frame, node: usize) -> Result<(), NoMemory>
        requires node { node < vec_len self.old.marks }
        requires next { frame.next + 1 < 2 ^ 64 }
        ensures { OnOk result (state_of self.new ≡ passed frame node (state_of self.old)) }
    {
        let next = frame.next + 1;
        self.frames.push(Frame {
            node: frame.node,
            next,
        })?;
        match self.marks[node] {
            Mark::New => self.enter(node)?,
            Mark::Open => self.circular = true,
            Mark::Done => {}
        }
        Ok(())
    }

    /// Goes on from a frame that was taken away.
    fn step(&mut self, edges: &[Vec<usize>], frame: Frame) -> Result<(), NoMemory>
        requires count { length edges.now ≡ vec_len self.old.marks }
        requires inside { AreInside (length edges.now) (lists_of edges.now) }
        requires node { frame.node < length edges.now }
        ensures { OnOk result (state_of self.new ≡ stepped (ends_in (lists_of edges.now)) frame (state_of self.old)) }
    {
        match next_end(edges, frame) {
            Some(node) => self.pass(frame, node),
            None => self.leave(frame.node),
        }
    }

    /// Leaves a node.
    fn leave(&mut self, node: usize) -> Result<(), NoMemory>
        requires { node < vec_len self.old.marks }
        ensures { OnOk result (state_of self.new ≡ left node (state_of self.old)) }
    {
        self.order.push(node)?;
        self.marks[node] = Mark::Done;
        Ok(())
    }
}

/// The end of the next edge of a frame, if there is one.
fn next_end(edges: &[Vec<usize>], frame: Frame) -> Option<usize>
    requires { frame.node < length edges.now }
    ensures end { result ≡ slice_get (ends_in (lists_of edges.now) frame.node) frame.next }
    ensures near { OnSome result (frame.next + 1 < 2 ^ 64) }
{
    ends_of(edges, frame.node).get(frame.next).copied()
}

/// Walks from a root along all edges, those of a node in their order.
pub fn walk_from(alloc: Global, edges: &[Vec<usize>], root: usize) -> Result<Walk, NoMemory>
    requires inside { AreInside (length edges.now) (lists_of edges.now) }
    requires root { root < length edges.now }
    ensures { IfOk result (λ walk. IsWalk (ends_in (lists_of edges.now)) root (length edges.now) walk.order.items walk.circular) }
{
    let mut walk = Walk::begin(alloc, edges.len(), root)?;
    while let Some(frame) = walk.frames.pop() {
        walk.step(edges, frame)?;
    }
    Ok(walk)
}
