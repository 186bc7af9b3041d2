// The order in which the nodes of trees are met, from the top down and up again. Nothing is proved of it: only speed
// rests on it.
use jv_base::M;
use std::alloc::Global;

/// A place in the walk over the nodes.
#[derive(Clone, Copy)]
pub(crate) enum Place {
    /// A node is met.
    Before(u32),
    /// All nodes below it were met.
    Behind(u32),
}

/// For each node a child, and the next child of its parent; and a node without a parent.
#[derive(Drop)]
pub(crate) struct Children {
    first: Vec<Option<u32>>,
    next: Vec<Option<u32>>,
    top: Option<u32>,
}

impl Children {
    pub fn of(alloc: Global, parents: &[Option<u32>]) -> M<Children> {
        let count = parents.len();
        let mut children = Children {
            first: vec![in alloc; None; count]?,
            next: vec![in alloc; None; count]?,
            top: None,
        };
        for (node, parent) in parents.iter().enumerate() {
            children.add(node, parent);
        }
        Ok(children)
    }

    /// One more node.
    fn add(&mut self, node: usize, parent: &Option<u32>) {
        if node >= self.next.len() || node > 4_294_967_295 {
            return;
        }
        match parent {
            Some(parent) => self.add_below(node, *parent as usize),
            None => {
                self.next[node] = self.top;
                self.top = Some(node as u32);
            }
        }
    }

    fn add_below(&mut self, node: usize, parent: usize) {
        if parent < self.first.len() && node < self.next.len() && node <= 4_294_967_295 {
            self.next[node] = self.first[parent];
            self.first[parent] = Some(node as u32);
        }
    }

    /// Where the walk begins.
    pub fn begin(&self) -> Option<Place> {
        match self.top {
            Some(node) => Some(Place::Before(node)),
            None => None,
        }
    }

    /// The place behind another one.
    pub fn behind(&self, parents: &[Option<u32>], place: Place) -> Option<Place> {
        match place {
            Place::Before(node) => Some(self.below(node)),
            Place::Behind(node) => self.beside(parents, node),
        }
    }

    fn below(&self, node: u32) -> Place {
        match self.first.get(node as usize) {
            Some(Some(child)) => Place::Before(*child),
            _ => Place::Behind(node),
        }
    }

    fn beside(&self, parents: &[Option<u32>], node: u32) -> Option<Place> {
        if let Some(Some(next)) = self.next.get(node as usize) {
            return Some(Place::Before(*next));
        }
        match parents.get(node as usize) {
            Some(Some(parent)) => Some(Place::Behind(*parent)),
            _ => None,
        }
    }
}
