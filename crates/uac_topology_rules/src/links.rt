// The nodes that one node names.
ghost use Rattle.std.specs.Prelude.{◌≡◌, [], ◌∷◌, ◌++◌, OnOk, OnErr};

use std::alloc::{AllocError, Global};
use std::marker::Model;

/// The nodes that one node names, by their indexes, in the order in which it names them.
#[derive(Drop)]
pub struct Links {
    nodes: Vec<usize>,
}

impl Model for Links {
    ghost use Rattle.std.specs.Prelude.{List, ℕ};

    ghost Value = { List ℕ };

    ghost view = { λ l. l.nodes.items };
}

impl Links {
    /// No node. It takes no memory.
    pub fn new(alloc: Global) -> Links
        ensures { result ≡ [] }
    {
        Links {
            nodes: Vec::new(alloc),
        }
    }

    /// Names one more node, or leaves the links as they were.
    pub fn push(&mut self, node: usize) -> Result<(), AllocError>
        ensures named { OnOk result (self.new ≡ self.old ++ node ∷ []) }
        ensures unchanged { OnErr result (self.new ≡ self.old) }
    {
        match self.nodes.push(node) {
            Ok(()) => Ok(()),
            Err(_) => Err(AllocError),
        }
    }

    /// The nodes, lent.
    pub fn as_slice(&self) -> &[usize]
        ensures { result.now ≡ self.now }
    {
        self.nodes.as_slice()
    }
}
