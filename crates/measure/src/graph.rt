ghost use Rattle.std.specs.Prelude.{◌≡◌, ℕ, ◌<◌, ◌^◌, List, []};
ghost use Rattle.measure.specs.Graph.{node_of, step, successors, leads_to, nodes_apart, none_closed};

use crate::node::Node;
use anyhow::{Context, Result, ensure};
use jv_fix::{CloseStop, Forcing, Seen, Steps, close};
use std::alloc::{AllocError, Global};
use std::marker::Brand;
use std::sync::ledger::{Blank, Ledger};

/// The graph of so many nodes.
#[derive(Drop)]
struct Graph {
    size: u32,
    ghost some: { 0 < size },
}

impl Graph {
    /// The node of a number.
    fn node(number: u32) -> Node
        ensures { result ≡ node_of number }
    {
        Node {
            kind: u64::from(number % 4),
            method: u64::from(number / 1024),
            place: u64::from(number / 4),
            number,
        }
    }

    /// A successor, by two factors.
    #[tactic(auto, using(std::proofs::lemmas::Nat::mod_below))]
    fn next(&self, node: &Node, factor: u32, term: u32) -> Node
        ensures { result ≡ node_of (step self.now.size factor term node.now.number) }
    {
        let size = self.size;
        let number = u64::from(node.number) * u64::from(factor) + u64::from(term);
        Graph::node((number % u64::from(size)) as u32)
    }

    /// The four successors.
    fn successors(&self, node: &Node) -> [Node; 4]
        ensures { result ≡ successors self.now.size node.now }
    {
        [
            self.next(node, 1664525, 1013904223),
            self.next(node, 22695477, 12345),
            self.next(node, 69069, 5),
            self.next(node, 3, 1),
        ]
    }
}

impl Forcing for Graph {
    type Fact = Node;

    ghost forces = { λ graph. leads_to graph.size };

    ghost bound = { λ _. [] };

    fn force(
        &self,
        fact: &Node,
        _found: &Seen<Node>,
        out: &mut Vec<Node>,
    ) -> Result<(), AllocError> {
        out.extend_from_slice(&self.successors(fact))
    }

    ghost exact = { nodes_apart };

    ghost bounded = { λ graph. none_closed graph.size };
}

/// How many nodes are reached from the first one.
fn reached<L: Ledger>(alloc: Global, blank: Blank, size: u32) -> Result<usize, CloseStop>
    requires name { blank.name ≡ L.name }
    requires parts { blank.parts ≡ L.parts }
    requires some { 0 < blank.parts }
    requires size { 0 < size }
{
    let mut steps = Steps::<L>::new(blank);
    let seeds = [Graph::node(0)];
    let found = close(alloc, &Graph { size }, &seeds, u64::MAX, &mut steps)?;
    Ok(found.facts().len())
}

/// Closes a graph of so many nodes from one of them, and prints how many it found.
pub fn measure_close(rt: &HostRuntime, size: u32) -> Result<()> {
    ensure!(size > 0, "no nodes");
    let count = reached::<Brand>(rt.alloc(), Blank::new(1), size)
        .ok()
        .context("no memory")?;
    println!(rt; "{count}")?;
    Ok(())
}
