// Building a diagram: the rules of its table, in the order in which they are tried.
ghost use Rattle.std.specs.Prelude.{◌≡◌, ℕ, ◌≤◌, length};
ghost use Rattle.refusal.specs.declared.table.Refusal.TheVariants.{BadNode, BadRoot};
ghost use Rattle.diagram.specs.Rules.{fit_branch, fit_node, fit_root, each, root_count};
ghost use Rattle.diagram.specs.Meaning.{tabled, built};

use crate::node::Node;
use crate::table::Diagram;
use crate::target::Target;
use design::check_sizes;
use refusal::Refusal;

impl Diagram {
    // The diagram of a table, or the first rule that the table breaks. Output o is read from `roots[o]`.
    pub fn new(
        inputs: u32,
        outputs: u32,
        nodes: Vec<Node>,
        roots: Vec<u32>,
    ) -> Result<Diagram, Refusal>
        ensures { tabled result ≡ built inputs outputs nodes.items roots.items }
    {
        check_sizes(inputs, outputs, nodes.len())?;
        check_nodes(inputs, &nodes)?;
        check_root_count(outputs, roots.len())?;
        check_roots(nodes.len(), &roots)?;
        Ok(Diagram {
            inputs,
            nodes,
            roots,
        })
    }
}

// Refuses a list of roots that has not one for each output.
fn check_root_count(outputs: u32, length: usize) -> Result<(), Refusal>
    ensures { result ≡ root_count outputs length }
{
    if length != outputs as usize {
        return Err(Refusal::RootCount { length });
    }
    Ok(())
}

// Refuses the lowest node that may not stand after those before it.
fn check_nodes(inputs: u32, nodes: &[Node]) -> Result<(), Refusal>
    ensures { result ≡ each (fit_node inputs nodes.now) BadNode 0 nodes.now }
{
    let bad = nodes
        .iter()
        .enumerate()
        .position(|(place, node)| !node.fits(inputs, &nodes[..place]));
    match bad {
        Some(place) => Err(Refusal::BadNode { place }),
        None => Ok(()),
    }
}

// Refuses the lowest output whose root is neither mark nor node.
fn check_roots(nodes: usize, roots: &[u32]) -> Result<(), Refusal>
    ensures { result ≡ each (fit_root nodes) BadRoot 0 roots.now }
{
    match roots.iter().position(|root| !fits_root(nodes, *root)) {
        Some(output) => Err(Refusal::BadRoot { output }),
        None => Ok(()),
    }
}

// A root leads to a mark or to one of so many nodes.
fn fits_root(nodes: usize, reference: u32) -> bool
    ensures { result ≡ fit_root nodes 0 reference }
{
    match Target::from(reference) {
        Target::Mark(_) => true,
        Target::Node(place) => place < nodes,
    }
}

impl Node {
    // Whether the node may stand after these: it tests an input, and its branches fit.
    fn fits(&self, inputs: u32, earlier: &[Node]) -> bool
        ensures { result ≡ fit_node inputs earlier.now (length earlier.now) self.now }
    {
        self.level < inputs && self.is_above(earlier, self.low) && self.is_above(earlier, self.high)
    }

    // Whether a reference leads to a mark, or to one of these nodes at a greater level.
    fn is_above(&self, earlier: &[Node], reference: u32) -> bool
        ensures { result ≡ fit_branch earlier.now (length earlier.now) self.now.level reference }
    {
        match Target::from(reference) {
            Target::Mark(_) => true,
            Target::Node(place) => earlier
                .get(place)
                .is_some_and(|node| node.level > self.level),
        }
    }
}
