// What the solver works on: arcs in chains, the flow on them, and the tree of a search.

ghost use Rattle.std.specs.Prelude.{length};
ghost use Rattle.hsp_network.specs.Index.{AreChains};
ghost use Rattle.hsp_network.specs.Graph.{Graph, Scale};

/// The arcs of each node in a chain, from the last of them back to the first. Arcs are counted from 1, and 0 stands
/// for no arc.
#[derive(Clone, Copy)]
pub struct Chains<'a> {
    /// The last arc of each node.
    pub lasts: &'a [usize],
    /// The arc before each arc in its chain.
    pub before: &'a [usize],
}

/// The nodes and arcs that a flow runs on. Each arc leads from a node to a lower one, in the order of their tails,
/// and node 0 is the sink. The nodes from `first` on are the sources.
#[derive(Drop)]
pub struct Arcs<'a> {
    pub first: u32,
    pub tails: &'a [u32],
    pub heads: &'a [u32],
    pub costs: &'a [u64],
    pub capacities: &'a [u64],
    /// What each node sends out.
    pub supplies: &'a [u64],
    /// The chains of the arcs that leave each node.
    pub last_leaving: &'a [usize],
    pub before_leaving: &'a [usize],
    /// The chains of the arcs that enter each node.
    pub last_entering: &'a [usize],
    pub before_entering: &'a [usize],
    /// No arc costs more than this.
    pub greatest_cost: u64,
    /// The limit on prices: `greatest_cost` for each node.
    pub price_bound: u64,
    /// The sum of `price_bound` and `greatest_cost`: no arc of a path adds more than this to a distance.
    pub longest_arc: u64,
    pub ghost graph: { Graph (length supplies.now) tails.now heads.now costs.now capacities.now
        supplies.now },
    pub ghost by_tail: { AreChains (length supplies.now) tails.now last_leaving.now
        before_leaving.now },
    pub ghost by_head: { AreChains (length supplies.now) heads.now last_entering.now
        before_entering.now },
    pub ghost scale: { Scale first (length supplies.now) tails.now heads.now costs.now greatest_cost
        price_bound longest_arc },
}

/// The lists of a network's arcs: `supplies` has an entry for each node, the other lists have one for each arc.
#[derive(Clone, Copy)]
pub struct ArcLists<'a> {
    pub tails: &'a [u32],
    pub heads: &'a [u32],
    pub costs: &'a [u64],
    pub capacities: &'a [u64],
    pub supplies: &'a [u64],
}

/// A flow with its prices. Per arc: what flows on it, and its residual capacity. Per node: its price, and its excess,
/// which is what of its supply is not sent on yet.
#[derive(Drop)]
pub struct Flow<'a> {
    pub flows: &'a mut [u64],
    pub residual_capacity: &'a mut [u64],
    pub price: &'a mut [u64],
    pub excess: &'a mut [u64],
}

/// How much work a run took: how many searches it began, how many nodes they settled, and along how many paths flow was
/// sent.
#[derive(Clone, Copy, Default)]
pub struct SearchEffort {
    pub searches: u64,
    pub settled: u64,
    pub augmentations: u64,
}

/// Per node: distance label, predecessor arc, bottleneck capacity of its path, and path length in arcs.
#[derive(Drop)]
pub struct SearchTree<'a> {
    pub distance: &'a mut [u64],
    pub predecessor: &'a mut [usize],
    pub amount: &'a mut [u64],
    pub depth: &'a mut [usize],
}

/// The tree of the present or the last search, and the work of all searches so far.
#[derive(Drop)]
pub struct Progress<'a> {
    pub tree: SearchTree<'a>,
    pub effort: SearchEffort,
}

/// A node that a search from `root` settles in its turn `turn`, at the distance `distance`.
#[derive(Clone, Copy)]
pub struct Visit {
    pub root: u32,
    pub node: u32,
    pub distance: u64,
    pub turn: usize,
}

/// The ways on from the node that is settled: `along` the arcs that leave it, or back over those that enter it.
#[derive(Clone, Copy)]
pub struct Ways {
    pub at: Visit,
    pub along: bool,
}

/// A way of length `distance` to the node `to`, by `arc` from the node `from`, for up to `amount`.
#[derive(Clone, Copy)]
pub struct Offer {
    pub arc: usize,
    pub from: u32,
    pub to: u32,
    pub distance: u64,
    pub amount: u64,
}
