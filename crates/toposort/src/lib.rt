// Topological sort of an edge table by depth-first search: a port of util/toposort.rs.
#![tactic(auto)]

ghost use Rattle.std.specs.Prelude.{◌≡◌, [], ◌++◌, ℕ, suc, ◌≤◌, ◌<◌, length, drop, MatchOption};
ghost use Rattle.lists.specs.Outcome.{accepted};
ghost use Rattle.toposort.specs.Search.{next_edge, bad_edge, is_bad, move_of, node, parent_of, hops, climb, state_at, Reaches, searched};
ghost use Rattle.toposort.specs.Sorting.{Sorts, Within, Chainable, Chained, Follows, Moves, Ready, sort_of, kept as kept_by, refusal_of, answer_of};
ghost use Rattle.toposort.specs.Lent.{graph_in};
ghost use Rattle.toposort.specs.declared.State.TheVariants.{Open, Closed};

mod edge_table;

pub use edge_table::EdgeTable;
use obj::Refusal;

// The root's record: the last of the 1,025.
const ROOT: usize = 1024;

// "A node's record holds its state: unseen, open with next edge and parent, or closed."
#[derive(Clone, Copy)]
pub enum State {
    Unseen,
    Open { next: u16, parent: u16 },
    Closed,
}

#[derive(Clone, Copy)]
pub struct Node {
    pub state: State,
}

const UNSEEN: Node = Node {
    state: State::Unseen,
};

// Why there is no order: the edges close a cycle of so many nodes, which the table holds; the edge of this number joins no node; or the table is too short.
#[derive(Clone, Copy)]
pub enum Unsorted {
    Cycle(usize),
    NoNode(u32),
    Short,
}

// Document 01's number, section and address for each of them.
impl From<Unsorted> for Refusal {
    ghost from_gives = { λ why r. r ≡ refusal_of why };

    fn from(why: Unsorted) -> Refusal {
        match why {
            Unsorted::Cycle(_) => Refusal::new(61, 0, 0),
            Unsorted::NoNode(e) => Refusal::new(62, 0, e),
            Unsorted::Short => Refusal::new(76, 0, 0),
        }
    }
}

// What an open node does next: the root has opened every node, a node has passed its last edge, or an edge is taken (where the node's next
// edge is looked for then, and the node that the edge enters).
#[derive(Clone, Copy)]
pub enum Move {
    Finish,
    Close,
    Take(usize, usize),
}

// Whether edge e comes from or goes to no node.
fn is_bad(graph: &EdgeTable, e: usize) -> bool
    requires { e < length graph.now.from.now }
    ensures { result ≡ is_bad graph.now.count graph.now.from.now graph.now.to.now e }
{
    graph.count <= graph.from[e] as usize || graph.count <= graph.to[e] as usize
}

// The first edge from or to no node.
pub fn bad_edge(graph: &EdgeTable) -> Option<usize>
    ensures { MatchOption result (bad_edge graph.now.count graph.now.from.now graph.now.to.now ≡ length graph.now.from.now)
        (λ e. (e ≡ bad_edge graph.now.count graph.now.from.now graph.now.to.now) × (e < length graph.now.from.now)) }
{
    (0..graph.from.len()).find(|e| is_bad(graph, *e))
}

// Chains the edges by the node that they leave, so that a node's next edge is found without a search: from the last edge to the first,
// each is put before its node's chain. The two are written here alone, as slices of the caller's arrays; `EdgeChains` is what is read.
pub fn chain_edges(from: &[u16], heads: &mut [u16], chain: &mut [u16])
    requires { Chainable from.now heads.old chain.old }
    ensures { Chained from.now heads.new chain.new }
{
    heads.fill(from.len() as u16);
    // by number, from behind: a loop over `iter().enumerate().rev()` was tried, and its proof did not close: the invariant can name the items that came, and not the place
    for i in (0..from.len()).rev() {
        let v = from[i] as usize;
        chain[i] = heads[v];
        heads[v] = i as u16;
    }
}

// The edges by the node that they leave, as `chain_edges` makes them: each node's first edge, and after each edge the next one of its node.
#[derive(Clone, Copy)]
pub struct EdgeChains<'h, 'c> {
    pub heads: &'h [u16],
    pub chain: &'c [u16],
}

// The edge that a place of `heads` or `chain` names: a node that has no further edge holds the number of edges there, since a place is two
// bytes of a lent column, which an `Option` does not fit.
fn edge_of(place: u16, edges: usize) -> Option<usize>
    ensures { MatchOption result (edges ≤ place) (λ e. (e ≡ place) × (e < edges)) }
{
    let e = place as usize;
    (e < edges).then_some(e)
}

// The first edge at or after `start` that leaves `v`. `start` is 0 or comes right after an edge that leaves `v`.
pub fn next_edge(from: &[u16], chains: &EdgeChains, v: usize, start: usize) -> Option<usize>
    requires { Follows from.now chains.now.heads.now chains.now.chain.now v start }
    ensures { MatchOption result (next_edge from.now v start ≡ length from.now) (λ e. (e ≡ next_edge from.now v start) × (e < length from.now)) }
{
    if start == 0 {
        return edge_of(chains.heads[v], from.len());
    }
    edge_of(chains.chain[start - 1], from.len())
}

fn open(next: usize, parent: usize) -> Node
    requires { (next < 65536) × (parent < 65536) }
    ensures { result ≡ node (Open next parent) }
{
    Node {
        state: State::Open {
            next: next as u16,
            parent: parent as u16,
        },
    }
}

fn closed() -> Node
    ensures { result ≡ node Closed }
{
    Node {
        state: State::Closed,
    }
}

fn parent_of(s: State) -> usize
    ensures { result ≡ parent_of s }
{
    match s {
        State::Open { next: _, parent } => parent as usize,
        State::Unseen | State::Closed => ROOT,
    }
}

// How many open nodes lie on the way from `from` up to `top`, both counted.
pub fn cycle_length(nodes: &[Node; 1025], top: usize, from: usize) -> usize
    requires { Reaches nodes.now top from }
    ensures { result ≡ suc (hops 1025 nodes.now top from) }
{
    // no count: a way up along the parents
    let mut cur = from;
    let mut k = 1;
    while cur != top {
        cur = parent_of(nodes[cur].state);
        k += 1;
    }
    k
}

// The k nodes from `from` upwards, the uppermost first, at the front of the table.
pub fn write_cycle(nodes: &[Node; 1025], from: usize, k: usize, table: &mut [u16])
    requires { (k ≤ length table.old) × ((v : ℕ) → parent_of (state_at nodes.now v) < 1025) × (from < 1025) }
    ensures { table.new ≡ climb k nodes.now from [] ++ drop k table.old }
{
    let mut cur = from;
    for left in (0..k).rev() {
        table[left] = cur as u16;
        cur = parent_of(nodes[cur].state);
    }
}

// What the open node `cur` does, whose edges before `next` are passed.
pub fn next_move(graph: &EdgeTable, chains: &EdgeChains, cur: usize, next: usize) -> Move
    requires { Moves (graph_in graph.now) chains.now.heads.now chains.now.chain.now cur next }
    ensures { result ≡ move_of (graph_in graph.now) cur next }
{
    if cur == ROOT {
        if next == graph.count {
            return Move::Finish;
        }
        return Move::Take(next + 1, next);
    }
    // by `map_or` was tried: it proves, and each turn of the search takes some three instructions more
    match next_edge(graph.from, chains, cur, next) {
        None => Move::Close,
        Some(e) => Move::Take(e + 1, graph.to[e] as usize),
    }
}

// The search proper: closed nodes are written from the end of the table's first n places downwards, so the last closed stands first. All 1,025 records are unseen at first, but the root's:
// they are made here, where they are lent, since LLVM copies all of them once where a function answers them.
pub fn search(graph: &EdgeTable, chains: &EdgeChains, table: &mut [u16]) -> Result<usize, Unsorted>
    requires { Ready (graph_in graph.now) chains.now.heads.now chains.now.chain.now table.old }
    ensures { Sorts (accepted (searched (graph_in graph.now))) (length table.old) result table.new }
{
    let mut nodes = [UNSEEN; 1025];
    nodes[ROOT] = open(0, ROOT);
    let mut left = graph.count;
    let mut cur = ROOT;
    // no count: a turn enters a node, leaves one, or passes an edge, as the graph has them
    loop {
        let State::Open { next, parent } = nodes[cur].state else {
            return Err(Unsorted::Short);
        };
        match next_move(graph, chains, cur, next as usize) {
            Move::Finish => return Ok(graph.count),
            Move::Close => {
                nodes[cur] = closed();
                left -= 1;
                table[left] = cur as u16;
                cur = parent as usize;
            }
            Move::Take(after, adj) => {
                nodes[cur] = open(after, parent as usize);
                match nodes[adj].state {
                    State::Unseen => {
                        nodes[adj] = open(0, cur);
                        cur = adj;
                    }
                    State::Open { next: _, parent: _ } => {
                        let k = cycle_length(&nodes, adj, cur);
                        write_cycle(&nodes, cur, k, table);
                        return Err(Unsorted::Cycle(k));
                    }
                    State::Closed => {}
                }
            }
        }
    }
}

// The order of the nodes, or a cycle, at the front of the table; or a refusal, with whatever in the table.
pub fn toposort(graph: &EdgeTable, table: &mut [u16]) -> Result<usize, Unsorted>
    requires { Within (graph_in graph.now) }
    ensures { Sorts (sort_of (graph_in graph.now) (length table.old)) (length table.old) result table.new }
{
    if let Some(e) = bad_edge(graph) {
        return Err(Unsorted::NoNode(e as u32));
    }
    if table.len() < graph.count {
        return Err(Unsorted::Short);
    }
    let mut heads = [0u16; 1024];
    let mut chain = [0u16; 2048];
    chain_edges(graph.from, &mut heads, &mut chain);
    let chains = EdgeChains {
        heads: &heads,
        chain: &chain,
    };
    search(graph, &chains, table)
}

// ---- what an answer leaves and says

// How many nodes the answer leaves in the table.
pub fn kept(r: Result<usize, Unsorted>) -> usize
    ensures { result ≡ kept_by r }
{
    match r {
        Ok(n) => n,
        Err(Unsorted::Cycle(k)) => k,
        Err(Unsorted::NoNode(_) | Unsorted::Short) => 0,
    }
}

// The answer as a check's: a refusal, or nothing.
pub fn answer_of(r: Result<usize, Unsorted>) -> Result<(), Refusal>
    ensures { result ≡ answer_of r }
{
    r?;
    Ok(())
}
