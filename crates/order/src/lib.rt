// The link order: the units of the splits as a graph, sorted, and the unit records in that order or on a cycle.
#![tactic(auto)]

mod records;

ghost use Rattle.std.specs.Prelude.{◌≡◌, ◌/◌, length};
ghost use Rattle.tables.specs.Records.{units_in};
ghost use Rattle.splits.specs.Table.{rows_of};
ghost use Rattle.toposort.specs.Sorting.{sort_of};
ghost use Rattle.link_graph.specs.Graph.{graph_of};
ghost use Rattle.link_graph.specs.Tables.{given_of, NamesBelow, SameLent};
ghost use Rattle.order.specs.LinkOrder.{link_order};
ghost use Rattle.order.specs.declared.Unlinked.TheVariants.{Refused};
ghost use Rattle.order.specs.Columns.{kept as kept_by, refusal_of, unlinked_of, answer_of, Resolves, Sortable, Lent};

use link_graph::{LinkGraph, LinkTables, make_graph};
use obj::Refusal;
use order_numbers::{order_twice, order_units};
use outputs::room_for;
use records::write_records;
use toposort::{EdgeTable, Unsorted};

// Why there is no link order: a refusal, or "61 cycle, left in the unit table", of so many unit records.
#[derive(Clone, Copy)]
pub enum Unlinked {
    Refused(Refusal),
    Cycle(usize),
}

impl From<Refusal> for Unlinked {
    ghost from_gives = { λ r e. e ≡ Refused r };

    fn from(r: Refusal) -> Unlinked {
        Unlinked::Refused(r)
    }
}

// Document 01's number, section and address for each of them.
impl From<Unlinked> for Refusal {
    ghost from_gives = { λ why r. r ≡ refusal_of why };

    fn from(why: Unlinked) -> Refusal {
        match why {
            Unlinked::Cycle(_) => Refusal::new(61, 0, 0),
            Unlinked::Refused(refusal) => refusal,
        }
    }
}

// Why the sort gives no order, said of the unit records.
impl From<Unsorted> for Unlinked {
    ghost from_gives = { λ why r. r ≡ unlinked_of why };

    fn from(why: Unsorted) -> Unlinked {
        match why {
            Unsorted::Cycle(k) => Unlinked::Cycle(k),
            Unsorted::NoNode(_) | Unsorted::Short => Unlinked::Refused(Refusal::from(why)),
        }
    }
}

// How many unit records stand at the front of the unit table.
pub fn kept(r: Result<usize, Unlinked>) -> usize
    ensures { result ≡ kept_by r }
{
    match r {
        Ok(n) => n,
        Err(Unlinked::Cycle(k)) => k,
        Err(Unlinked::Refused(_)) => 0,
    }
}

// The answer as a check's: a refusal, or nothing.
pub fn answer_of(r: Result<usize, Unlinked>) -> Result<(), Refusal>
    ensures { result ≡ answer_of r }
{
    r?;
    Ok(())
}

// The sort of the graph, in the lent `table`, which is for the work; the records of the nodes that it leaves are written to the front of `out`.
// `table` and `out` are no columns of one table: the first is for the work, the second the caller's.
fn sort_graph(
    tables: &LinkTables,
    graph: &mut LinkGraph,
    table: &mut [u16],
    out: &mut [u8],
) -> Result<usize, Unlinked>
    requires { Sortable tables.now graph.old table.old }
    ensures resolves { Resolves (rows_of tables.now.splits) (units_in tables.now.units.bytes.now tables.now.units.places.now)
        (sort_of (graph_of (given_of tables.now)) (length out.old / 8)) result out.old out.new }
    ensures lent { SameLent graph.old graph.new }
{
    let n = graph.count;
    let e = graph.edges;
    // "1,024 units"
    let room = room_for(1024, 8, out.len());
    let edges = EdgeTable {
        count: n,
        from: &graph.from[..e],
        to: &graph.to[..e],
    };
    let r = toposort::toposort(&edges, &mut table[..room]);
    let m = toposort::kept(r);
    write_records(tables, graph.column, &graph.nodes[..n], &table[..m], out);
    r.map_err(Unlinked::from)
}

// The stage: 60, then the graph and its sort. `numbers`, `scratch` and `graph` are for the work, and what they hold at first is of no matter; each is for a thing of its own,
// so they are no columns of one table.
pub fn resolve_link_order(
    tables: &LinkTables,
    numbers: &mut [u16],
    scratch: &mut [u16],
    graph: &mut LinkGraph,
    out: &mut [u8],
) -> Result<usize, Unlinked>
    requires { Lent tables.now numbers.old scratch.old graph.old }
    ensures resolves { Resolves (rows_of tables.now.splits) (units_in tables.now.units.bytes.now tables.now.units.places.now)
        (link_order (given_of tables.now) (length out.old / 8)) result out.old out.new }
    ensures lent { SameLent graph.old graph.new }
{
    let k = order_units(&tables.units, numbers, scratch);
    if order_twice(&tables.units, &numbers[..k]) {
        return Err(Unlinked::from(Refusal::new(60, 0, 0)));
    }
    make_graph(tables, &mut numbers[..k], graph);
    sort_graph(tables, graph, scratch, out)
}

// The stage, with columns of its own: the units that have an order, a number of each name, the nodes and the edges.
pub fn ordered(tables: &LinkTables, out: &mut [u8]) -> Result<usize, Unlinked>
    requires { NamesBelow tables.now 4096 }
    ensures { Resolves (rows_of tables.now.splits) (units_in tables.now.units.bytes.now tables.now.units.places.now)
        (link_order (given_of tables.now) (length out.old / 8)) result out.old out.new }
{
    let mut numbers = [0u16; 1024];
    let mut scratch = [0u16; 1024];
    let mut column = [0u16; 4096];
    let mut nodes = [0u16; 1024];
    let mut from = [0u16; 2048];
    let mut to = [0u16; 2048];
    let mut graph = LinkGraph {
        column: &mut column,
        nodes: &mut nodes,
        from: &mut from,
        to: &mut to,
        count: 0,
        edges: 0,
    };
    resolve_link_order(tables, &mut numbers, &mut scratch, &mut graph, out)
}
