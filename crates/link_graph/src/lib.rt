// The graph of the link order, in lent columns: "Units count by first split", an edge for neighbours in a section, and the chain of order numbers.
#![tactic(auto)]

ghost use Rattle.std.specs.Prelude.{◌≡◌, ◌&&◌, not, ◌++◌, map, ℕ, ◌+◌, ◌-◌, ◌%◌, ◌<◌, ◌≤◌, ◌≢◌, eqb, length, get_or, take, replicate, MatchOption};
ghost use Rattle.lists.specs.Rows.{keep_if};
ghost use Rattle.lists.specs.Sort.{All};
ghost use Rattle.splits.specs.Columns.{row_at};
ghost use Rattle.splits.specs.Table.{columns_of, rows_of};
ghost use Rattle.symbol_order.specs.Keys.{unit_of};
ghost use Rattle.link_graph.specs.Graph.{UnitEdge, is_first as firstOfSection, apart as keptApart, split_edges, links};
ghost use Rattle.link_graph.specs.Columns.{pointers_in, SectionNames, UnitsBelow, Units, Countable, Counted, Listed, Front};
ghost use Rattle.link_graph.specs.Tables.{given_of, Edgeable, Edged, Lent, Graphed, OnlyEdges, SameLent};

use names::{Names, is_pointer_list, name_at};
use obj::{Section, Table, Unit};
use splits::{SplitColumns, row};

mod link_tables;

pub use link_tables::{LinkGraph, LinkTables};

// In a column by name number: a unit that has no node. A number, since a place is two bytes of a lent column, which an `Option` does not fit; a node is less
// than 1,024.
const NONE: u16 = 65535;

// ---- the nodes

// No unit has a node.
pub fn blank(column: &mut [u16])
    ensures { column.new ≡ replicate (length column.old) 65535 }
{
    column.fill(NONE);
}

// "Units count by first split." The column is blank.
// m goes on where a unit is new, which the column that the loop writes says: no iterator reads a column that it writes.
fn count_units(us: &[u16], graph: &mut LinkGraph)
    requires { Countable us.now graph.old.column.now graph.old.nodes.now }
    ensures counted { Counted us.now graph.new.column.now graph.new.nodes.now graph.new.count }
    ensures lent { SameLent graph.old graph.new }
{
    let mut m: usize = 0;
    for &name in us {
        let unit = name as usize;
        if graph.column[unit] == NONE {
            graph.column[unit] = m as u16;
            graph.nodes[m] = name;
            m += 1;
        }
    }
    graph.count = m;
}

// ---- the edges of neighbours

// Whether row i is the first of its section.
fn is_first(splits: &SplitColumns, i: usize) -> bool
    requires { i < splits.now.count }
    ensures { result ≡ firstOfSection (rows_of splits.now) i }
{
    if i == 0 {
        return true;
    }
    let before = row(splits, i - 1);
    let s = row(splits, i);
    before.section != s.section
}

// Whether section k is named `.ctors` or `.dtors`.
fn has_pointers(heads: &Table, names: &Names, k: usize) -> bool
    requires { SectionNames heads.now.bytes.now heads.now.places.now names.now.bytes.now names.now.places.now names.now.lengths.now × (k < length heads.now.places.now) }
    ensures { result ≡ pointers_in heads.now.bytes.now heads.now.places.now names.now.bytes.now names.now.places.now names.now.lengths.now k }
{
    let head = heads.record::<Section>(k);
    is_pointer_list(name_at(names, head.name as usize))
}

// "the first split of `.ctors` and `.dtors` is passed over"
fn is_passed(tables: &LinkTables, i: usize) -> bool
    requires { i < tables.now.splits.count }
    ensures { result ≡ (firstOfSection (rows_of tables.now.splits) i
        && (given_of tables.now).pointers (row_at (columns_of tables.now.splits) i).section) }
{
    if is_first(&tables.splits, i) {
        let s = row(&tables.splits, i);
        return has_pointers(&tables.heads, &tables.names, s.section as usize);
    }
    false
}

// Whether row i and the next one give no edge: "An edge joins neighbours of different units in a section unless the second alone is common".
fn apart(tables: &LinkTables, i: usize) -> bool
    requires { i + 1 < tables.now.splits.count }
    ensures { result ≡ keptApart (given_of tables.now).pointers (rows_of tables.now.splits) i }
{
    let s = row(&tables.splits, i);
    let t = row(&tables.splits, i + 1);
    let passed = is_passed(tables, i);
    (s.section != t.section) | (s.unit == t.unit) | (t.is_common() & !s.is_common()) | passed
}

// The edges of neighbours; the column has the nodes.
// e is where the next edge goes, and its number stays in the table: with `filter` and `enumerate` it would have to be counted again.
fn split_edges(tables: &LinkTables, graph: &mut LinkGraph)
    requires { UnitsBelow (columns_of tables.now.splits) tables.now.splits.count (length graph.old.column.now) }
    ensures edges { Listed (λ (e : UnitEdge). get_or graph.old.column.now e.from 0) (λ (e : UnitEdge). get_or graph.old.column.now e.to 0)
        (split_edges (given_of tables.now).pointers (rows_of tables.now.splits))
        graph.new.from.now graph.new.to.now tables.now.splits.count graph.new.edges }
    ensures others { OnlyEdges graph.old graph.new }
{
    let mut e: usize = 0;
    for i in 0..tables.splits.count.saturating_sub(1) {
        if !apart(tables, i) {
            graph.from[e] = graph.column[tables.splits.units[i] as usize];
            graph.to[e] = graph.column[tables.splits.units[i + 1] as usize];
            e += 1;
        }
    }
    graph.edges = e;
}

// ---- the chain of order numbers

// The node of unit record k.
fn node_at(unit_table: &Table, graph: &LinkGraph, k: usize) -> Option<u16>
    requires { Units unit_table.now.bytes.now unit_table.now.places.now graph.now.column.now × (k < length unit_table.now.places.now) }
    ensures { MatchOption result (get_or graph.now.column.now (unit_of unit_table.now.bytes.now unit_table.now.places.now k).name 0 ≡ 65535)
        (λ v. (v ≡ get_or graph.now.column.now (unit_of unit_table.now.bytes.now unit_table.now.places.now k).name 0) × (v ≢ 65535)) }
{
    let u = unit_table.record::<Unit>(k);
    let v = graph.column[u.name as usize];
    (v != NONE).then_some(v)
}

// "chain those that have splits": the records' numbers become nodes, and those without a node go.
// k is where the next one goes in the column that is read: no iterator reads a column that it writes.
fn keep_nodes(unit_table: &Table, graph: &LinkGraph, s: &mut [u16]) -> usize
    requires { Units unit_table.now.bytes.now unit_table.now.places.now graph.now.column.now × All (λ k. k < length unit_table.now.places.now) s.old }
    ensures { Front s.new
        (keep_if (λ v. not (eqb v 65535)) (map (λ k. get_or graph.now.column.now (unit_of unit_table.now.bytes.now unit_table.now.places.now k).name 0) s.old))
        (length s.old) result }
{
    let mut k: usize = 0;
    for i in 0..s.len() {
        if let Some(v) = node_at(unit_table, graph, s[i] as usize) {
            s[k] = v;
            k += 1;
        }
    }
    k
}

// An edge from each node to the next, behind the others.
fn link_nodes(s: &[u16], graph: &mut LinkGraph)
    requires { graph.old.edges + length s.now ≤ 2048 }
    ensures starts { take graph.new.edges graph.new.from.now ≡ take graph.old.edges graph.old.from.now ++ map (λ (x : UnitEdge). x.from) (links s.now) }
    ensures goals { take graph.new.edges graph.new.to.now ≡ take graph.old.edges graph.old.to.now ++ map (λ (x : UnitEdge). x.to) (links s.now) }
    ensures others { OnlyEdges graph.old graph.new }
{
    let e = graph.edges;
    let more = s.len().saturating_sub(1);
    // by place: of a pair of neighbours, and in two columns behind the edges that are there
    for i in 0..more {
        graph.from[e + i] = s[i];
        graph.to[e + i] = s[i + 1];
    }
    graph.edges = e + more;
}

// ---- the graph

// The edges of neighbours, and behind them those of the chain. The column has the nodes; `numbers` has the units that have an order, lowest first.
fn make_edges(tables: &LinkTables, numbers: &mut [u16], graph: &mut LinkGraph)
    requires { Edgeable tables.now numbers.old graph.old }
    ensures edges { Edged (given_of tables.now) graph.new }
    ensures others { OnlyEdges graph.old graph.new }
{
    split_edges(tables, graph);
    let k = keep_nodes(&tables.units, graph, numbers);
    link_nodes(&numbers[..k], graph);
}

// The nodes and the edges. `numbers` has the units that have an order, lowest first, and is used up; what the columns hold at first is of no matter.
pub fn make_graph(tables: &LinkTables, numbers: &mut [u16], graph: &mut LinkGraph)
    requires { Lent tables.now numbers.old graph.old }
    ensures graph { Graphed (given_of tables.now) graph.new }
    ensures lent { SameLent graph.old graph.new }
{
    let n = tables.splits.count;
    blank(graph.column);
    count_units(&tables.splits.units[..n], graph);
    make_edges(tables, numbers, graph);
}
