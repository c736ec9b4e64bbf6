// What the link order reads, and the graph that is made of it. A struct with a ghost field imports all that its file does, so these stand in a file of their own.
ghost use Rattle.std.specs.Prelude.{◌≤◌, length};
ghost use Rattle.order_numbers.specs.Numbers.{Whole};
ghost use Rattle.splits.specs.Table.{columns_of};
ghost use Rattle.link_graph.specs.Columns.{Splits, GraphRoom};

use names::Names;
use obj::Table;
use splits::SplitColumns;

// The splits, the heads of the sections that they lie in, all names, and the unit records.
#[derive(Clone, Copy)]
pub struct LinkTables<'s, 'e, 'u, 'r, 'h, 'i, 'b, 'p, 'l, 't, 'o> {
    pub splits: SplitColumns<'s, 'e, 'u, 'r>,
    pub heads: Table<'h, 'i>,
    pub names: Names<'b, 'p, 'l>,
    pub units: Table<'t, 'o>,
    pub ghost held: { Splits (columns_of splits) splits.count heads.bytes.now heads.places.now names.bytes.now names.places.now names.lengths.now },
    pub ghost whole: { Whole units.bytes.now units.places.now },
    pub ghost few_units: { length units.places.now ≤ 1024 },
}

// The graph, in columns to write: the first `count` of `nodes` are the units, and the first `edges` of `from` and `to` the edges between their places. By name
// number `column` has the place of a unit among the nodes.
#[derive(Drop)]
pub struct LinkGraph<'c, 'n, 'f, 't> {
    pub column: &'c mut [u16],
    pub nodes: &'n mut [u16],
    pub from: &'f mut [u16],
    pub to: &'t mut [u16],
    pub count: usize,
    pub edges: usize,
    pub ghost long: { GraphRoom nodes.now from.now to.now },
    pub ghost few_nodes: { count ≤ 1024 },
    pub ghost few_edges: { edges ≤ 2048 },
}
