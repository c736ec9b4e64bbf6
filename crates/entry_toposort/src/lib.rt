// The entry `toposort` behind its C name: the checks of its tables, the sort, and what is left in the lent outputs.
#![tactic(auto)]

ghost use Rattle.std.specs.Prelude.{◌≡◌, ◌+◌, ◌*◌, ◌/◌, ◌≤◌, ℕ, [], ◌∷◌, length, MatchResult};
ghost use Rattle.lists.specs.Outcome.{refused};
ghost use Rattle.lists.specs.Rows.{clear_from, tabulate};
ghost use Rattle.outputs.specs.Outputs.{counts_of};
ghost use Rattle.fields.specs.Fields.{le16};
ghost use Rattle.toposort.specs.Sorting.{Within, sort_of};
ghost use Rattle.toposort.specs.Lent.{graph_in};
ghost use Rattle.entry_toposort.specs.Entry.{graph_of, toposort_of, Checked, Ends, Leaves};

use fields::Field;
use obj::{Refusal, refuse, word_of};
use outputs::{clear_from, put_counts, put_halves, room_for};
use tables::table_size;
use toposort::{EdgeTable, Unsorted, answer_of, kept};

// One column of the edge table: the number at byte `at` of each edge.
fn column(edges: &[u8], at: usize, out: &mut [u16])
    requires { (at ≤ 2) × (4 * length out.old ≤ length edges.now) }
    ensures { out.new ≡ tabulate (λ i. le16 edges.now (4 * i + at)) 0 (length out.old) }
{
    for (i, place) in out.iter_mut().enumerate() {
        *place = u16::get(edges, 4 * i + at);
    }
}

// The sort of edges in columns, in the lent `table`; the nodes that it leaves are written to the front of `out`.
// `table` is what the sort works in and `out` what C lends, so they are no columns of one table.
fn sort_columns(
    graph: &EdgeTable,
    table: &mut [u16; 1024],
    out: &mut [u8],
) -> Result<usize, Unsorted>
    requires { Within (graph_in graph.now) }
    ensures { Ends (sort_of (graph_in graph.now) (length out.old / 2)) result out.old out.new }
{
    // "1,024 units"
    let room = room_for(1024, 2, out.len());
    let r = toposort::toposort(graph, &mut table[..room]);
    let m = kept(r);
    put_halves(out, &table[..m]);
    r
}

// The sort of an edge table within the ceilings. `n` is how many nodes there are, and not how long the edges are.
fn sort_table(n: usize, edges: &[u8], out: &mut [u8]) -> Result<usize, Unsorted>
    requires { (n ≤ 1024) × (length edges.now / 4 ≤ 2048) }
    ensures { Ends (sort_of (graph_of n edges.now) (length out.old / 2)) result out.old out.new }
{
    let mut from = [0u16; 2048];
    let mut to = [0u16; 2048];
    let mut table = [0u16; 1024];
    let k = edges.len() / 4;
    let from = &mut from[..k];
    let to = &mut to[..k];
    column(edges, 0, from);
    column(edges, 2, to);
    let graph = EdgeTable { count: n, from, to };
    sort_columns(&graph, &mut table, out)
}

// The checks of the tables, in document 01's order.
fn check_tables(nodes: u32, edges: &[u8]) -> Result<(), Refusal>
    ensures { MatchResult result (λ _. Checked nodes edges.now) (λ r. (size : ℕ) → toposort_of nodes edges.now size ≡ refused r.number r.section r.address) }
{
    if 1024 < nodes {
        return refuse(2, 0, 1024);
    }
    // "2,048 edges"
    table_size(edges.len(), 4, 2048)
}

// The two outputs, as C lends them, once the nodes stand at the front of the node table: zeros after them, and their number.
fn leave(kept: usize, out: &mut [u8], counts: &mut [u8])
    requires { kept ≤ 1024 }
    ensures { (out.new ≡ clear_from 0 (2 * kept) out.old) × (counts.new ≡ counts_of (length counts.old) (kept ∷ [])) }
{
    clear_from(out, 2 * kept);
    clear_from(counts, 0);
    put_counts(counts, &[kept as u16]);
}

// The entry: an order, a cycle or a refusal, and every byte of the outputs. No `?` here: what is refused leaves zeros too.
pub fn toposort(nodes: u32, edges: &[u8], out: &mut [u8], counts: &mut [u8]) -> u64
    ensures { Leaves (toposort_of nodes edges.now (length out.old)) (length out.old) (length counts.old) result out.new counts.new }
{
    if let Err(r) = check_tables(nodes, edges) {
        leave(0, out, counts);
        return word_of(Err(r));
    }
    let sorted = sort_table(nodes as usize, edges, out);
    leave(kept(sorted), out, counts);
    word_of(answer_of(sorted))
}
