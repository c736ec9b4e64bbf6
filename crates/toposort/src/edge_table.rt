// The graph that is sorted. A struct with a ghost field imports all that its file does, so it stands in a file of its own.
ghost use Rattle.std.specs.Prelude.{◌≡◌, length};

// Nodes 0 to `count` - 1, and the edges between them in two columns.
#[derive(Clone, Copy)]
pub struct EdgeTable<'f, 't> {
    pub count: usize,
    pub from: &'f [u16],
    pub to: &'t [u16],
    pub ghost paired: { length to.now ≡ length from.now },
}
