// A wire that uses an edge twice, in a file of its own: what the ghost fields name is read before the definitions that name the struct.
ghost use Rattle.std.specs.Prelude.{◌<◌, length};

// A wire that uses an edge twice, turned so that the earlier place is 0, and the later one j0. No field says that the two have one edge.
#[derive(Clone, Copy)]
pub struct Doubled<'a> {
    pub wire: &'a [u32],
    pub j0: usize,
    pub ghost later: { 0 < j0 },
    pub ghost inside: { j0 < length wire.now },
}
