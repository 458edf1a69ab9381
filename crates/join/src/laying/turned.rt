// A wire with its turn, in a file of its own: what the ghost field names is read before the definitions that name the struct.
ghost use Rattle.std.specs.Prelude.{◌≤◌, length};

// A wire, to be turned so that its place `by` is 0.
#[derive(Clone, Copy)]
pub struct TurnedWire<'a> {
    pub wire: &'a [u32],
    pub by: usize,
    pub ghost turn: { by ≤ length wire.now },
}
