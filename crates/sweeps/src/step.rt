// What a step of a sweep joins.
ghost use Rattle.sweeps.specs.Private.{Rows};

// One step over the distance 2^t, in a block of 2^m positions: row k from rows x and y.
#[derive(Clone, Copy)]
pub struct Step {
    pub m: u32,
    pub t: u32,
    pub k: usize,
    pub x: usize,
    pub y: usize,
    ghost rows: { Rows m t k x y },
}
