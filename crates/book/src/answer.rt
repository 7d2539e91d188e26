// What a call that plans answers.

// A pair that was answered: its rate, how many circuits of each of its routes stand in the two lists, and what it shares.
// The lists are the caller's, since no call on a book may want memory.
#[derive(Clone, Copy)]
pub struct Pair<V> {
    pub rate: u32,
    pub lengths: (usize, usize),
    pub cost: V,
}
