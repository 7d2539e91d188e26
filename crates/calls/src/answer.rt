// What a book answers.
use network::Refusal;

// What a call tells that is not refused.
#[derive(Clone, PartialEq, Debug, Drop)]
pub enum Reply<V> {
    Pair {
        rate: u32,
        first: Vec<u16>,
        second: Vec<u16>,
        cost: V,
    },
    Done,
    Left(u32),
    Open(bool),
    Uses(u8),
}

// What came of an order.
pub type Answer<V> = Result<Reply<V>, Refusal>;
