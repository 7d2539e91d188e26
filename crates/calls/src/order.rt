// What can be asked of a book.
use promise::Mode;

// Two places, a rate in kbit/s, and a mode.
#[derive(Clone, Copy, PartialEq, Debug)]
pub struct Ask {
    pub from: u32,
    pub to: u32,
    pub rate: u32,
    pub mode: Mode,
}

// One call on a book.
#[derive(Clone, Copy, PartialEq, Debug)]
pub enum Order<V> {
    Safest(Ask),
    Widest {
        from: u32,
        to: u32,
        mode: Mode,
        limit: V,
    },
    Book {
        feed: u32,
        ask: Ask,
        limit: V,
    },
    Release {
        feed: u32,
    },
    Close {
        notice: u32,
        circuit: u32,
    },
    Reopen {
        notice: u32,
    },
    Left {
        circuit: u32,
    },
    Open {
        circuit: u32,
    },
    Uses {
        feed: u32,
        circuit: u32,
    },
}
