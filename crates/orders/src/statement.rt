// What a line says.
use calls::Order;

// Nothing, an order for a book, or one of two wishes of people: to see the last pair by the names of its places, and to
// see the register drawn.
#[derive(Drop)]
pub enum Statement<V> {
    Blank,
    Order(Order<V>),
    Routes,
    Map,
}
