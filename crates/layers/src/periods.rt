// A period: a feed whose times count from the period's start.
pub mod methods;

// The feed below, and the period's start in milliseconds.
#[derive(Drop)]
pub struct Period<F> {
    feed: F,
    start: u64,
}
