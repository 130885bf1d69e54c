// A join: one feed and, after its clean end, another.
pub mod methods;

// The feed that comes first, and the one that follows it.
#[derive(Drop)]
pub struct Join<F, G> {
    first: F,
    second: G,
}
