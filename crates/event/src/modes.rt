// How a stream is followed.
pub mod methods;

// Not at all, each event on receive, or each event on start.
#[derive(Clone, Copy, PartialEq, Eq, Debug)]
pub enum Mode {
    Off,
    OnReceive,
    OnStart,
}

// A mode that is not off: what a dispatch was told on.
#[derive(Clone, Copy, PartialEq, Eq, Debug)]
pub enum Trigger {
    Receive,
    Start,
}
