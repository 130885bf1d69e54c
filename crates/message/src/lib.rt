// The message call: the bytes of an event's message.
#![tactic(auto)]

pub mod messages;

pub use messages::message;
