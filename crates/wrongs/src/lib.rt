// What is said of wrong arguments. specs/Messages.antt has the words.
#![tactic(auto)]

mod messages;

pub use messages::Message;
