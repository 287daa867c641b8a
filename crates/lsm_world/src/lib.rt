//! Every schedule of a store's nodes: a coordinator, its dispatchers, workers, followers, and a network that may lose,
//! repeat, reorder and delay what they send.
//!
//! It promises that each event that is taken asks one node and that the reply is that node's own answer, and that, for
//! every list of events, the events with their replies are a run of the model. What each job, result and table says of
//! the files that the store has made is so, whatever was lost or came twice; no file is removed by two edits. It stands
//! on `lsm_coord` for the coordinator, its model and its dispatchers, on `lsm_work` for workers, on `lsm_follow` for
//! followers, on `lsm_store` for what a merge of a sound job is, and on `lsm_msg` for messages and their bytes.
#![tactic(auto)]

mod coordinator;
mod event;
mod four;
mod laws;
mod messages;
mod network;
mod nodes;
mod refusal;
mod reply;
mod stopped;
mod store;
mod world;

pub use event::Event;
pub use laws::{worked_schedules, wrong_worlds};
pub use refusal::Refusal;
pub use reply::{PickedJob, Reply, Sent};
pub use world::World;
