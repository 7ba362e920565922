// Sessions and studios of document 01: control, and what the calls answer.
#![tactic(auto)]

pub mod answer;
pub mod block;
pub mod collect;
pub mod commit;
pub mod control;
pub mod copies;
pub mod forward;
pub mod layout;
pub mod load;
pub mod move_session;
pub mod output;
pub mod preview;
pub mod read;
pub mod refresh;
pub mod retire;
pub mod rows;
pub mod send;
pub mod session;
pub mod setup;
pub mod source;
pub mod system;
pub mod walk;
