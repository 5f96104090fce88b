//! Lines of text between a device and its application: commands, replies, notices. It opens no
//! socket.
#![tactic(auto)]

mod answers;
mod command;
mod inbox;
mod names;
mod notice_text;
mod outbox;
mod reply;
mod told;
mod wrong;

pub use answers::{add_handle_answer, add_outcome, add_value_answer};
pub use command::{Command, read_line, without_return};
pub use inbox::{Found, Inbox, LONGEST, ROOM};
pub use names::{Named, Names};
pub use notice_text::{add_line, add_named_line, add_number, add_value, connection_of};
pub use outbox::Outbox;
pub use reply::{Reply, add_reply};
pub use told::{Told, add_if_named, add_told};
pub use wrong::{WordFault, WrongWord, add_wrong, word_at};
