//! The code of a row: queues that follow each other, used as one queue that is never full.
//!
//! A sender that is refused by its queue closes that queue (`begin_leave`, `turn_leave`), and then continues at the
//! last queue of the row, behind which it may append one (`go_on`). A receiver whose take returned Ended continues at
//! the queue that its group is at (`take_on`). The list of queues is under a try-lock (`cc_guard`), which is held for a
//! few hundred instructions: nothing waits under the lock, and no queue is opened or called there.
//!
//! Each pass keeps a share of its queue, and the row keeps the queues that some group is not done with. A queue is freed
//! with its last share. A note shows that a queue was shut. Notes are zero-sized, so a row remembers all of its queues in
//! no memory.
//!
//! `specs/Stands.antt` says to which history the answers of a pass belong: to that of one queue (`is_sound`).
#![tactic(auto)]

mod going;
mod left;
mod links;
mod position;
mod receiving;
mod sends;
mod stage;
mod stages;
mod stands;
mod turns;

pub use going::{GoneOn, go_on};
pub use left::Left;
pub use links::{Ended, Link, RowLog};
pub use position::{Position, RowReceiver, RowSender};
pub use receiving::{Over, TakenOn, take_on};
pub use sends::{Sending, Sent, begin_send, turn_send};
pub use stage::Stage;
pub use stages::{RowLock, Stages};
pub use turns::{Leave, Leaving, Taken, Taking, begin_leave, begin_take, turn_leave, turn_take};
