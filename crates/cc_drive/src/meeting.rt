//! All passes of a run meet.
ghost use Rattle.std.specs.Prelude.{◌≤◌, [], vec_capacity};
ghost use Rattle.cc_queue.specs.Met.{AreOf, HasMet, HaveSeenOne};
ghost use Rattle.cc_drive.specs.Row.{Pairs};

use cc_queue::{Queue, Receiver, Sender, meet_all};

/// Lets all passes of two lists meet. None was given up.
pub fn meet_everyone(queue: &Queue, senders: &mut Vec<Sender>, receivers: &mut Vec<Receiver>)
    requires { AreOf queue.now senders.old.items receivers.old.items [] }
    ensures senders { Pairs HasMet senders.old.items senders.new.items }
    ensures receivers { Pairs HasMet receivers.old.items receivers.new.items }
    ensures one { HaveSeenOne senders.new.items receivers.new.items [] }
    ensures room { vec_capacity senders.old ≤ vec_capacity senders.new }
{
    meet_all(queue, senders, receivers, &mut []);
}
