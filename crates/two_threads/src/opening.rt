//! The first passes of a queue at its opening.
ghost use Rattle.std.specs.Prelude.{◌≡◌, [], IfSome};
ghost use Rattle.cc_steps.specs.Walk.{IsOf};
ghost use Rattle.two_threads.specs.Opening.{IsNew};

use cc_queue::{Opened, Receiver, Sender};

/// The first sender and the first receiver of a queue that was just opened. They have made no call yet.
pub fn first_passes(opened: &mut Opened) -> Option<(Sender, Receiver)>
    requires { IsNew opened.old }
    ensures here { IfSome result (λ p. IsOf opened.new.queue p.0 × IsOf opened.new.queue p.1) }
    ensures first { IfSome result (λ p. (p.0.made ≡ []) × (p.1.made ≡ [])) }
    ensures same { opened.new.queue ≡ opened.old.queue }
{
    if opened.senders.is_empty() || opened.receivers.is_empty() {
        return None;
    }
    Some((opened.senders.remove(0), opened.receivers.remove(0)))
}
