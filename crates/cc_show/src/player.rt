//! Following a schedule, with a note of each event.
ghost use Rattle.std.specs.Prelude.{◌≡◌, ◌<◌, ◌≤◌, List, length, IfOk, OnOk, MatchOption};
ghost use Rattle.cc_play.specs.Names.{Move};
ghost use Rattle.cc_runs.specs.Run.{passes, reached, IsRun};
ghost use Rattle.cc_machine.specs.View.{state_in};
ghost use Rattle.cc_machine.specs.Machine.{index_of};
ghost use Rattle.cc_plan.specs.Plan.{plan_value};
ghost use Rattle.cc_plan.specs.PlanLaws.{Valid};
ghost use Rattle.cc_play.specs.Schedule.{setting_of, CanFollow, IsBetweenTurns, entry, run_of};
ghost use Rattle.cc_show.specs.Events.{happened, event_limit, Stands};

use cc_machine::{Event, Kind, Machine, OpenFault};
use cc_model::Pass;
use cc_plan::Plan;
use cc_play::turn;
use cc_runs::Word;
use std::alloc::{AllocError, Global};

/// How many events a page shows at most.
pub const EVENT_LIMIT: usize = 20_000;

/// An event.
#[derive(Clone, Copy)]
pub struct ShownEvent {
    /// The row of its pass among all passes.
    pub row: usize,
    pub pass: Pass,
    /// How many calls the pass had begun: the number of the call whose step this was.
    pub call: usize,
    pub kind: Kind,
    /// The word of the step, and its values before and after.
    pub word: Word,
    pub before: u64,
    pub after: u64,
}

/// A machine that has followed a schedule, and the events of that, the first one first.
#[derive(Drop)]
pub struct Played {
    pub machine: Machine,
    pub events: Vec<ShownEvent>,
}

/// Up to this number of events of a pass, one by one.
#[tactic(auto, using(crate::proofs::Events::none_shown, crate::proofs::Events::one_more, crate::proofs::Events::all_shown))]
fn follow_entry(
    machine: &mut Machine,
    begun: &mut [usize],
    events: &mut Vec<ShownEvent>,
    plan: &Plan,
    pass: Pass,
    count: u32,
) -> Result<(), AllocError>
    requires { CanFollow (plan_value plan.now) machine.old begun.old }
    ensures followed { OnOk result ((run : List Move) → Stands (plan_value plan.now) machine.old begun.old events.old.items run
        → Stands (plan_value plan.now) machine.new begun.new events.new.items (entry (plan_value plan.now) pass (index_of (setting_of (plan_value plan.now)) pass) count run)) }
    ensures between { OnOk result (IsBetweenTurns (plan_value plan.now) machine.new begun.new) }
    ensures rows { length begun.new ≡ length begun.old }
{
    let Some(row) = Machine::row(&plan.config, pass) else {
        return Ok(());
    };
    for _done in 0..count {
        let word = machine.word_in(row);
        let before = machine.value(word);
        match turn(machine, begun, plan, pass, row)? {
            Event::Did(kind) => events.push(ShownEvent {
                row,
                pass,
                call: begun[row],
                kind,
                word,
                before,
                after: machine.value(word),
            })?,
            Event::Idle => return Ok(()),
        }
    }
    Ok(())
}

/// Plays the schedule of a plan from the opening of its machine; `None` if its run has more events than a page shows.
/// Only memory can be refused.
pub fn play_events(alloc: Global, plan: &Plan) -> Result<Option<Played>, AllocError>
    requires valid { Valid (plan_value plan.now) }
    ensures { IfOk result (λ played. MatchOption played
        (event_limit < length (happened (plan_value plan.now) (run_of (plan_value plan.now))))
        (λ p. IsRun (setting_of (plan_value plan.now)) (run_of (plan_value plan.now))
        × (p.machine.setting ≡ setting_of (plan_value plan.now))
        × (state_in p.machine ≡ reached (setting_of (plan_value plan.now)) (run_of (plan_value plan.now)))
        × (p.events.items ≡ happened (plan_value plan.now) (run_of (plan_value plan.now)))
        × (length p.events.items ≤ event_limit))) }
{
    let mut machine = match Machine::open(alloc, &plan.config) {
        Ok(machine) => machine,
        Err(OpenFault::NoMemory) => return Err(AllocError),
        Err(OpenFault::Config(_)) => unreachable!(),
    };
    let rows = plan.senders.len() + plan.receivers.len();
    let mut begun = vec![in alloc; 0usize; rows]?;
    let mut events = Vec::new(alloc);
    for (pass, count) in plan.schedule.iter() {
        follow_entry(
            &mut machine,
            begun.as_mut_slice(),
            &mut events,
            plan,
            *pass,
            *count,
        )?;
        if events.len() > EVENT_LIMIT {
            return Ok(None);
        }
    }
    Ok(Some(Played { machine, events }))
}
