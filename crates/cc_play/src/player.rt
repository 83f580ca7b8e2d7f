//! Following a schedule: which pass does its next atomic step, begins its next call, has its answer taken.
ghost use Rattle.std.specs.Prelude.{◌≡◌, ◌<◌, Some, Ok, List, length, IfOk, IfSome, OnOk, ◌^◌, ◌-◌};
ghost use Rattle.cc_model.specs.Body.{HasBody};
ghost use Rattle.cc_model.specs.Config.{config_fault};
ghost use Rattle.cc_model.specs.Items.{known_at};
ghost use Rattle.cc_play.specs.Names.{Event, Move, Served};
ghost use Rattle.cc_runs.specs.Run.{passes, reached, IsRun};
ghost use Rattle.cc_machine.specs.View.{state_in};
ghost use Rattle.cc_machine.specs.Machine.{index_of, event_of, HasBegun, IsOpened, begin_fault};
ghost use Rattle.cc_plan.specs.Plan.{plan_value};
ghost use Rattle.cc_plan.specs.PlanLaws.{Valid};
ghost use Rattle.cc_play.specs.Schedule.{setting_of, next_call, IsAt, CanFollow, CanTurn, IsBetweenTurns, HasTurned, IsOnItsWay, entry, run_of};

use cc_machine::{BeginFault, Event, Kind, Machine, OpenFault};
use cc_model::{Call, Config, Pass};
use cc_plan::Plan;
use std::alloc::{AllocError, Global};

/// The call that a pass makes after this number of calls, if the plan has one.
fn next_call(plan: &Plan, pass: Pass, begun: usize) -> Option<Call>
    ensures call { result ≡ next_call (plan_value plan.now) pass begun }
    ensures countable { IfSome result (λ _. begun < 2 ^ 64 - 1) }
{
    match pass {
        Pass::Sender(n) => {
            let calls = plan.senders.get((n as usize).saturating_sub(1))?;
            calls.get(begun)
        }
        Pass::Receiver(n) => {
            let takes = plan.receivers.get((n as usize).saturating_sub(1))?;
            (begun < *takes as usize).then_some(Call::Take)
        }
    }
}

/// Begins a call that the pass may begin, so that only memory can be refused.
fn begin(machine: &mut Machine, pass: Pass, call: Call) -> Result<(), AllocError>
    requires { begin_fault machine.old pass call ≡ Ok tt }
    ensures begun { OnOk result (HasBegun machine.old (index_of machine.old.setting pass) call (known_at pass machine.old.history) machine.new) }
    ensures body { HasBody call }
{
    match machine.begin(pass, call) {
        Ok(()) => Ok(()),
        Err(BeginFault::NoMemory) => Err(AllocError),
        Err(_) => unreachable!(),
    }
}

/// One event of a pass, before which it begins its next call if it is idle, and after which the answer of a finished call
/// is taken. Returns the event: the first step of a call if one began, and Idle if the pass had none.
pub fn turn(
    machine: &mut Machine,
    begun: &mut [usize],
    plan: &Plan,
    pass: Pass,
    row: usize,
) -> Result<Event, AllocError>
    requires { CanTurn (plan_value plan.now) pass row machine.old begun.old }
    ensures turned { IfOk result (λ event. HasTurned (plan_value plan.now) pass row machine.old machine.new begun.old begun.new event) }
    ensures between { OnOk result (IsBetweenTurns (plan_value plan.now) machine.new begun.new) }
    ensures rows { length begun.new ≡ length begun.old }
{
    match machine.event(pass) {
        Event::Did(kind) => {
            machine.answer(pass);
            Ok(Event::Did(kind))
        }
        Event::Idle => begin_turn(machine, begun, plan, pass, row),
    }
}

/// The event of a pass that has no step to do: the first of its next call, if the plan has one.
#[tactic(auto, using(crate::proofs::Turns::none_turned))]
fn begin_turn(
    machine: &mut Machine,
    begun: &mut [usize],
    plan: &Plan,
    pass: Pass,
    row: usize,
) -> Result<Event, AllocError>
    requires can { CanTurn (plan_value plan.now) pass row machine.old begun.old }
    requires idle { Event.Idle ≡ event_of machine.old pass }
    ensures turned { IfOk result (λ event. HasTurned (plan_value plan.now) pass row machine.old machine.new begun.old begun.new event) }
    ensures between { OnOk result (IsBetweenTurns (plan_value plan.now) machine.new begun.new) }
    ensures rows { length begun.new ≡ length begun.old }
{
    let Some(call) = next_call(plan, pass, begun[row]) else {
        return Ok(Event::Idle);
    };
    begin(machine, pass, call)?;
    begun[row] += 1;
    machine.event(pass);
    machine.answer(pass);
    Ok(Event::Did(Kind::ResetNext))
}

/// Some of this number of events of a pass, of which there is one at least; returns how many are left. None are left if the
/// pass waits, since it reads the same to the end of its entry, and none if it has no call to begin.
fn go_on(
    machine: &mut Machine,
    begun: &mut [usize],
    plan: &Plan,
    pass: Pass,
    row: usize,
    left: u32,
) -> Result<u32, AllocError>
    requires can { CanTurn (plan_value plan.now) pass row machine.old begun.old }
    requires some { 0 < left }
    ensures fewer { IfOk result (λ rest. rest < left) }
    ensures on { IfOk result (λ rest. IsOnItsWay (plan_value plan.now) pass row machine.old machine.new begun.old begun.new left rest) }
    ensures between { OnOk result (IsBetweenTurns (plan_value plan.now) machine.new begun.new) }
    ensures rows { length begun.new ≡ length begun.old }
{
    let done = machine.events(pass, left);
    machine.answer(pass);
    if done == left || machine.is_waiting(pass) {
        return Ok(0);
    }
    match begin_turn(machine, begun, plan, pass, row)? {
        Event::Did(_) => Ok(left - done - 1),
        Event::Idle => Ok(0),
    }
}

/// Up to this number of events of a pass. If it waits, or has no call to begin, those that are left needn't be done one by
/// one: the machine is already in the state to which they lead.
#[tactic(auto, using(crate::proofs::Turns::none_on, crate::proofs::Turns::on_and_on, crate::proofs::Turns::none_left))]
fn follow_entry(
    machine: &mut Machine,
    begun: &mut [usize],
    plan: &Plan,
    pass: Pass,
    events: u32,
) -> Result<(), AllocError>
    requires { CanFollow (plan_value plan.now) machine.old begun.old }
    ensures followed { OnOk result ((run : List Move) → IsAt (plan_value plan.now) machine.old begun.old run
        → IsAt (plan_value plan.now) machine.new begun.new (entry (plan_value plan.now) pass (index_of (setting_of (plan_value plan.now)) pass) events run)) }
    ensures between { OnOk result (IsBetweenTurns (plan_value plan.now) machine.new begun.new) }
    ensures rows { length begun.new ≡ length begun.old }
{
    let Some(row) = Machine::row(&plan.config, pass) else {
        return Ok(());
    };
    let mut left = events;
    while left > 0 {
        left = go_on(machine, begun, plan, pass, row, left)?;
    }
    Ok(())
}

/// Plays the schedule of a plan from the opening of its machine. Only memory can be refused.
pub fn play_schedule(alloc: Global, plan: &Plan) -> Result<Machine, AllocError>
    requires valid { Valid (plan_value plan.now) }
    ensures run { OnOk result (IsRun (setting_of (plan_value plan.now)) (run_of (plan_value plan.now))) }
    ensures played { IfOk result (λ machine. (machine.setting ≡ setting_of (plan_value plan.now)) × (state_in machine ≡ reached (setting_of (plan_value plan.now)) (run_of (plan_value plan.now)))) }
{
    let mut machine = open(alloc, &plan.config)?;
    follow(alloc, &mut machine, plan)?;
    Ok(machine)
}

/// Opens the machine of a configuration that is in range, so that only memory can be refused.
fn open(alloc: Global, config: &Config) -> Result<Machine, AllocError>
    requires { config_fault config.now ≡ Ok tt }
    ensures { IfOk result (IsOpened Served.List config.now) }
{
    match Machine::open(alloc, config) {
        Ok(machine) => Ok(machine),
        Err(OpenFault::NoMemory) => Err(AllocError),
        Err(OpenFault::Config(_)) => unreachable!(),
    }
}

/// Follows the whole schedule of a plan on its machine, just opened.
#[tactic(auto, using(crate::proofs::Followed::finished))]
fn follow(alloc: Global, machine: &mut Machine, plan: &Plan) -> Result<(), AllocError>
    requires valid { Valid (plan_value plan.now) }
    requires opened { IsOpened Served.List (plan_value plan.now).config machine.old }
    ensures run { OnOk result (IsRun (setting_of (plan_value plan.now)) (run_of (plan_value plan.now))) }
    ensures played { OnOk result ((machine.new.setting ≡ setting_of (plan_value plan.now)) × (state_in machine.new ≡ reached (setting_of (plan_value plan.now)) (run_of (plan_value plan.now)))) }
{
    let rows = plan.senders.len() + plan.receivers.len();
    let mut begun = vec![in alloc; 0usize; rows]?;
    for (pass, events) in plan.schedule.iter() {
        follow_entry(machine, begun.as_mut_slice(), plan, *pass, *events)?;
    }
    Ok(())
}
