//! The command `storm`: a generated schedule is replayed without its lines, its history is checked, and what it came to is written.

ghost use Rattle.std.specs.Prelude.{◌≡◌, ◌≤◌, ◌^◌, ◌<◌, ◌++◌, ◌∷◌, [], List, ℕ, IfOk, None, OnOk, length};
ghost use Rattle.cl_types.specs.declared.config.Config.{Config as Configuration};
ghost use Rattle.cl_types.specs.declared.limits.TheConstants.{LINES_END};
ghost use Rattle.cl_types.specs.declared.schedule.Event.{Event as Happening};
ghost use Rattle.flat_model.specs.Opening.{open_fault};
ghost use Rattle.flat_model.specs.Run.{IsRun};
ghost use Rattle.storm_gen.specs.Generated.{generated};
ghost use Rattle.storm_gen.specs.SummaryTexts.{count_line, summary_text};
ghost use Rattle.storm_gen.specs.declared.limits.TheConstants.{MOST_CALLS};
ghost use Rattle.trace.specs.Schedules.{IsGood};
ghost use Rattle.world.specs.Follows.{StandsFor, opened};
ghost use Rattle.world.specs.Running.{IsFair};
ghost use Rattle.command_text.specs.Outputs.{storm_output};
ghost use Rattle.command_text.specs.Working.{IsServed, Plays};

use cl_outside::{Sink, write_all};
use cl_types::config::Config;
use cl_types::items::{Bytes, NoMemory};
use cl_types::line::{Entry, Summary};
use cl_types::schedule::{Event, Schedule};
use command_text::{Left, Output, Status, open};
use history_check::{CheckFault, Verdict, check};
use std::alloc::Global;
use world::World;

// Makes an event happen, and lets its line go.
fn happen(alloc: Global, world: &mut World, number: u32, event: &Event) -> Result<(), NoMemory>
    requires later { world.old.line < number }
    requires bounded { number < LINES_END }
    requires fair { IsFair event.now }
    ensures line { OnOk result (world.new.line ≡ number) }
    ensures stands { (config : Configuration) (events : List (ℕ × Happening))
        → IsGood config (events ++ (number, event.now) ∷ [])
        → StandsFor config events world.old
        → OnOk result (StandsFor config (events ++ (number, event.now) ∷ []) world.new) }
{
    world.event(alloc, number, event)?;
    Ok(())
}

// Makes all events of a schedule happen.
fn work(alloc: Global, schedule: &Schedule, world: &mut World) -> Result<(), NoMemory>
    requires served { IsServed schedule.now }
    requires opened { world.old ≡ opened schedule.now.config }
    ensures { OnOk result (StandsFor schedule.now.config schedule.now.events world.new) }
{
    for (number, event) in schedule.events.as_slice() {
        happen(alloc, world, *number, event)?;
    }
    Ok(())
}

// Appends the line of a name and a number.
fn count(alloc: Global, name: &str, n: u32, to: &mut Bytes) -> Result<(), NoMemory>
    ensures { OnOk result (to.new ≡ to.old ++ count_line name.now n) }
{
    let text = format!(in alloc; "{name} {n}\n")?;
    to.append(text.as_bytes())
}

// Appends what a replay counts, whose history is a run.
fn counts(alloc: Global, summary: &Summary, to: &mut Bytes) -> Result<(), NoMemory>
    ensures { OnOk result (to.new ≡ to.old ++ summary_text summary.now) }
{
    count(alloc, "issued", summary.issued, to)?;
    count(alloc, "done", summary.done, to)?;
    count(alloc, "refused", summary.refused, to)?;
    count(alloc, "timed out", summary.timed_out, to)?;
    count(alloc, "unended", summary.unended, to)?;
    count(alloc, "entries", summary.entries, to)?;
    to.append(b"verdict run\n")
}

// Checks that the history is a run, which it is.
#[tactic(auto, using(crate::proofs::StormLemmas::run_has_no_fault))]
fn confirm(alloc: Global, config: &Config, history: &[Entry]) -> Result<(), NoMemory>
    requires run { IsRun config.now.node history.now }
    requires opens { open_fault config.now.node ≡ None }
    requires few { length history.now < 2 ^ 32 }
{
    match check(alloc, config, history) {
        Ok(Verdict::Run) => Ok(()),
        Ok(Verdict::NotRun { .. }) => unreachable!(),
        Err(CheckFault::Opening(_)) => unreachable!(),
        Err(CheckFault::NoMemory) => Err(NoMemory),
    }
}

// The world after the events of a schedule, whose history was checked.
fn worked(alloc: Global, schedule: &Schedule) -> Result<World, NoMemory>
    requires served { IsServed schedule.now }
    requires opens { open_fault schedule.now.config.node ≡ None }
    ensures { IfOk result (StandsFor schedule.now.config schedule.now.events) }
{
    match open(alloc, &schedule.config)? {
        Ok(world) => {
            let mut world = world;
            work(alloc, schedule, &mut world)?;
            confirm(alloc, &schedule.config, world.history())?;
            Ok(world)
        }
        Err(_) => unreachable!(),
    }
}

// The output of a storm, and the world that it leaves.
fn storm_output(alloc: Global, seed: u64, calls: u32) -> Result<(Output, World), NoMemory>
    requires few { calls ≤ MOST_CALLS }
    ensures output { IfOk result (λ made. made.0 ≡ storm_output seed calls) }
    ensures stands { IfOk result (λ made.
        StandsFor (generated seed calls).config (generated seed calls).events made.1) }
{
    let schedule = storm_gen::storm(alloc, seed, calls)?;
    let world = worked(alloc, &schedule)?;
    let mut text = Bytes::create(alloc);
    counts(alloc, &world.finish(), &mut text)?;
    let status = Status::Ok;
    Ok((Output { text, status }, world))
}

/// The command `storm`: replays the schedule that is generated of a seed and a number of calls without
/// its lines, checks its history, and writes what it came to.
///
/// With success `left` is the world after the last event, and else it is `Nothing`. Each failure ends
/// the command. After a write fault a prefix of the text was written; where there was no memory nothing
/// was.
pub fn serve_storm<K: Sink>(
    alloc: Global,
    seed: u64,
    calls: u32,
    sink: &mut K,
    left: &mut Left,
) -> Status
    requires few { calls ≤ MOST_CALLS }
    requires nothing { left.old ≡ Left.Nothing }
    ensures { Plays (generated seed calls) (storm_output seed calls).text (K.written sink.old)
        (K.written sink.new) (K.faults sink.old) (K.faults sink.new) left.new result }
{
    let Ok((output, world)) = storm_output(alloc, seed, calls) else {
        return Status::NoMemory;
    };
    if write_all(sink, output.text.as_slice()).is_err() {
        return Status::WriteFault;
    }
    *left = Left::Replayed(world);
    Status::Ok
}
