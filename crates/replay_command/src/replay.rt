//! The transcript of a schedule, over a world at its opening, written as it is made.

ghost use Rattle.std.specs.Prelude.{◌≡◌, ◌++◌, ◌∷◌, ◌^◌, ◌<◌, ◌≤◌, [], IsErrOf, OnErr, OnOk, codes, decimal, flat_map, length};
ghost use Rattle.cl_outside.specs.Loops.{WroteFront};
ghost use Rattle.cl_outside.specs.Told.{Added};
ghost use Rattle.texts.specs.Texts.{entry_text};
ghost use Rattle.trace_texts.specs.Transcripts.{transcript};
ghost use Rattle.transcript_text.specs.Fronts.{IsFront};
ghost use Rattle.world.specs.Follows.{StandsFor, opened};
ghost use Rattle.world.specs.Running.{IsFair};
ghost use Rattle.replay_command.specs.Gathered.{CountsCut, Gathered, WroteAll};
ghost use Rattle.replay_command.specs.Replay.{After, HasHappened, WroteLines, end_text, event_text, history_text};
ghost use Rattle.command_text.specs.Working.{IsServed, Plays};
ghost use Rattle.cl_types.specs.declared.limits.TheConstants.{LINES_END};

use crate::gather::{Cut, flush, flush_and_stop, flush_if_full};
use cl_outside::Sink;
use cl_types::items::{Bytes, NoMemory};
use cl_types::line::Entry;
use cl_types::schedule::{Event, Schedule};
use command_text::{Left, Status};
use std::alloc::Global;
use transcript_text::{print_entry, print_line};
use world::World;

// Makes an event happen and prints its line.
#[tactic(auto, using(crate::proofs::StepLemmas::good_step))]
fn happen(
    alloc: Global,
    world: &mut World,
    number: u32,
    event: &Event,
    held: &mut Bytes,
) -> Result<(), NoMemory>
    requires later { world.old.line < number }
    requires bounded { number < LINES_END }
    requires fair { IsFair event.now }
    ensures printed { OnOk result
        (held.new ≡ held.old ++ event_text world.old.world number event.now) }
    ensures happened { OnOk result (HasHappened world.old world.new number event.now) }
    ensures front { OnErr result
        (IsFront held.old (event_text world.old.world number event.now) held.new) }
    ensures late { OnErr result (world.new.line ≤ number) }
{
    let told = world.event(alloc, number, event)?;
    print_line(number, &told, held)
}

// Makes an event happen, and hands its line on.
fn print_event<K: Sink>(
    alloc: Global,
    world: &mut World,
    number: u32,
    event: &Event,
    held: &mut Bytes,
    sink: &mut K,
) -> Result<(), Cut>
    requires later { world.old.line < number }
    requires bounded { number < LINES_END }
    requires fair { IsFair event.now }
    ensures printed { OnOk result (Gathered
        (held.old ++ event_text world.old.world number event.now) held.new
        (K.written sink.old) (K.written sink.new)) }
    ensures happened { OnOk result (HasHappened world.old world.new number event.now) }
    ensures front { OnErr result (WroteFront
        (held.old ++ event_text world.old.world number event.now)
        (K.written sink.old) (K.written sink.new)) }
    ensures kept { IsErrOf result Cut.NoMemory
        → WroteAll held.old (K.written sink.old) (K.written sink.new) }
    ensures late { OnErr result (world.new.line ≤ number) }
    ensures counted { CountsCut (K.faults sink.old) (K.faults sink.new) result }
{
    match happen(alloc, world, number, event, held) {
        Ok(()) => flush_if_full(alloc, held, sink),
        Err(_) => Err(flush_and_stop(held, sink)),
    }
}

// Makes the events happen and hands their lines on.
fn print_events<K: Sink>(
    alloc: Global,
    schedule: &Schedule,
    world: &mut World,
    held: &mut Bytes,
    sink: &mut K,
) -> Result<(), Cut>
    requires served { IsServed schedule.now }
    requires begun { After schedule.now 0 world.old held.old
        (K.written sink.old) (K.written sink.old) }
    ensures done { OnOk result (After schedule.now (length schedule.now.events)
        world.new held.new (K.written sink.old) (K.written sink.new)) }
    ensures front { OnErr result
        (WroteFront (transcript schedule.now) (K.written sink.old) (K.written sink.new)) }
    ensures kept { IsErrOf result Cut.NoMemory
        → WroteLines schedule.now world.new (K.written sink.old) (K.written sink.new) }
    ensures counted { CountsCut (K.faults sink.old) (K.faults sink.new) result }
{
    for (number, event) in schedule.events.as_slice() {
        if let Err(cut) = print_event(alloc, world, *number, event, held, sink) {
            return Err(cut);
        }
    }
    Ok(())
}

// Prints the line of an entry, and hands it on.
fn print_one<K: Sink>(
    alloc: Global,
    entry: &Entry,
    held: &mut Bytes,
    sink: &mut K,
) -> Result<(), Cut>
    ensures printed { OnOk result (Gathered (held.old ++ entry_text entry.now) held.new
        (K.written sink.old) (K.written sink.new)) }
    ensures front { OnErr result (WroteFront (held.old ++ entry_text entry.now)
        (K.written sink.old) (K.written sink.new)) }
    ensures kept { IsErrOf result Cut.NoMemory
        → WroteAll held.old (K.written sink.old) (K.written sink.new) }
    ensures counted { CountsCut (K.faults sink.old) (K.faults sink.new) result }
{
    match print_entry(entry, held) {
        Ok(()) => flush_if_full(alloc, held, sink),
        Err(_) => Err(flush_and_stop(held, sink)),
    }
}

// Prints the lines of entries, and hands them on.
fn print_entries<K: Sink>(
    alloc: Global,
    history: &[Entry],
    held: &mut Bytes,
    sink: &mut K,
) -> Result<(), Cut>
    ensures printed { OnOk result (Gathered (held.old ++ flat_map entry_text history.now) held.new
        (K.written sink.old) (K.written sink.new)) }
    ensures front { OnErr result (WroteFront (held.old ++ flat_map entry_text history.now)
        (K.written sink.old) (K.written sink.new)) }
    ensures counted { CountsCut (K.faults sink.old) (K.faults sink.new) result }
{
    for entry in history {
        print_one(alloc, entry, held, sink)?;
    }
    Ok(())
}

// Prints the last line, and writes all that is held.
fn print_end<K: Sink>(
    alloc: Global,
    count: usize,
    held: &mut Bytes,
    sink: &mut K,
) -> Result<(), Cut>
    ensures printed { OnOk result (Added (held.old ++ end_text count)
        (K.written sink.old) (K.written sink.new)) }
    ensures front { OnErr result (WroteFront (held.old ++ end_text count)
        (K.written sink.old) (K.written sink.new)) }
    ensures kept { IsErrOf result Cut.NoMemory
        → WroteAll held.old (K.written sink.old) (K.written sink.new) }
    ensures counted { CountsCut (K.faults sink.old) (K.faults sink.new) result }
{
    match append_end(alloc, count, held) {
        Ok(()) => flush(alloc, held, sink),
        Err(_) => Err(flush_and_stop(held, sink)),
    }
}

// Appends the last line.
fn append_end(alloc: Global, count: usize, held: &mut Bytes) -> Result<(), NoMemory>
    ensures appended { OnOk result (held.new ≡ held.old ++ end_text count) }
    ensures unchanged { OnErr result (held.new ≡ held.old) }
{
    let text = format!(in alloc; "end {count}\n")?;
    held.append(text.as_bytes())
}

// Prints the lines of the history and the last line, and writes all that is held.
fn print_history<K: Sink>(
    alloc: Global,
    history: &[Entry],
    held: &mut Bytes,
    sink: &mut K,
) -> Result<(), Cut>
    ensures printed { OnOk result (Added (held.old ++ history_text history.now)
        (K.written sink.old) (K.written sink.new)) }
    ensures front { OnErr result (WroteFront (held.old ++ history_text history.now)
        (K.written sink.old) (K.written sink.new)) }
    ensures counted { CountsCut (K.faults sink.old) (K.faults sink.new) result }
{
    print_entries(alloc, history, held, sink)?;
    print_end(alloc, history.len(), held, sink)
}

// Writes the transcript, and leaves the world that stands for its events.
fn write_transcript<K: Sink>(
    alloc: Global,
    schedule: &Schedule,
    world: &mut World,
    sink: &mut K,
) -> Result<(), Cut>
    requires served { IsServed schedule.now }
    requires opened { world.old ≡ opened schedule.now.config }
    ensures printed { OnOk result
        (Added (transcript schedule.now) (K.written sink.old) (K.written sink.new)) }
    ensures stands { OnOk result
        (StandsFor schedule.now.config schedule.now.events world.new) }
    ensures front { OnErr result
        (WroteFront (transcript schedule.now) (K.written sink.old) (K.written sink.new)) }
    ensures counted { CountsCut (K.faults sink.old) (K.faults sink.new) result }
{
    let mut held = Bytes::create(alloc);
    held.append(schedule.header.as_slice())?;
    print_events(alloc, schedule, world, &mut held, sink)?;
    print_history(alloc, world.history(), &mut held, sink)
}

/// Writes the transcript of a schedule over its world at the opening, and tells how that ended.
/// With success the world is left that stands for all its events.
pub fn play<K: Sink>(
    alloc: Global,
    schedule: &Schedule,
    world: World,
    sink: &mut K,
    left: &mut Left,
) -> Status
    requires served { IsServed schedule.now }
    requires opened { world ≡ opened schedule.now.config }
    requires nothing { left.old ≡ Left.Nothing }
    ensures { Plays schedule.now (transcript schedule.now) (K.written sink.old)
        (K.written sink.new) (K.faults sink.old) (K.faults sink.new) left.new result }
{
    let mut world = world;
    match write_transcript(alloc, schedule, &mut world, sink) {
        Ok(()) => {
            *left = Left::Replayed(world);
            Status::Ok
        }
        Err(Cut::WriteFault) => Status::WriteFault,
        Err(Cut::NoMemory) => Status::NoMemory,
    }
}
