//! The top call.

ghost use Rattle.std.specs.Prelude.{◌≡◌, Some};
ghost use Rattle.texts.specs.Commands.{command_in};
ghost use Rattle.wire_loop.specs.Serves.{incoming, told_of};
ghost use Rattle.command_text.specs.Outputs.{bad_words};
ghost use Rattle.command_text.specs.Serving.{Says};
ghost use Rattle.command_text.specs.Streams.{streams};
ghost use Rattle.clio_cli.specs.Run.{network, outside};
ghost use Rattle.clio_cli.specs.Runs.{Runs};
ghost use Rattle.clio_cli.specs.Wanted.{Serves};
ghost use Rattle.clio_cli.specs.Words.{command_of};

use crate::loops::{drive_words, serve_words};
use crate::script::{WantedScript, wanted_script};
use crate::words::{Asked, ClientWords, Words};
use check_command::serve_check;
use cl_outside::{Clock, Sink, Source, Wire, write_all};
use command_text::{Halt, Left, Status, say};
use replay_command::serve_replay;
use std::alloc::Global;
use storm_command::serve_storm;

// Tells that the words are no command.
fn refuse_words<K: Sink>(sink: &mut K) -> Status
    ensures { Says bad_words (K.written sink.old) (K.written sink.new)
        (K.faults sink.old) (K.faults sink.new) result }
{
    match write_all(sink, b"bad words\n") {
        Ok(()) => Status::BadWords,
        Err(_) => Status::WriteFault,
    }
}

// Serves `client`.
fn serve_client<S: Source, K: Sink, W: Wire, C: Clock>(
    alloc: Global,
    words: ClientWords,
    source: &mut S,
    sink: &mut K,
    wire: &mut W,
    clock: &mut C,
    left: &mut Left,
) -> Status
    requires nothing { left.old ≡ Left.Nothing }
    ensures { Serves (Some (command_of (Asked.Drive words)))
        (outside (streams (S.left source.old) (S.faults source.old) (K.written sink.old) (K.faults sink.old))
        (network (told_of (incoming (W.coming wire.old) (W.idles wire.old)) (W.sent wire.old) (C.moments clock.old)) (W.last_bind wire.old) (W.faults wire.old)))
        (outside (streams (S.left source.new) (S.faults source.new) (K.written sink.new) (K.faults sink.new))
        (network (told_of (incoming (W.coming wire.new) (W.idles wire.new)) (W.sent wire.new) (C.moments clock.new)) (W.last_bind wire.new) (W.faults wire.new)))
        left.new result }
{
    match wanted_script(alloc, source) {
        Ok(WantedScript::Refused(output)) => say(sink, &output),
        Ok(WantedScript::Scripted(script)) => {
            drive_words(alloc, words, &script, wire, clock, sink, left)
        }
        Err(Halt::ReadFault) => Status::ReadFault,
        Err(Halt::NoMemory) => Status::NoMemory,
    }
}

// Serves a command line.
fn serve<S: Source, K: Sink, W: Wire, C: Clock>(
    alloc: Global,
    words: &Words,
    source: &mut S,
    sink: &mut K,
    wire: &mut W,
    clock: &mut C,
    left: &mut Left,
) -> Status
    requires nothing { left.old ≡ Left.Nothing }
    ensures { Serves (command_in words.now)
        (outside (streams (S.left source.old) (S.faults source.old) (K.written sink.old) (K.faults sink.old))
        (network (told_of (incoming (W.coming wire.old) (W.idles wire.old)) (W.sent wire.old) (C.moments clock.old)) (W.last_bind wire.old) (W.faults wire.old)))
        (outside (streams (S.left source.new) (S.faults source.new) (K.written sink.new) (K.faults sink.new))
        (network (told_of (incoming (W.coming wire.new) (W.idles wire.new)) (W.sent wire.new) (C.moments clock.new)) (W.last_bind wire.new) (W.faults wire.new)))
        left.new result }
{
    match words.meaning() {
        None => refuse_words(sink),
        Some(Asked::Replay) => serve_replay(alloc, source, sink, left),
        Some(Asked::Check) => serve_check(alloc, source, sink),
        Some(Asked::Storm { seed, calls }) => serve_storm(alloc, seed, calls, sink, left),
        Some(Asked::Serve(numbers)) => serve_words(alloc, numbers, wire, clock, sink, left),
        Some(Asked::Drive(numbers)) => {
            serve_client(alloc, numbers, source, sink, wire, clock, left)
        }
    }
}

/// Serves a command line, and answers the status with which the program is to end, as the rules of
/// the commands in docs/RULES.md number them. With success `left` is what the command worked with,
/// which of `check` is `Nothing`, and else it is `Nothing`; what stood in it before is dropped.
pub fn run<S: Source, K: Sink, W: Wire, C: Clock>(
    alloc: Global,
    words: &Words,
    source: &mut S,
    sink: &mut K,
    wire: &mut W,
    clock: &mut C,
    left: &mut Left,
) -> u8
    ensures { Runs words.now
        (outside (streams (S.left source.old) (S.faults source.old) (K.written sink.old) (K.faults sink.old))
        (network (told_of (incoming (W.coming wire.old) (W.idles wire.old)) (W.sent wire.old) (C.moments clock.old)) (W.last_bind wire.old) (W.faults wire.old)))
        (outside (streams (S.left source.new) (S.faults source.new) (K.written sink.new) (K.faults sink.new))
        (network (told_of (incoming (W.coming wire.new) (W.idles wire.new)) (W.sent wire.new) (C.moments clock.new)) (W.last_bind wire.new) (W.faults wire.new)))
        left.new result }
{
    *left = Left::Nothing;
    serve(alloc, words, source, sink, wire, clock, left).number()
}
