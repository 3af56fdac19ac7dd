//! The words of a command line.

ghost use Rattle.std.specs.Prelude.{◌≡◌, ◌++◌, ◌∷◌, ◌≤◌, [], IfSome, OnErr, OnOk};
ghost use Rattle.std.specs.Option.{option_map};
ghost use Rattle.cl_types.specs.declared.numbers.TheConstants.{LAST_PID};
ghost use Rattle.storm_gen.specs.declared.limits.TheConstants.{MOST_CALLS};
ghost use Rattle.texts.specs.Commands.{command_in};
ghost use Rattle.clio_cli.specs.Words.{IsWithinLimits, command_of, drive_of, serve_of, storm_of};

use cl_types::items::{Bytes, Items, NoMemory};
use cl_types::numbers::{ClientNo, LAST_PID, Pid, try_pid};
use schedule_text::numbers::number;
use std::alloc::Global;
use std::marker::Model;
use storm_gen::MOST_CALLS;

/// The numbers of `node`.
#[derive(Clone, Copy, Debug, PartialEq, Eq)]
pub struct NodeWords {
    /// The port that is bound, or any free one where it is 0.
    pub port: u16,
    pub pages: u64,
    pub buckets: u64,
    pub ring: u64,
    pub retry: u64,
    /// After how many datagrams serving ends: at least 1.
    pub frames: u32,
    /// After how many idle turns in a row it ends: at least 1.
    pub idles: u32,
}

/// The numbers of `client`.
#[derive(Clone, Copy, Debug, PartialEq, Eq)]
pub struct ClientWords {
    /// The port of the node, on the same machine.
    pub port: u16,
    pub client: ClientNo,
    pub pid: Pid,
}

/// What the program is asked to do.
#[derive(Clone, Copy, Debug, PartialEq, Eq)]
pub enum Asked {
    /// Replay a schedule.
    Replay,
    /// Check a transcript.
    Check,
    /// Replay the schedule that is generated of this seed, with so many calls.
    Storm { seed: u64, calls: u32 },
    /// Serve a node.
    Serve(NodeWords),
    /// Drive a client through a script.
    Drive(ClientWords),
}

/// Words, without the name of the program. A clause sees them as the list of their bytes.
#[derive(Drop)]
pub struct Words {
    alloc: Global,
    words: Items<Bytes>,
}

impl Model for Words {
    ghost use Rattle.std.specs.Prelude.{List, ℕ};

    ghost Value = { List (List ℕ) };

    ghost view = { λ w. w.words };
}

impl Words {
    /// No words.
    pub fn create(alloc: Global) -> Words
        ensures { result ≡ [] }
    {
        Words {
            alloc,
            words: Items::create(alloc),
        }
    }

    /// Appends a word.
    pub fn push(&mut self, word: &str) -> Result<(), NoMemory>
        ensures pushed { OnOk result (self.new ≡ self.old ++ word.now ∷ []) }
        ensures unchanged { OnErr result (self.new ≡ self.old) }
    {
        let mut bytes = Bytes::create(self.alloc);
        bytes.append(word.as_bytes())?;
        self.words.push(bytes)
    }

    /// What the words ask, if they are a command.
    #[tactic(auto, using(crate::proofs::WordLemmas::other_words))]
    pub(crate) fn meaning(&self) -> Option<Asked>
        ensures asked { command_in self.now ≡ option_map command_of result }
        ensures limits { IfSome result IsWithinLimits }
    {
        match self.words.as_slice() {
            [word] => plain(word.as_slice()),
            [word, seed, calls] => storm(word.as_slice(), seed.as_slice(), calls.as_slice()),
            [word, port, client, pid] => {
                drive(
                    word.as_slice(),
                    port.as_slice(),
                    client.as_slice(),
                    pid.as_slice(),
                )
            }
            [word, port, pages, buckets, ring, retry, frames, idles] => serve(
                word.as_slice(),
                port.as_slice(),
                pages.as_slice(),
                buckets.as_slice(),
                ring.as_slice(),
                retry.as_slice(),
                frames.as_slice(),
                idles.as_slice(),
            ),
            _ => None,
        }
    }
}

/// What a word alone asks.
#[tactic(auto, using(crate::proofs::WordLemmas::asks_replay, crate::proofs::WordLemmas::asks_check, crate::proofs::WordLemmas::asks_nothing))]
fn plain(word: &[u8]) -> Option<Asked>
    ensures asked { command_in (word.now ∷ []) ≡ option_map command_of result }
    ensures limits { IfSome result IsWithinLimits }
{
    if word == b"replay".as_slice() {
        return Some(Asked::Replay);
    }
    if word == b"check".as_slice() {
        return Some(Asked::Check);
    }
    None
}

/// What three words ask: a storm of a seed and a number of calls.
#[tactic(auto, using(crate::proofs::WordLemmas::asks_storm_of, crate::proofs::WordLemmas::asks_no_storm))]
fn storm(word: &[u8], seed: &[u8], calls: &[u8]) -> Option<Asked>
    ensures asked { command_in (word.now ∷ seed.now ∷ calls.now ∷ []) ≡ option_map command_of result }
    ensures limits { IfSome result IsWithinLimits }
{
    if word != b"storm".as_slice() {
        return None;
    }
    storm_of(
        number(0, u64::MAX, seed),
        number(0, u64::from(MOST_CALLS), calls),
    )
}

/// The storm of a seed and a number of calls, where both are numbers.
fn storm_of(seed: Option<u64>, calls: Option<u64>) -> Option<Asked>
    requires { IfSome calls (λ calls. calls ≤ MOST_CALLS) }
    ensures asked { result ≡ storm_of seed calls }
    ensures limits { IfSome result IsWithinLimits }
{
    Some(Asked::Storm {
        seed: seed?,
        calls: calls? as u32,
    })
}

/// What four words ask: a client of a node's port, of this number and process.
#[tactic(auto, using(crate::proofs::WordLemmas::asks_drive_of, crate::proofs::WordLemmas::asks_no_drive))]
fn drive(word: &[u8], port: &[u8], client: &[u8], pid: &[u8]) -> Option<Asked>
    ensures asked { command_in (word.now ∷ port.now ∷ client.now ∷ pid.now ∷ []) ≡ option_map command_of result }
    ensures limits { IfSome result IsWithinLimits }
{
    if word != b"client".as_slice() {
        return None;
    }
    drive_of(
        number(1, 65_535, port),
        number(0, 65_535, client),
        number(1, u64::from(LAST_PID), pid),
    )
}

/// The client of three numbers, where all are.
fn drive_of(port: Option<u64>, client: Option<u64>, pid: Option<u64>) -> Option<Asked>
    requires port { IfSome port (λ n. n ≤ 65535) }
    requires client { IfSome client (λ n. n ≤ 65535) }
    requires pid { IfSome pid (λ n. (1 ≤ n) × (n ≤ LAST_PID)) }
    ensures asked { result ≡ drive_of port client pid }
    ensures limits { IfSome result IsWithinLimits }
{
    Some(Asked::Drive(ClientWords {
        port: port? as u16,
        client: ClientNo(client? as u16),
        pid: try_pid(pid? as u16)?,
    }))
}

/// What eight words ask: a node on a port, with its configuration, and when its serving ends.
#[tactic(auto, using(crate::proofs::WordLemmas::asks_serve_of, crate::proofs::WordLemmas::asks_no_serve))]
fn serve(
    word: &[u8],
    port: &[u8],
    pages: &[u8],
    buckets: &[u8],
    ring: &[u8],
    retry: &[u8],
    frames: &[u8],
    idles: &[u8],
) -> Option<Asked>
    ensures asked { command_in (word.now ∷ port.now ∷ pages.now ∷ buckets.now ∷ ring.now ∷ retry.now ∷ frames.now ∷ idles.now ∷ [])
        ≡ option_map command_of result }
    ensures limits { IfSome result IsWithinLimits }
{
    if word != b"node".as_slice() {
        return None;
    }
    serve_of(
        number(0, 65_535, port),
        number(0, u64::MAX, pages),
        number(0, u64::MAX, buckets),
        number(0, u64::MAX, ring),
        number(0, u64::MAX, retry),
        number(1, 4_294_967_295, frames),
        number(1, 4_294_967_295, idles),
    )
}

/// The node of seven numbers, where all are.
fn serve_of(
    port: Option<u64>,
    pages: Option<u64>,
    buckets: Option<u64>,
    ring: Option<u64>,
    retry: Option<u64>,
    frames: Option<u64>,
    idles: Option<u64>,
) -> Option<Asked>
    requires port { IfSome port (λ n. n ≤ 65535) }
    requires frames { IfSome frames (λ n. (1 ≤ n) × (n ≤ 4294967295)) }
    requires idles { IfSome idles (λ n. (1 ≤ n) × (n ≤ 4294967295)) }
    ensures asked { result ≡ serve_of port pages buckets ring retry frames idles }
    ensures limits { IfSome result IsWithinLimits }
{
    Some(Asked::Serve(NodeWords {
        port: port? as u16,
        pages: pages?,
        buckets: buckets?,
        ring: ring?,
        retry: retry?,
        frames: frames? as u32,
        idles: idles? as u32,
    }))
}
