//! The entries of a history, one after another.

ghost use Rattle.std.specs.Prelude.{◌≡◌, ◌<◌, ◌^◌, IfOk, IfErr, MatchOption, Err, length};
ghost use Rattle.flat_model.specs.Opening.{open_fault};
ghost use Rattle.flat_model.specs.State.{opening};
ghost use Rattle.history_check.specs.Verdicts.{IsVerdict, IsVerdictFrom};

use cl_types::config::{Config, NodeConfig};
use cl_types::items::NoMemory;
use cl_types::line::Entry;
use cl_types::open_fault::OpenFault;
use flat_model::check::check_step;
use flat_model::flat::Flat;
use flat_model::opening::create;
use std::alloc::Global;

/// What a history is.
#[derive(Clone, Copy, Debug, PartialEq, Eq)]
pub enum Verdict {
    /// Every entry is a step.
    Run,
    /// The entry of this number, from 1, is the first that is no step.
    NotRun { entry: u32 },
}

/// Why a history was not checked.
#[derive(Clone, Copy, Debug, PartialEq, Eq)]
pub enum CheckFault {
    /// The machine of the configuration doesn't open. This is never `OpenFault::NoMemory`.
    Opening(OpenFault),
    /// An allocation failed.
    NoMemory,
}

impl From<NoMemory> for CheckFault {
    ghost use Rattle.std.specs.Prelude.{◌≡◌};
    ghost use Rattle.history_check.specs.declared.history.CheckFault.TheVariants as faults;

    ghost from_gives = { λ error fault. fault ≡ faults.NoMemory };

    fn from(_error: NoMemory) -> Self {
        CheckFault::NoMemory
    }
}

// The machine of a configuration at its opening.
#[tactic(auto, using(crate::proofs::VerdictLemmas::memory_is_no_open_fault))]
fn open(alloc: Global, config: &NodeConfig) -> Result<Flat, CheckFault>
    ensures opened { IfOk result (λ flat. flat ≡ opening config.now) }
    ensures fault { MatchOption (open_fault config.now) (IfErr result (λ fault. fault ≡ CheckFault.NoMemory))
        (λ fault. result ≡ Err (CheckFault.Opening fault)) }
{
    match create(alloc, config) {
        Ok(flat) => Ok(flat),
        Err(OpenFault::NoMemory) => Err(CheckFault::NoMemory),
        Err(fault) => Err(CheckFault::Opening(fault)),
    }
}

// Whether the entries are steps from the machine's state on.
fn check_entries(alloc: Global, flat: &mut Flat, entries: &[Entry]) -> Result<Verdict, NoMemory>
    requires few { length entries.now < 2 ^ 32 }
    ensures { IfOk result (λ verdict. IsVerdictFrom flat.old entries.now verdict) }
{
    let mut number: u32 = 0;
    for entry in entries {
        number += 1;
        if !check_step(alloc, flat, entry.pid, &entry.request, &entry.reply)? {
            return Ok(Verdict::NotRun { entry: number });
        }
    }
    Ok(Verdict::Run)
}

/// Checks whether the entries are a run of the flat machine of the configuration, from its opening on. The clients of
/// the configuration are not looked at. An Alloc may start wherever it fits, not only at the least start.
pub fn check(alloc: Global, config: &Config, entries: &[Entry]) -> Result<Verdict, CheckFault>
    requires few { length entries.now < 2 ^ 32 }
    ensures verdict { IfOk result (λ verdict. IsVerdict config.now.node entries.now verdict) }
    ensures fault { MatchOption (open_fault config.now.node) (IfErr result (λ fault. fault ≡ CheckFault.NoMemory))
        (λ fault. result ≡ Err (CheckFault.Opening fault)) }
{
    let mut flat = open(alloc, &config.node)?;
    Ok(check_entries(alloc, &mut flat, entries)?)
}
