//! Tests of histories: a transcript from outside is read back, printed again, and judged.

use cl_types::items::{Bytes, NoMemory};
use cl_types::line::Entry;
use history_check::{CheckFault, Verdict, check};
use std::alloc::Global;
use transcript_text::{print_entry, read_history};

const RUN: &str = "node 16 8 4 4
client 1 1
3 issued 1.1
h 5 0 1.1.0 alloc 1 rw = ok 0x1000
h 9 0 1.2.0 write 0x1000 616263 = ok
h 13 0 1.3.0 read 0x1000 4 = ok 61626300
end 3
";

const NO_RUN: &str = "node 16 8 4 4
client 1 1
h 5 0 1.1.0 alloc 1 rw = ok 0x1000
h 9 0 1.2.0 lock 0x1000 = ok 1
h 13 0 1.3.0 free 0x1000 1 = ok
end 3
";

const ENTRIES: &str = "h 5 0 1.1.0 alloc 1 rw = ok 0x1000
h 9 0 1.2.0 write 0x1000 616263 = ok
h 13 0 1.3.0 read 0x1000 4 = ok 61626300
";

/// The entries of the second.
const NO_RUN_ENTRIES: &str = "h 5 0 1.1.0 alloc 1 rw = ok 0x1000
h 9 0 1.2.0 lock 0x1000 = ok 1
h 13 0 1.3.0 free 0x1000 1 = ok
";

/// Prints entries.
fn print(entries: &[Entry], to: &mut Bytes) -> Result<(), NoMemory> {
    for entry in entries {
        print_entry(entry, to)?;
    }
    Ok(())
}

/// Whether entries are printed as this text.
fn prints(alloc: Global, entries: &[Entry], wanted: &[u8]) -> bool {
    let mut to = Bytes::create(alloc);
    print(entries, &mut to).is_ok() && to.as_slice() == wanted
}

/// Whether the entries of a transcript are printed again as this text, and their verdict. No other function owns a history,
/// since each that drops one takes the prover long.
fn judged(alloc: Global, text: &str, wanted: &str) -> Option<(bool, Result<Verdict, CheckFault>)> {
    let Ok((config, entries)) = read_history(alloc, text.as_bytes()) else {
        return None;
    };
    let printed = prints(alloc, entries.as_slice(), wanted.as_bytes());
    Some((printed, check(alloc, &config, entries.as_slice())))
}

/// Whether a run is one, and the first entry that is no step of the other is reported.
fn are_judged(alloc: Global) -> bool {
    judged(alloc, RUN, ENTRIES) == Some((true, Ok(Verdict::Run)))
        && judged(alloc, NO_RUN, NO_RUN_ENTRIES) == Some((true, Ok(Verdict::NotRun { entry: 2 })))
}

#[test]
fn histories_are_read_as_they_were_printed_and_have_their_verdicts(rt: HostRuntime) {
    assert!(rt; are_judged(rt.alloc()));
}
