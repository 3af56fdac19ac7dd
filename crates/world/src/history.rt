//! The history of a world: entries in the order of line and position.

ghost use Rattle.std.specs.Prelude.{◌≡◌, ◌≤◌, IfOk, OnOk, length, not};
ghost use Rattle.std.specs.List.{insert, position_or_len};
ghost use Rattle.trace.specs.Account.{is_before, with_entry};
ghost use Rattle.trace.specs.Properties.{IsInOrder};
ghost use Rattle.world.specs.Saying.{entered_in, looked_in, with_look};

use crate::ask::Made;
use cl_types::frame::Head;
use cl_types::items::NoMemory;
use cl_types::line::Entry;
use cl_types::reply::Part;
use cl_types::request::Request;

// Whether the entry stands before the other's place.
fn is_before(entry: &Entry, place: &Entry) -> bool
    ensures { result ≡ is_before place.now.line place.now.position entry.now }
{
    entry.line < place.line || entry.line == place.line && entry.position < place.position
}

// Where the entry is to stand. The search begins at the end, since it is among the latest.
fn place_of(history: &[Entry], entry: &Entry) -> usize
    requires { IsInOrder history.now }
    ensures place { result ≡ position_or_len
        (λ e. not (is_before entry.now.line entry.now.position e)) history.now }
    ensures within { result ≤ length history.now }
{
    let mut at = history.len();
    while at > 0 {
        if is_before(&history[at - 1], entry) {
            return at;
        }
        at -= 1;
    }
    0
}

fn insert_at(history: &mut Vec<Entry>, place: usize, entry: Entry) -> Result<(), NoMemory>
    requires { place ≤ length history.old.items }
    ensures { OnOk result (history.new.items ≡ insert history.old.items place entry) }
{
    if history.insert(place, entry).is_err() {
        return Err(NoMemory);
    }
    Ok(())
}

/// Puts an entry into its place.
#[tactic(auto, using(crate::proofs::HistoryLemmas::inserted))]
pub fn put_in_place(history: &mut Vec<Entry>, entry: Entry) -> Result<(), NoMemory>
    requires { IsInOrder history.old.items }
    ensures { OnOk result (history.new.items ≡ with_entry entry history.old.items) }
{
    let place = place_of(history, &entry);
    insert_at(history, place, entry)?;
    Ok(())
}

/// Enters what was made of a request that the node answered on the line, and gives back what a note
/// keeps of it.
pub fn enter(
    history: &mut Vec<Entry>,
    line: u32,
    head: &Head,
    part: Part,
    made: Made,
) -> Result<Option<Request>, NoMemory>
    requires { IsInOrder history.old.items }
    ensures looked { IfOk result (λ looked. looked ≡ looked_in made) }
    ensures history { OnOk result (history.new.items
        ≡ entered_in made line head.now part history.old.items) }
{
    match made {
        Made::Executed { request, reply } => {
            put_in_place(
                history,
                Entry {
                    line,
                    position: 0,
                    client: head.client,
                    pid: head.pid,
                    part,
                    request,
                    reply,
                },
            )?;
            Ok(None)
        }
        Made::Repeated => Ok(None),
        Made::Looked { request } => Ok(Some(request)),
    }
}

/// Enters a look whose reply was taken.
pub fn enter_look(history: &mut Vec<Entry>, entry: Option<Entry>) -> Result<(), NoMemory>
    requires { IsInOrder history.old.items }
    ensures { OnOk result (history.new.items ≡ with_look entry history.old.items) }
{
    match entry {
        None => Ok(()),
        Some(entry) => put_in_place(history, entry),
    }
}
