//! The history of a transcript, read back line by line.

ghost use Rattle.std.specs.Prelude.{◌≡◌, ◌≤◌, IfOk, length};
ghost use Rattle.cl_types.specs.declared.limits.TheConstants.{INPUT_LINES};
ghost use Rattle.std.specs.List.{list_any};
ghost use Rattle.texts.specs.Text.{is_text};
ghost use Rattle.transcript_text.specs.HistoryGrammar.{HistoryReading, by_first_word, count_in, end_line, entry_line, header_words, history_at_end, history_line, history_of, is_after, is_event_line, judged_history_line, no_history, other_line, process_of, rises, with_count, with_entry, with_header, with_process};
ghost use Rattle.schedule_text.specs.Reading.{Reads};
ghost use Rattle.schedule_text.specs.Readings.{Gives};
ghost use Rattle.schedule_text.specs.Telling.{LeavesOf};
ghost use Rattle.texts.specs.Grammar.{line_read};
ghost use Rattle.texts.specs.Text.{first_word, words_in};

use crate::entry_words::entry_in;
use cl_types::config::Config;
use cl_types::line::{Entry, EntryList};
use cl_types::numbers::{ClientNo, Pid};
use cl_types::schedule::What;
use schedule_text::numbers::number;
use schedule_text::parts::cut;
use schedule_text::{Reading, ScheduleFault, is_passed_over, next_line, too_long};
use std::alloc::Global;
use std::marker::Model;

/// The greatest number of entries that an end line may count.
const MOST_ENTRIES: u64 = 4_294_967_295;

// What the lines read so far give. A clause sees it as the grammar's reading.
#[derive(Drop)]
struct History {
    reading: Reading,
    entries: EntryList,
    // Whether the end line was read.
    ended: bool,
}

impl Model for History {
    ghost use Rattle.transcript_text.specs.HistoryGrammar.{HistoryReading};

    ghost Value = { HistoryReading };

    ghost view = { λ h. record { reading = h.reading; entries = h.entries; ended = h.ended } };
}

// Whether the line begins with a digit.
fn is_event_line(line: &[u8]) -> bool
    ensures { result ≡ is_event_line line.now }
{
    match line {
        [] => false,
        [first, ..] => first.is_ascii_digit(),
    }
}

// Whether a header line begins with this word.
fn is_header_word(word: &[u8]) -> bool
    ensures { result ≡ list_any (is_text word.now) header_words }
{
    word == b"node".as_slice() || word == b"offload".as_slice() || word == b"client".as_slice()
}

// Whether the entry comes after this one.
fn is_after(last: &Entry, entry: &Entry) -> bool
    ensures { result ≡ is_after last.now entry.now }
{
    last.line < entry.line || last.line == entry.line && last.position < entry.position
}

// Whether the entry comes after all of these.
fn rises(entries: &[Entry], entry: &Entry) -> bool
    ensures { result ≡ rises entries.now entry.now }
{
    match entries.get(entries.len().saturating_sub(1)) {
        None => true,
        Some(last) => is_after(last, entry),
    }
}

// The process of a client, where the client was given.
fn process_of(clients: &[(ClientNo, Pid)], client: ClientNo) -> Option<Pid>
    ensures { result ≡ process_of clients.now client }
{
    for given in clients {
        if given.0.0 == client.0 {
            return Some(given.1);
        }
    }
    None
}

// The number of an end line, where it has its form.
fn count_in(line: &[u8]) -> Option<u64>
    ensures { result ≡ count_in line.now }
{
    let (front, count) = line.split_at_checked(4)?;
    if front != b"end ".as_slice() {
        return None;
    }
    number(0, MOST_ENTRIES, count)
}

impl History {
    // No line was read.
    fn create(alloc: Global) -> Self
        ensures { result ≡ no_history }
    {
        History {
            reading: Reading::create(alloc),
            entries: EntryList::create(alloc),
            ended: false,
        }
    }

    // Adds an entry of a client of this process.
    fn add(&mut self, number: u32, entry: Entry, pid: Option<Pid>) -> Result<(), ScheduleFault>
        ensures { LeavesOf self.new result (with_process self.old number entry pid) }
    {
        let Some(pid) = pid else {
            let what = What::UnknownClient;
            return Err(ScheduleFault::Line { number, what });
        };
        let mut entry = entry;
        entry.pid = pid;
        self.entries.push(entry)?;
        self.reading.end_header();
        Ok(())
    }

    // Adds the entry of a line.
    fn add_entry(&mut self, number: u32, entry: Option<Entry>) -> Result<(), ScheduleFault>
        ensures { LeavesOf self.new result (with_entry self.old number entry) }
    {
        let what = What::BadEntry;
        let Some(entry) = entry else {
            return Err(ScheduleFault::Line { number, what });
        };
        if !rises(self.entries.as_slice(), &entry) {
            return Err(ScheduleFault::Line { number, what });
        }
        let pid = process_of(self.reading.clients(), entry.client);
        self.add(number, entry, pid)
    }

    // Reads an h line.
    fn read_entry(&mut self, alloc: Global, number: u32, line: &[u8]) -> Result<(), ScheduleFault>
        ensures { LeavesOf self.new result (entry_line self.old number line.now) }
    {
        if let Some(what) = self.reading.place_fault(line) {
            return Err(ScheduleFault::Line { number, what });
        }
        let entry = entry_in(alloc, line)?;
        self.add_entry(number, entry)
    }

    // Ends the history, where it has so many entries.
    fn end(&mut self, number: u32, count: Option<u64>) -> Result<(), ScheduleFault>
        ensures { LeavesOf self.new result (with_count self.old number count) }
    {
        let what = What::BadCount;
        let Some(count) = count else {
            return Err(ScheduleFault::Line { number, what });
        };
        if count != self.entries.as_slice().len() as u64 {
            return Err(ScheduleFault::Line { number, what });
        }
        self.ended = true;
        Ok(())
    }

    // Reads an end line.
    fn read_end(&mut self, number: u32, line: &[u8]) -> Result<(), ScheduleFault>
        ensures { LeavesOf self.new result (end_line self.old number line.now) }
    {
        if let Some(what) = self.reading.place_fault(line) {
            return Err(ScheduleFault::Line { number, what });
        }
        self.end(number, count_in(line))
    }

    // Refuses a line that begins with no known word.
    fn refuse(&self, number: u32, line: &[u8]) -> Result<(), ScheduleFault>
        ensures { LeavesOf self.now result (other_line self.now number line.now) }
    {
        if let Some(what) = self.reading.place_fault(line) {
            return Err(ScheduleFault::Line { number, what });
        }
        let what = What::UnknownWord;
        Err(ScheduleFault::Line { number, what })
    }

    // Reads a header line, as a schedule's.
    fn read_header(&mut self, alloc: Global, number: u32, line: &[u8]) -> Result<(), ScheduleFault>
        ensures { LeavesOf self.new result
            (with_header self.old (line_read self.old.reading number line.now)) }
    {
        self.reading.read_line(alloc, number, line)
    }

    // Reads a line by its first word.
    fn read_by_word(
        &mut self,
        alloc: Global,
        number: u32,
        line: &[u8],
        word: &[u8],
    ) -> Result<(), ScheduleFault>
        ensures { LeavesOf self.new result (by_first_word self.old number line.now word.now) }
    {
        if word == b"h".as_slice() {
            self.read_entry(alloc, number, line)
        } else if word == b"end".as_slice() {
            self.read_end(number, line)
        } else if is_header_word(word) {
            self.read_header(alloc, number, line)
        } else {
            self.refuse(number, line)
        }
    }

    // Reads a line that isn't skipped.
    fn read_judged(&mut self, alloc: Global, number: u32, line: &[u8]) -> Result<(), ScheduleFault>
        ensures { LeavesOf self.new result (judged_history_line self.old number line.now) }
    {
        if self.ended {
            let what = What::EndExpected;
            return Err(ScheduleFault::Line { number, what });
        }
        let (word, _) = cut(line, b' ');
        self.read_by_word(alloc, number, line, word)
    }

    // Reads one line more.
    fn read_line(&mut self, alloc: Global, number: u32, line: &[u8]) -> Result<(), ScheduleFault>
        ensures { LeavesOf self.new result (history_line self.old number line.now) }
    {
        if is_passed_over(line) || is_event_line(line) {
            return Ok(());
        }
        self.read_judged(alloc, number, line)
    }

    // The configuration and the entries that were read; `number` is one more than that of the last line.
    fn finish(self, number: u32) -> Result<(Config, EntryList), ScheduleFault>
        ensures { Gives (history_at_end self number) result }
    {
        let History {
            reading,
            entries,
            ended,
        } = self;
        match reading.finish(number) {
            Err(fault) => Err(fault),
            Ok(header) => {
                if !ended {
                    let what = What::EndExpected;
                    return Err(ScheduleFault::Line { number, what });
                }
                Ok((header.config, entries))
            }
        }
    }
}

/// Reads the configuration and the history of a transcript, or reports its first bad line. Lines that begin with a digit
/// are skipped, so that the events' lines don't count. The process of an entry is that of its client's line. That the
/// bytes or their lines are too many is reported before any line. There are not more entries than there may be lines.
pub fn read_history(alloc: Global, bytes: &[u8]) -> Result<(Config, EntryList), ScheduleFault>
    ensures reads { Reads bytes.now (history_of bytes.now) result }
    ensures few { IfOk result (λ read. length read.1 ≤ INPUT_LINES) }
{
    if let Some(fault) = too_long(bytes) {
        return Err(fault);
    }
    let mut history = History::create(alloc);
    let mut rest = bytes;
    let mut number = 1;
    while !rest.is_empty() {
        let (line, more) = next_line(rest);
        if let Err(fault) = history.read_line(alloc, number, line) {
            return Err(fault);
        }
        rest = more;
        number += 1;
    }
    history.finish(number)
}
