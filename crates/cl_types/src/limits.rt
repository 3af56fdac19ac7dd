//! The numbers of the system, each in its one home. Times are in ticks.

/// How many bytes a page has.
pub const PAGE_BYTES: u32 = 4096;

/// How many page numbers a space has: 0 to 65,535, of which page 0 is never mapped.
pub const SPACE_PAGES: u32 = 65_536;

/// The end of the good addresses of a space, 2^28.
pub const ADDRESS_END: u32 = 0x1000_0000;

/// How many pages one bucket of the page table holds.
pub const BUCKET_PAGES: u32 = 4;

/// The greatest number of pages of a range.
pub const RANGE_PAGES: u32 = 1024;

/// The greatest number of bytes of a part, and of what an offload is given or answers.
pub const PART_BYTES: u32 = 1024;

/// The greatest number of bytes of a Read or a Write.
pub const CALL_BYTES: u32 = 65_536;

/// How many bytes a buffer for a frame has.
pub const FRAME_ROOM: usize = 1200;

/// The greatest number of bytes of a reply's frame.
pub const REPLY_BYTES: usize = 1051;

/// The greatest number of parts of a call: a Read or a Write that begins within a part has one more than it fills.
pub const MOST_PARTS: usize = 65;

/// The greatest number of bytes of a key of a key-value store.
pub const KEY_BYTES: u32 = 32;

/// The greatest number of bytes of a value of a key-value store.
pub const VALUE_BYTES: u32 = 256;

/// How many calls a client holds at most, those that have ended and were not handed back among them.
pub const HELD_CALLS: u32 = 256;

/// How many parts of a client are in flight at most.
pub const PARTS_IN_FLIGHT: u32 = 64;

/// A frame that was sent at `s` is live at `t` where `t - s` is below this.
pub const LIFE: u64 = 100;

/// How long ago the last sending of a part has to be before it is sent again.
pub const TIMEOUT: u64 = 100;

/// The greatest age, since its first sending, at which a part is sent again.
pub const LAST_RESEND: u64 = 300;

/// The age at which a part is given up, and below which a recorded reply is young.
pub const SPAN: u64 = 400;

/// The greatest number of bytes of a schedule, a script or a transcript.
pub const INPUT_BYTES: usize = 16_777_216;

/// The greatest number of lines of a schedule or a script.
pub const INPUT_LINES: u32 = 200_000;

/// The end of the numbers of lines, 2^29: the ids and frames of so many events fit into 32 and 64 bits.
pub const LINES_END: u32 = 0x2000_0000;

/// The greatest number of ticks that go by at one event.
pub const MOST_TICKS: u64 = 1_000_000_000;

/// The greatest number of clients of a schedule.
pub const MOST_CLIENTS: usize = 64;

/// After how many turns in a row with nothing to show a driven client is stalled.
pub const STALL_TURNS: u32 = 1_000_000;

// The good addresses are those of a space's pages.
const _: () = prove!(SPACE_PAGES * PAGE_BYTES == ADDRESS_END);

// A page is a whole number of parts, so at most two pieces of a call are shorter than a part: the one at the end of its
// first page, and the last.
const _: () = prove!(MOST_PARTS == (CALL_BYTES / PART_BYTES) as usize + 1);

// Each frame fits into a buffer for frames.
const _: () = prove!(REPLY_BYTES <= FRAME_ROOM);

// The lines of an input are in range.
const _: () = prove!(INPUT_LINES < LINES_END);

// A frame that carries a part is dead before the part is given up.
const _: () = prove!(LAST_RESEND + LIFE <= SPAN);
