//! The words of a line.

ghost use Rattle.std.specs.Prelude.{◌≡◌, ◌++◌, OnOk, OnErr, map};
ghost use Rattle.texts.specs.Text.{words};
ghost use Rattle.transcript_text.specs.Fronts.{IsFront};
ghost use Rattle.transcript_text.specs.Word.{text_of};

use crate::numbers::{
    print_address, print_call, print_hex, print_hex_or_dash, print_number, print_part,
};
use cl_types::items::{Bytes, NoMemory};
use cl_types::numbers::{Addr, CallNo, ClientNo};
use cl_types::reply::Part;

/// What stands between two spaces of a line.
#[derive(Clone, Copy)]
pub(crate) enum Word<'a> {
    /// One or more words as they stand.
    Plain(&'a str),
    Number(u64),
    Address(Addr),
    Call(ClientNo, CallNo),
    Part(ClientNo, Part),
    /// Bytes in hexadecimal.
    Hex(&'a [u8]),
    /// The same, or a dash for none.
    HexOrDash(&'a [u8]),
}

/// One word.
fn print_word(word: &Word, to: &mut Bytes) -> Result<(), NoMemory>
    ensures printed { OnOk result (to.new ≡ to.old ++ text_of word.now) }
    ensures front { OnErr result (IsFront to.old (text_of word.now) to.new) }
{
    match *word {
        Word::Plain(text) => to.append(text.as_bytes()),
        Word::Number(n) => print_number(n, to),
        Word::Address(addr) => print_address(addr, to),
        Word::Call(client, call) => print_call(client, call, to),
        Word::Part(client, part) => print_part(client, part, to),
        Word::Hex(bytes) => print_hex(bytes, to),
        Word::HexOrDash(bytes) => print_hex_or_dash(bytes, to),
    }
}

/// Words with one space between each two.
#[tactic(auto, using(crate::proofs::FrontLemmas::fronts))]
pub(crate) fn print_words(line: &[Word], to: &mut Bytes) -> Result<(), NoMemory>
    ensures printed { OnOk result (to.new ≡ to.old ++ words (map text_of line.now)) }
    ensures front { OnErr result (IsFront to.old (words (map text_of line.now)) to.new) }
{
    match line {
        [] => Ok(()),
        [word] => print_word(word, to),
        [word, rest @ ..] => {
            print_word(word, to)?;
            to.append(b" ")?;
            print_words(rest, to)
        }
    }
}
