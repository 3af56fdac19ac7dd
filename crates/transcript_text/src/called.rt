//! The lines of a driven client: a call that was not issued, and a call that ended.

ghost use Rattle.std.specs.Prelude.{◌≡◌, [], ◌∷◌, ◌++◌, OnOk, OnErr, codes, decimal};
ghost use Rattle.texts.specs.Text.{line_of};
ghost use Rattle.texts.specs.Texts.{answer_text, fault_text};
ghost use Rattle.transcript_text.specs.Fronts.{IsFront};

use crate::line::print_answer;
use crate::names::fault_name;
use crate::numbers::print_number;
use crate::word::{Word, print_words};
use cl_types::frame::IssueFault;
use cl_types::items::{Bytes, NoMemory};
use cl_types::reply::Answer;

/// Prints the line of a call that was not issued, after the bytes in `to`. `line` is the number of
/// its line in the script.
pub fn print_not_issued(line: u32, fault: IssueFault, to: &mut Bytes) -> Result<(), NoMemory>
    ensures printed { OnOk result
        (to.new ≡ to.old ++ line_of (decimal line ∷ codes "not issued" ∷ fault_text fault ∷ [])) }
    ensures front { OnErr result
        (IsFront to.old (line_of (decimal line ∷ codes "not issued" ∷ fault_text fault ∷ []))
        to.new) }
{
    print_words(
        &[
            Word::Number(u64::from(line)),
            Word::Plain("not issued"),
            Word::Plain(fault_name(fault)),
        ],
        to,
    )?;
    to.append(b"\n")
}

/// Prints the line of a call that ended, after the bytes in `to`. `line` is the number of its line
/// in the script, and `bytes` are those that its answer counts.
#[tactic(auto, using(crate::proofs::FrontLemmas::fronts))]
pub fn print_answered(
    line: u32,
    answer: Answer,
    bytes: &[u8],
    to: &mut Bytes,
) -> Result<(), NoMemory>
    ensures printed { OnOk result
        (to.new ≡ to.old ++ line_of (decimal line ∷ answer_text answer bytes.now ∷ [])) }
    ensures front { OnErr result
        (IsFront to.old (line_of (decimal line ∷ answer_text answer bytes.now ∷ [])) to.new) }
{
    print_number(u64::from(line), to)?;
    to.append(b" ")?;
    print_answer(answer, bytes, to)?;
    to.append(b"\n")
}
