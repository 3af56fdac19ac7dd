//! Numbers, names of calls and parts, and bytes, each printed behind what stands.

ghost use Rattle.std.specs.Prelude.{◌≡◌, ◌++◌, ◌<◌, false, OnOk, OnErr, map, decimal, slice_index};
ghost use Rattle.std.specs.Fmt.{digit_glyph, digits};
ghost use Rattle.hex.specs.Hex.{encode_lower, lower_digits};
ghost use Rattle.texts.specs.Text.{dotted};
ghost use Rattle.texts.specs.Texts.{address, call_name, hex_or_dash, part_name};
ghost use Rattle.transcript_text.specs.Fronts.{IsFront};

use cl_types::items::{Bytes, NoMemory};
use cl_types::numbers::{Addr, CallNo, ClientNo};
use cl_types::reply::Part;
use itoa::Buffer;

/// A number in decimal.
pub(crate) fn print_number(n: u64, to: &mut Bytes) -> Result<(), NoMemory>
    ensures printed { OnOk result (to.new ≡ to.old ++ decimal n) }
    ensures front { OnErr result (IsFront to.old (decimal n) to.new) }
{
    let mut buffer = Buffer::new();
    to.append(buffer.format(n).as_bytes())
}

/// Numbers with a dot between each two.
#[tactic(auto, using(crate::proofs::FrontLemmas::fronts))]
fn print_dotted(numbers: &[u64], to: &mut Bytes) -> Result<(), NoMemory>
    ensures printed { OnOk result (to.new ≡ to.old ++ dotted (map decimal numbers.now)) }
    ensures front { OnErr result (IsFront to.old (dotted (map decimal numbers.now)) to.new) }
{
    match numbers {
        [] => Ok(()),
        [n] => print_number(*n, to),
        [n, rest @ ..] => {
            print_number(*n, to)?;
            to.append(b".")?;
            print_dotted(rest, to)
        }
    }
}

/// The name of a call: its client and its number.
pub(crate) fn print_call(client: ClientNo, call: CallNo, to: &mut Bytes) -> Result<(), NoMemory>
    ensures printed { OnOk result (to.new ≡ to.old ++ call_name client call.0) }
    ensures front { OnErr result (IsFront to.old (call_name client call.0) to.new) }
{
    print_dotted(&[u64::from(client.0), u64::from(call.0)], to)
}

/// The name of a part: that of its call, and its number in it.
pub(crate) fn print_part(client: ClientNo, part: Part, to: &mut Bytes) -> Result<(), NoMemory>
    ensures printed { OnOk result (to.new ≡ to.old ++ part_name client part) }
    ensures front { OnErr result (IsFront to.old (part_name client part) to.new) }
{
    let call = u64::from(part.call.0);
    print_dotted(&[u64::from(client.0), call, u64::from(part.part)], to)
}

/// The digit of a number below 16.
#[tactic(auto, using(crate::proofs::HexLemmas::digit_glyph_in_table))]
fn hex_digit(n: u8) -> u8
    requires { n < 16 }
    ensures glyph { result ≡ digit_glyph false n }
    ensures digit { result ≡ slice_index lower_digits n }
{
    if n < 10 { b'0' + n } else { b'a' - 10 + n }
}

/// A number in hexadecimal, with no leading zero.
#[tactic(auto, using(crate::proofs::FrontLemmas::fronts, crate::proofs::HexLemmas::hex_digits_one, crate::proofs::HexLemmas::hex_digits_step))]
fn print_hex_number(n: u32, to: &mut Bytes) -> Result<(), NoMemory>
    ensures printed { OnOk result (to.new ≡ to.old ++ digits 16 false n) }
    ensures front { OnErr result (IsFront to.old (digits 16 false n) to.new) }
{
    let last = hex_digit((n % 16) as u8);
    if n < 16 {
        return to.push(last);
    }
    print_hex_number(n / 16, to)?;
    to.push(last)
}

/// An address.
#[tactic(auto, using(crate::proofs::FrontLemmas::fronts))]
pub(crate) fn print_address(addr: Addr, to: &mut Bytes) -> Result<(), NoMemory>
    ensures printed { OnOk result (to.new ≡ to.old ++ address addr) }
    ensures front { OnErr result (IsFront to.old (address addr) to.new) }
{
    to.append(b"0x")?;
    print_hex_number(addr.0, to)
}

/// Two digits for each byte.
#[tactic(auto, using(crate::proofs::HexLemmas::encode_more, crate::proofs::HexLemmas::encode_front, crate::proofs::HexLemmas::encode_none))]
pub(crate) fn print_hex(bytes: &[u8], to: &mut Bytes) -> Result<(), NoMemory>
    ensures printed { OnOk result (to.new ≡ to.old ++ encode_lower bytes.now) }
    ensures front { OnErr result (IsFront to.old (encode_lower bytes.now) to.new) }
{
    for byte in bytes {
        to.append(&[hex_digit(*byte / 16), hex_digit(*byte % 16)])?;
    }
    Ok(())
}

/// Two digits for each byte, or a dash for none.
pub(crate) fn print_hex_or_dash(bytes: &[u8], to: &mut Bytes) -> Result<(), NoMemory>
    ensures printed { OnOk result (to.new ≡ to.old ++ hex_or_dash bytes.now) }
    ensures front { OnErr result (IsFront to.old (hex_or_dash bytes.now) to.new) }
{
    match bytes {
        [] => to.append(b"-"),
        _ => print_hex(bytes, to),
    }
}
