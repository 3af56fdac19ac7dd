//! Laws of numbers and of frames: functions that do nothing, each with a law as its contract.

ghost use Rattle.frame_codec.specs.Laws.{BytesAreThoseOfTheirNumber, WrittenRepliesAreReadAgain, WrittenRequestsAreReadAgain};

/// Bytes are those that `byteorder` writes for the number that it reads in them, the highest first.
pub fn bytes_are_those_of_their_number()
    ensures { BytesAreThoseOfTheirNumber }
{}

/// A node that reads what was written as a request finds no fault, the same head and the same
/// request.
pub fn written_requests_are_read_again()
    ensures { WrittenRequestsAreReadAgain }
{}

/// A client that reads what was written as a reply finds no fault, the same head, the same kind and
/// the same reply.
pub fn written_replies_are_read_again()
    ensures { WrittenRepliesAreReadAgain }
{}
