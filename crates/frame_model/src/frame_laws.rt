//! Laws of frames: functions that do nothing, each with a law as its contract.

ghost use Rattle.frame_model.specs.FrameLaws.{RequestsAreReadAgain, BytesSpellOneRequest, ARequestHasOneSpelling, FaultlessRequestsAreSpelled, RepliesAreReadAgain, BytesSpellOneReply, AReplyHasOneSpelling, FaultlessRepliesAreSpelled, NoRequestIsAReply, FramesAreReadAgain, FaultlessFramesAreSpelled};

/// Bytes that spell a request have no fault, and a node that reads them finds the head and the body that were spelled.
pub fn requests_are_read_again()
    ensures { RequestsAreReadAgain }
{}

/// Bytes spell at most one request, under one head.
pub fn bytes_spell_one_request()
    ensures { BytesSpellOneRequest }
{}

/// A request has one spelling under a head.
pub fn a_request_has_one_spelling()
    ensures { ARequestHasOneSpelling }
{}

/// Bytes in which a node finds no fault spell the request that it reads in them.
pub fn faultless_requests_are_spelled()
    ensures { FaultlessRequestsAreSpelled }
{}

/// Bytes that spell a reply have no fault, and a client that reads them finds the head, the kind and the body that
/// were spelled.
pub fn replies_are_read_again()
    ensures { RepliesAreReadAgain }
{}

/// Bytes spell at most one reply, of one kind and under one head.
pub fn bytes_spell_one_reply()
    ensures { BytesSpellOneReply }
{}

/// A reply of a kind has one spelling under a head.
pub fn a_reply_has_one_spelling()
    ensures { AReplyHasOneSpelling }
{}

/// Bytes in which a client finds no fault spell the reply that it reads in them, of some kind.
pub fn faultless_replies_are_spelled()
    ensures { FaultlessRepliesAreSpelled }
{}

/// No bytes spell both a request and a reply.
pub fn no_request_is_a_reply()
    ensures { NoRequestIsAReply }
{}

/// Bytes that spell a frame for the node have no fault, and the items that are read in them are those that it carries.
pub fn frames_are_read_again()
    ensures { FramesAreReadAgain }
{}

/// Bytes in which a node finds no fault spell a frame of the items that it reads in them.
pub fn faultless_frames_are_spelled()
    ensures { FaultlessFramesAreSpelled }
{}
