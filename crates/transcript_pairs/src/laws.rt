// The law of a transcript's bytes: the contract of a function without a body.
ghost use Rattle.transcript_pairs.specs.Laws.{PairsParseInOneWay};

/// No pair's bytes are the beginning of another's, so the bytes of a transcript split into pairs and a remainder in one way.
pub fn pairs_parse_in_one_way()
    ensures { PairsParseInOneWay }
{}
