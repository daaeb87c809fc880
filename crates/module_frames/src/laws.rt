// Laws of the grammar, each the contract of a function without a body.
ghost use Rattle.module_frames.specs.Laws.{EncodingsAreNoPrefixes, ParsesInOneWay, HeadsReadInOneWay, HeadsReadBack, HeadersReadBack};

/// No command's frame is the beginning of another's, so bytes split into commands and a remainder in one way.
pub fn parses_in_one_way()
    ensures no_prefix { EncodingsAreNoPrefixes }
    ensures one_way { ParsesInOneWay }
{}

/// No two heads of replies are encoded alike, so a head is read from what it is encoded by.
/// The header of a reply's frame reads back as the reply's head.
pub fn heads_read_back()
    ensures one_way { HeadsReadInOneWay }
    ensures back { HeadsReadBack }
    ensures headers { HeadersReadBack }
{}
