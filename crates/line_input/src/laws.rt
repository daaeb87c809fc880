// A law of lines, the contract of a function without a body.
ghost use Rattle.line_input.specs.TextLines.{SplitsInOneWay};

/// Bytes split into lines and a remainder in one way.
pub fn splits_in_one_way()
    ensures { SplitsInOneWay }
{}
