// Laws of lines in streams, each the contract of a function without a body.
ghost use Rattle.line_serving.specs.LineLaws.{FaultsAreBadLines, LinesAreNeverTruncated};

/// Bytes show a fault exactly where they begin with a bad line: with a whole one that is no comment and spells no command, or with more bytes than a line has.
pub fn faults_are_bad_lines()
    ensures { FaultsAreBadLines }
{}

/// A stream of lines that was read to its end never ends inside a line: the end of the source ends the last one.
pub fn lines_are_never_truncated()
    ensures { LinesAreNeverTruncated }
{}
