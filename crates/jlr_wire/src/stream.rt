//! Laws of lines over a whole stream. Each function's contract is the law, and its body is empty.
ghost use Rattle.jlr_wire.specs.Stream.{CutsDoNotMatter, LinesAreUnique};

/// However a stream is cut: after any calls of `feed`, the bytes that they took are the lines that
/// they gave, each with its end, and then the line under way.
pub fn cuts_do_not_matter()
    ensures { CutsDoNotMatter }
{}

/// A stream has one list of lines and one unfinished end.
pub fn lines_are_unique()
    ensures { LinesAreUnique }
{}
