//! Laws of the text format: each function does nothing, and its contract is the law (PostgreSQL documentation, page COPY, "Text
//! Format").

ghost use Rattle.pg_copy_text.specs.TextLaws.{OneSplit, OneValue, TextRoundTrip, FieldsAreLine};

/// The bytes of a text file are lines in one way, and a line is fields in one way: those that a reader takes.
pub fn one_split()
    ensures { OneSplit }
{}

/// A field of a text file spells one value at most: the one that a reader gives in its place of the row.
pub fn one_value()
    ensures { OneValue }
{}

/// The canonical lines of rows are read as those rows, whatever follows them.
pub fn text_round_trip()
    ensures { TextRoundTrip }
{}

/// The fields of a row and then its end, written one after the other in text, are the row written.
pub fn fields_are_line()
    ensures { FieldsAreLine }
{}
