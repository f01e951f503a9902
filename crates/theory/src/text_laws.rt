// The table text.
ghost use Rattle.definitions.specs.Promises.{NumbersReadAsWritten, PartsMakeTheWhole, WrittenTextReadsBack, RearrangedTextReadsTheSame};

// A field reads as a number exactly where it is the writing of that number.
pub fn numbers_read_as_written()
    ensures { NumbersReadAsWritten }
{}

// Lines make the text, and fields the line, again.
pub fn parts_make_the_whole()
    ensures { PartsMakeTheWhole }
{}

// What is written for a book is read back as the same book.
pub fn written_text_reads_back()
    ensures { WrittenTextReadsBack }
{}

// Columns in another order, or with others beside them, read the same.
pub fn rearranged_text_reads_the_same()
    ensures { RearrangedTextReadsTheSame }
{}
