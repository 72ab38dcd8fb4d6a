// What holds of reading and writing records together.
ghost use Rattle.report.specs.Record.{ReadingUndoesWriting};

// A record is read from the bytes that it was written to.
pub fn reading_undoes_writing()
    ensures { ReadingUndoesWriting }
{}
