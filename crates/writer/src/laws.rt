// The two laws of the format, over whole sheets, each held by the contract of a function that has nothing to do at run time.
ghost use Rattle.writer.specs.RoundTrips.{ReadsBack, WritesBack};

// The records of a written sheet, read back, are those records, with the head that was written.
pub fn reads_back()
    ensures { ReadsBack }
{}

// A sheet that reads through to its end, written out again, gives its own bytes.
pub fn writes_back()
    ensures { WritesBack }
{}
