//! Laws of deps logs.

ghost use Rattle.nj_deps.specs.Cited.{BytesSayOneThing, EachOutputOnce, GoodLogsAreRead, LastRecordCounts};

/// Bytes have one meaning: they are cut into records that count and a rest in one way.
pub fn bytes_say_one_thing()
    ensures { BytesSayOneThing }
{}

/// A log of version 4 is not refused, unless memory runs out.
pub fn good_logs_are_read()
    ensures { GoodLogsAreRead }
{}

/// No output is repeated.
pub fn each_output_once()
    ensures { EachOutputOnce }
{}

/// Of the records of an output the last one wins.
pub fn last_record_counts()
    ensures { LastRecordCounts }
{}
