//! What holds of all octets and all frames.
ghost use Rattle.pcap_file.specs.Laws.{EachCaptureIsRead, OneCaptureReading, WrittenCaptureIsRead};

/// Octets are a capture of one list of frames at most, or have one first fault at most, and never both.
pub fn one_reading()
    ensures { OneCaptureReading }
{}

/// Octets are a capture or have a first fault: of all octets the law tells the frames or the fault.
pub fn each_is_read()
    ensures { EachCaptureIsRead }
{}

/// The header, and for each frame of at most 262,144 octets what `write_record` writes of its length and the frame behind
/// it, are a capture of these frames; so `read_capture` answers them.
pub fn written_is_read()
    ensures { WrittenCaptureIsRead }
{}
