//! The fields of a capture.
ghost use Rattle.std.specs.Prelude.{◌≡◌, ◌≤◌};
ghost use Rattle.pcap_file.specs.Fields.{field_place};

/// A field of a capture: the first seven of its header, the others of a record (libpcap's capture file format).
#[derive(Clone, Copy, Debug, PartialEq, Eq)]
pub enum CaptureField {
    /// The magic, four octets that tell the byte order and the unit of the times.
    Magic,
    /// The major version, two octets.
    Major,
    /// The minor version, two octets.
    Minor,
    /// The time zone, four octets.
    Zone,
    /// The accuracy of the times, four octets.
    Accuracy,
    /// The snap length, four octets.
    Snap,
    /// The network that the frames are of, four octets.
    Network,
    /// The seconds of a record's time, four octets.
    Seconds,
    /// The micro- or nanoseconds of a record's time, four octets.
    Fraction,
    /// The number of octets that were captured of a frame, four octets.
    Captured,
    /// The number of octets that the frame had, four octets.
    Original,
    /// The captured octets.
    Data,
}

impl CaptureField {
    /// The first octet of the field in its header or record.
    pub fn place(self) -> usize
        ensures place { result ≡ field_place self }
        ensures most { result ≤ 20 }
    {
        match self {
            CaptureField::Magic | CaptureField::Seconds => 0,
            CaptureField::Major | CaptureField::Fraction => 4,
            CaptureField::Minor => 6,
            CaptureField::Zone | CaptureField::Captured => 8,
            CaptureField::Accuracy | CaptureField::Original => 12,
            CaptureField::Snap | CaptureField::Data => 16,
            CaptureField::Network => 20,
        }
    }
}
