//! The status of a pseudowire.
ghost use Rattle.std.specs.Prelude.{◌≡◌, ◌≤◌, ◌++◌, ◌↔◌, length, drop, Ok, Err, IfErr};
ghost use Rattle.pw_tlvs.specs.{declared.pw_status.PwStatus.{PwStatus}, declared.field_fault.FieldFault.{FieldFault}};
ghost use Rattle.pw_tlvs.specs.{Faults.{IsFirstIn, IsInside}, Status.{IsPwStatus, IsStatusFault, written_status}};

use crate::FieldFault;
use byteorder::{BigEndian, ByteOrder};

/// The value of a PW Status TLV (RFC 8077 section 6.3.2, RFC 4446 section 3.5), a set of bits: 0x01 not forwarding, 0x02 circuit receive
/// fault, 0x04 circuit transmit fault, 0x08 PSN receive fault, 0x10 PSN transmit fault,
/// 0x20 standby, 0x40 request switchover (RFC 6870).
#[derive(Clone, Copy, Debug, PartialEq, Eq)]
pub struct PwStatus(pub u32);

/// The status that the octets are (RFC 8077 section 6.3.2). The value has at most 65,535 octets. `Size` comes
/// exactly where they are not four, and no other fault comes.
pub fn read_status(value: &[u8]) -> Result<PwStatus, FieldFault>
    requires { length value.now ≤ 65535 }
    ensures value { (status : PwStatus) → (result ≡ Ok status) ↔ IsPwStatus value.now status }
    ensures fault { (fault : FieldFault) → (result ≡ Err fault) ↔ IsFirstIn (IsStatusFault value.now) fault }
    ensures place { IfErr result (IsInside value.now) }
{
    if value.len() != 4 {
        return Err(FieldFault::Size);
    }
    Ok(PwStatus(BigEndian::read_u32(value)))
}

/// Writes the four octets of the status to the front of `out`, which has room for them, and answers their
/// number (RFC 8077 section 6.3.2).
pub fn write_status(status: PwStatus, out: &mut [u8]) -> usize
    requires room { 4 ≤ length out.old }
    ensures count { result ≡ length (written_status status) }
    ensures octets { out.new ≡ written_status status ++ drop result out.old }
{
    BigEndian::write_u32(out, status.0);
    4
}
