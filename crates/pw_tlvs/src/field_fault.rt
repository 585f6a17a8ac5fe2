//! Why the value of a TLV is refused.

use net_values::Field;
use thiserror::Error;

/// Why octets are no value of a TLV. A place counts from the first octet of the value, and is below its length.
#[derive(Clone, Copy, Debug, PartialEq, Eq, Error)]
pub enum FieldFault {
    /// The number of octets does not fit the layout.
    #[error("a length that does not fit the layout")]
    Size,
    /// The octet at this place does not fit the layout of the field.
    #[error("a wrong octet at {at}")]
    Value { at: u16, field: Field },
    /// The field that begins at this place stood before.
    #[error("a field that comes again at {at}")]
    Repeated { at: u16, field: Field },
}
