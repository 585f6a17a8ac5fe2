//! The names that a decoded stream tells.
ghost use Rattle.std.specs.Prelude.{◌≡◌};
ghost use Rattle.message_text.specs.Words.{field_name, opening};

use ldp_grammar::Message;
use net_values::Field;

/// The name of a message's kind and what stands around it, a blank before it and ` id=` behind it: what the line of a message
/// always has between two numbers is one text.
pub fn message_opening(message: &Message) -> &'static str
    ensures { result.now ≡ opening message.now }
{
    match message {
        Message::Notification { .. } => " Notification id=",
        Message::Hello { .. } => " Hello id=",
        Message::Initialization { .. } => " Initialization id=",
        Message::KeepAlive { .. } => " KeepAlive id=",
        Message::Address { .. } => " Address id=",
        Message::AddressWithdraw { .. } => " AddressWithdraw id=",
        Message::LabelMapping { .. } => " LabelMapping id=",
        Message::LabelRequest { .. } => " LabelRequest id=",
        Message::LabelWithdraw { .. } => " LabelWithdraw id=",
        Message::LabelRelease { .. } => " LabelRelease id=",
        Message::LabelAbort { .. } => " LabelAbort id=",
        Message::Other { .. } => " Other id=",
        Message::Unprocessed { .. } => " Unprocessed id=",
    }
}

/// The name of a field.
pub fn field_text(field: Field) -> &'static str
    ensures { result.now ≡ field_name field }
{
    match field {
        Field::Fec => "Fec",
        Field::AddressList => "AddressList",
        Field::Label => "Label",
        Field::Status => "Status",
        Field::Hello => "Hello",
        Field::Transport => "Transport",
        Field::MacList => "MacList",
        Field::Session => "Session",
        Field::RequestId => "RequestId",
        Field::PwStatus => "PwStatus",
        Field::Point => "Point",
        Field::InfoLength => "InfoLength",
        Field::Parameter => "Parameter",
        Field::Mtu => "Mtu",
        Field::Description => "Description",
        Field::Vlan => "Vlan",
        Field::Vccv => "Vccv",
    }
}
