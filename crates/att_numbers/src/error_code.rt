//! Error codes of the Attribute Protocol (Core 5.0, Vol 3 Part F, 3.4.1.1).

ghost use Rattle.std.specs.Prelude.{◌≡◌};
ghost use Rattle.std.specs.Option.{option_map};
ghost use Rattle.att_numbers.specs.ErrorCode.{error_name};

pub const INVALID_HANDLE: u8 = 0x01;

pub const READ_NOT_PERMITTED: u8 = 0x02;

pub const WRITE_NOT_PERMITTED: u8 = 0x03;

pub const INVALID_PDU: u8 = 0x04;

pub const INSUFFICIENT_AUTHENTICATION: u8 = 0x05;

pub const REQUEST_NOT_SUPPORTED: u8 = 0x06;

pub const INVALID_OFFSET: u8 = 0x07;

pub const INSUFFICIENT_AUTHORIZATION: u8 = 0x08;

pub const PREPARE_QUEUE_FULL: u8 = 0x09;

pub const ATTRIBUTE_NOT_FOUND: u8 = 0x0A;

pub const INSUFFICIENT_ENCRYPTION_KEY_SIZE: u8 = 0x0C;

pub const INVALID_ATTRIBUTE_VALUE_LENGTH: u8 = 0x0D;

pub const INSUFFICIENT_ENCRYPTION: u8 = 0x0F;

pub const UNSUPPORTED_GROUP_TYPE: u8 = 0x10;

/// Value not allowed (Core Specification Supplement, Part B, 1.2).
pub const OUT_OF_RANGE: u8 = 0xFF;

/// Returns the name of an error code, if it has one (Core 5.2, Vol 3 Part F, 3.4.1.1, Table 3.3;
/// Core Specification Supplement, Part B, 1.2).
pub fn name(code: u8) -> Option<&'static str>
    ensures { option_map (λ name. name.now) result ≡ error_name code }
{
    let name = match code {
        INVALID_HANDLE => "Invalid Handle",
        READ_NOT_PERMITTED => "Read Not Permitted",
        WRITE_NOT_PERMITTED => "Write Not Permitted",
        INVALID_PDU => "Invalid PDU",
        INSUFFICIENT_AUTHENTICATION => "Insufficient Authentication",
        REQUEST_NOT_SUPPORTED => "Request Not Supported",
        INVALID_OFFSET => "Invalid Offset",
        INSUFFICIENT_AUTHORIZATION => "Insufficient Authorization",
        PREPARE_QUEUE_FULL => "Prepare Queue Full",
        ATTRIBUTE_NOT_FOUND => "Attribute Not Found",
        0x0B => "Attribute Not Long",
        INSUFFICIENT_ENCRYPTION_KEY_SIZE => "Insufficient Encryption Key Size",
        INVALID_ATTRIBUTE_VALUE_LENGTH => "Invalid Attribute Value Length",
        0x0E => "Unlikely Error",
        INSUFFICIENT_ENCRYPTION => "Insufficient Encryption",
        UNSUPPORTED_GROUP_TYPE => "Unsupported Group Type",
        0x11 => "Insufficient Resources",
        0x12 => "Database Out Of Sync",
        0x13 => "Value Not Allowed",
        0xFC => "Write Request Rejected",
        0xFD => "Client Characteristic Configuration Descriptor Improperly Configured",
        0xFE => "Procedure Already in Progress",
        OUT_OF_RANGE => "Out of Range",
        _ => return None,
    };
    Some(name)
}
