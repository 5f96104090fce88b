//! Names of common 16-bit types (Assigned Numbers of the Bluetooth SIG, 3.4, 3.7 and 3.8).

ghost use Rattle.std.specs.Prelude.{◌≡◌, ◌==◌};
ghost use Rattle.std.specs.List.{find};
ghost use Rattle.std.specs.Option.{option_copied, option_map};
ghost use Rattle.policy_words.specs.TypeNames.{name_among, type_name, names_view};

/// An assigned number of the Bluetooth SIG, and its name.
#[derive(Clone, Copy)]
pub(crate) struct Assigned {
    pub number: u16,
    pub name: &'static str,
}

/// Returns the name of a 16-bit service, characteristic or descriptor type.
///
/// Only common types have one.
#[tactic(auto, unfolding(crate::specs::TypeNames::type_name, crate::specs::TypeNames::service_names, crate::specs::TypeNames::characteristic_names, crate::specs::TypeNames::descriptor_names))]
pub fn name_of(number: u16) -> Option<&'static str>
    ensures { option_map (λ name. name.now) result ≡ type_name number }
{
    name_among(&NAMES, number)
}

#[tactic(auto, using(crate::proofs::Naming::viewed))]
fn name_among(names: &[Assigned], number: u16) -> Option<&'static str>
    ensures { option_map (λ name. name.now) result ≡ name_among (names_view names.now) number }
{
    match first(names, number) {
        Some(named) => Some(named.name),
        None => None,
    }
}

fn first(names: &[Assigned], number: u16) -> Option<&Assigned>
    ensures { option_copied result
        ≡ find (λ (named : Assigned). named.number == number) names.now }
{
    names.iter().find(|named| named.number == number)
}

const NAMES: [Assigned; 73] = [
    Assigned {
        number: 0x1800,
        name: "Generic Access",
    },
    Assigned {
        number: 0x1801,
        name: "Generic Attribute",
    },
    Assigned {
        number: 0x1802,
        name: "Immediate Alert",
    },
    Assigned {
        number: 0x1803,
        name: "Link Loss",
    },
    Assigned {
        number: 0x1804,
        name: "Tx Power",
    },
    Assigned {
        number: 0x1805,
        name: "Current Time",
    },
    Assigned {
        number: 0x1808,
        name: "Glucose",
    },
    Assigned {
        number: 0x1809,
        name: "Health Thermometer",
    },
    Assigned {
        number: 0x180A,
        name: "Device Information",
    },
    Assigned {
        number: 0x180D,
        name: "Heart Rate",
    },
    Assigned {
        number: 0x180F,
        name: "Battery",
    },
    Assigned {
        number: 0x1810,
        name: "Blood Pressure",
    },
    Assigned {
        number: 0x1811,
        name: "Alert Notification",
    },
    Assigned {
        number: 0x1812,
        name: "Human Interface Device",
    },
    Assigned {
        number: 0x1813,
        name: "Scan Parameters",
    },
    Assigned {
        number: 0x1814,
        name: "Running Speed and Cadence",
    },
    Assigned {
        number: 0x1815,
        name: "Automation IO",
    },
    Assigned {
        number: 0x1816,
        name: "Cycling Speed and Cadence",
    },
    Assigned {
        number: 0x1818,
        name: "Cycling Power",
    },
    Assigned {
        number: 0x1819,
        name: "Location and Navigation",
    },
    Assigned {
        number: 0x181A,
        name: "Environmental Sensing",
    },
    Assigned {
        number: 0x181B,
        name: "Body Composition",
    },
    Assigned {
        number: 0x181C,
        name: "User Data",
    },
    Assigned {
        number: 0x181D,
        name: "Weight Scale",
    },
    Assigned {
        number: 0x181E,
        name: "Bond Management",
    },
    Assigned {
        number: 0x181F,
        name: "Continuous Glucose Monitoring",
    },
    Assigned {
        number: 0x1822,
        name: "Pulse Oximeter",
    },
    Assigned {
        number: 0x1826,
        name: "Fitness Machine",
    },
    Assigned {
        number: 0x2900,
        name: "Characteristic Extended Properties",
    },
    Assigned {
        number: 0x2901,
        name: "Characteristic User Description",
    },
    Assigned {
        number: 0x2902,
        name: "Client Characteristic Configuration",
    },
    Assigned {
        number: 0x2903,
        name: "Server Characteristic Configuration",
    },
    Assigned {
        number: 0x2904,
        name: "Characteristic Presentation Format",
    },
    Assigned {
        number: 0x2905,
        name: "Characteristic Aggregate Format",
    },
    Assigned {
        number: 0x2906,
        name: "Valid Range",
    },
    Assigned {
        number: 0x2907,
        name: "External Report Reference",
    },
    Assigned {
        number: 0x2908,
        name: "Report Reference",
    },
    Assigned {
        number: 0x2A00,
        name: "Device Name",
    },
    Assigned {
        number: 0x2A01,
        name: "Appearance",
    },
    Assigned {
        number: 0x2A04,
        name: "Peripheral Preferred Connection Parameters",
    },
    Assigned {
        number: 0x2A05,
        name: "Service Changed",
    },
    Assigned {
        number: 0x2A06,
        name: "Alert Level",
    },
    Assigned {
        number: 0x2A07,
        name: "Tx Power Level",
    },
    Assigned {
        number: 0x2A08,
        name: "Date Time",
    },
    Assigned {
        number: 0x2A19,
        name: "Battery Level",
    },
    Assigned {
        number: 0x2A1C,
        name: "Temperature Measurement",
    },
    Assigned {
        number: 0x2A1D,
        name: "Temperature Type",
    },
    Assigned {
        number: 0x2A21,
        name: "Measurement Interval",
    },
    Assigned {
        number: 0x2A23,
        name: "System ID",
    },
    Assigned {
        number: 0x2A24,
        name: "Model Number String",
    },
    Assigned {
        number: 0x2A25,
        name: "Serial Number String",
    },
    Assigned {
        number: 0x2A26,
        name: "Firmware Revision String",
    },
    Assigned {
        number: 0x2A27,
        name: "Hardware Revision String",
    },
    Assigned {
        number: 0x2A28,
        name: "Software Revision String",
    },
    Assigned {
        number: 0x2A29,
        name: "Manufacturer Name String",
    },
    Assigned {
        number: 0x2A2B,
        name: "Current Time",
    },
    Assigned {
        number: 0x2A35,
        name: "Blood Pressure Measurement",
    },
    Assigned {
        number: 0x2A37,
        name: "Heart Rate Measurement",
    },
    Assigned {
        number: 0x2A38,
        name: "Body Sensor Location",
    },
    Assigned {
        number: 0x2A39,
        name: "Heart Rate Control Point",
    },
    Assigned {
        number: 0x2A4A,
        name: "HID Information",
    },
    Assigned {
        number: 0x2A4B,
        name: "Report Map",
    },
    Assigned {
        number: 0x2A4C,
        name: "HID Control Point",
    },
    Assigned {
        number: 0x2A4D,
        name: "Report",
    },
    Assigned {
        number: 0x2A4E,
        name: "Protocol Mode",
    },
    Assigned {
        number: 0x2A50,
        name: "PnP ID",
    },
    Assigned {
        number: 0x2A6D,
        name: "Pressure",
    },
    Assigned {
        number: 0x2A6E,
        name: "Temperature",
    },
    Assigned {
        number: 0x2A6F,
        name: "Humidity",
    },
    Assigned {
        number: 0x2AA6,
        name: "Central Address Resolution",
    },
    Assigned {
        number: 0x2B29,
        name: "Client Supported Features",
    },
    Assigned {
        number: 0x2B2A,
        name: "Database Hash",
    },
    Assigned {
        number: 0x2B3A,
        name: "Server Supported Features",
    },
];
