//! The options of the command `host`, as values.

ghost use Rattle.std.specs.Prelude.{IfOk, map};
ghost use Rattle.device_options.specs.Advertising.{Advertises};
ghost use Rattle.device_options.specs.Options.{AreOptionsOf, AreSettingsOf};

use crate::address::read_address;
use crate::advertising::{self, Data};
use crate::files::FileOptions;
use crate::numbers::{read_seconds, read_slots};
use crate::places::{ApplicationAddress, ControllerAddress, read_application, read_controller};
use crate::texts::OptionTexts;

/// The default time limit for a controller, in milliseconds.
const PATIENCE: u64 = 5_000;

/// The settings of a host, besides its files.
#[derive(Drop)]
pub struct HostSettings {
    /// The number of clients that may be connected at once.
    pub slots: usize,
    /// The static random address, least significant octet first.
    pub address: Option<[u8; 6]>,
    pub advertising: Data,
}

impl HostSettings {
    fn read(words: &OptionTexts<'_>) -> Result<HostSettings, &'static str>
        ensures settings { IfOk result (AreSettingsOf words.now) }
    {
        Ok(HostSettings {
            slots: read_slots(words.slots)?,
            address: read_address(words.address)?,
            advertising: read_advertising(words.advertise.as_slice(), words.name.unwrap_or(""))?,
        })
    }
}

/// The options of the command `host`.
#[derive(Drop)]
pub struct HostOptions<'a> {
    pub files: FileOptions<'a>,
    pub controller: ControllerAddress<'a>,
    pub application: ApplicationAddress<'a>,
    /// Set to serve controllers only while an application is connected.
    pub wait_for_application: bool,
    /// The longest silence of a client without a key, in milliseconds.
    pub idle: Option<u64>,
    /// The longest stay of a client without a key, in milliseconds.
    pub stranger: Option<u64>,
    /// Time limit for a controller to make progress, in milliseconds.
    pub patience: u64,
    pub host: HostSettings,
    /// Set to log the values that clients write.
    pub log_values: bool,
    /// Set to log the rights that clients are refused.
    pub log_refusals: bool,
    /// Set to end after the first controller.
    pub once: bool,
}

impl<'a> HostOptions<'a> {
    /// Reads the options. Errors: what is wrong with them.
    pub fn read(words: &OptionTexts<'a>) -> Result<HostOptions<'a>, &'static str>
        // Each option has the value that its words mean.
        ensures options { IfOk result (AreOptionsOf words.now) }
    {
        let controller = read_controller(words.listen, words.connect, words.serial)?;
        let application = read_application(words.application, words.application_port)?;
        let host = HostSettings::read(words)?;
        let idle = read_seconds(words.idle, "--idle: a number of seconds")?;
        let stranger = read_seconds(words.stranger, "--stranger: a number of seconds")?;
        let patience = read_seconds(words.patience, "--patience: a number of seconds")?;
        let files = FileOptions::read(words)?;
        if words.wait_for_application && matches!(application, ApplicationAddress::None) {
            return Err("--wait-for-application: it needs --application or --application-port");
        }
        Ok(HostOptions {
            files,
            controller,
            application,
            wait_for_application: words.wait_for_application,
            idle,
            stranger,
            patience: patience.unwrap_or(PATIENCE),
            host,
            log_values: words.log_values,
            log_refusals: words.log_refusals,
            once: words.once,
        })
    }
}

fn read_advertising(services: &[&str], name: &str) -> Result<Data, &'static str>
    ensures { IfOk result
        (λ built. Advertises (map (λ word. word.now) services.now) name.now built.items) }
{
    match advertising::data(services, name) {
        Some(data) => Ok(data),
        None => Err(
            "--advertise: a UUID of four hexadecimal digits without 0x, or of 32, and no more than 31 octets have room for",
        ),
    }
}
