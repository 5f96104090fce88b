//! The options of the command `host`, as texts.

use arrayvec::ArrayVec;

/// One more service than fits into advertising data.
pub const MOST_SERVICES: usize = 14;

/// The options as the command line has them. `HostOptions` says what they mean.
#[derive(Drop)]
pub struct OptionTexts<'a> {
    pub table: &'a str,
    pub keys: &'a str,
    /// The path of the subscriptions file.
    pub rows: Option<&'a str>,
    /// The path of the state folder.
    pub state: Option<&'a str>,
    pub save_updates: bool,
    pub drop_unknown: bool,
    /// The address at which a controller connects.
    pub listen: Option<&'a str>,
    /// The address at which a controller listens.
    pub connect: Option<&'a str>,
    pub serial: Option<&'a str>,
    /// The path at which an application connects.
    pub application: Option<&'a str>,
    pub application_port: Option<&'a str>,
    pub wait_for_application: bool,
    /// The name in the advertising data.
    pub name: Option<&'a str>,
    /// The UUIDs of the first services in the advertising data.
    pub advertise: ArrayVec<&'a str, MOST_SERVICES>,
    pub address: Option<&'a str>,
    pub capture: Option<&'a str>,
    pub capture_size: Option<&'a str>,
    pub log_values: bool,
    pub log_refusals: bool,
    pub slots: Option<&'a str>,
    /// The longest silence of a client without a key, in seconds.
    pub idle: Option<&'a str>,
    /// The longest stay of a client without a key, in seconds.
    pub stranger: Option<&'a str>,
    /// Time limit for a controller to make progress, in seconds.
    pub patience: Option<&'a str>,
    pub once: bool,
}
