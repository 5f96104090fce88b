//! The names and tables of commands and arguments, for the parser and the help.

use crate::argument::{Argument, Takes};
use crate::help;
use crate::subcommand::Subcommand;

// The names of arguments.

pub const TABLE: &str = "TABLE";

pub const KEYS: &str = "KEYS";

pub const PEER: &str = "PEER";

pub const RIGHT: &str = "RIGHT";

pub const HANDLE: &str = "HANDLE";

pub const AUTHORIZED: &str = "authorized";

pub const UNENCRYPTED: &str = "unencrypted";

pub const OLD: &str = "OLD";

pub const NEW: &str = "NEW";

pub const NEW_KEYS: &str = "new-keys";

pub const SCRIPT: &str = "SCRIPT";

pub const EXPECTATIONS: &str = "EXPECTATIONS";

/// The expectations file, or the key file before it.
pub const FILE: &str = "FILE";

pub const TABLE_OPTION: &str = "table";

pub const ADDRESS: &str = "ADDRESS";

pub const ROWS: &str = "rows";

pub const ATTRIBUTES: &str = "attributes";

pub const WIDTH: &str = "width";

pub const NEXT: &str = "next";

pub const RX_MTU: &str = "rx-mtu";

pub const NOTICES: &str = "notices";

pub const ECHO: &str = "echo";

pub const WORDS: &str = "words";

pub const SOCKET: &str = "SOCKET";

pub const COMMAND: &str = "COMMAND";

pub const FIRST: &str = "FIRST";

pub const SECOND: &str = "SECOND";

pub const THIRD: &str = "THIRD";

pub const STATE: &str = "state";

pub const SAVE_UPDATES: &str = "save-updates";

pub const DROP_UNKNOWN: &str = "drop-unknown";

pub const LISTEN: &str = "listen";

pub const CONNECT: &str = "connect";

pub const SERIAL: &str = "serial";

pub const APPLICATION: &str = "application";

pub const APPLICATION_PORT: &str = "application-port";

pub const WAIT_FOR_APPLICATION: &str = "wait-for-application";

pub const NAME: &str = "name";

pub const ADVERTISE: &str = "advertise";

pub const RANDOM_ADDRESS: &str = "address";

pub const CAPTURE: &str = "capture";

pub const CAPTURE_SIZE: &str = "capture-size";

pub const LOG_VALUES: &str = "log-values";

pub const LOG_REFUSALS: &str = "log-refusals";

pub const SLOTS: &str = "slots";

pub const IDLE: &str = "idle";

pub const STRANGER: &str = "stranger";

pub const PATIENCE: &str = "patience";

pub const ONCE: &str = "once";

/// The table file, for all commands that have one.
const TABLE_FILE: Argument = Argument {
    name: TABLE,
    takes: Takes::Path,
    about: "The table file: the attributes, their values and who may use them",
};

const KEY_FILE: Argument = Argument {
    name: KEYS,
    takes: Takes::Path,
    about: "The key file: the long-term keys of known peers",
};

/// The key file, for the commands that need none.
const KEY_FILE_IF_ANY: Argument = Argument {
    name: KEYS,
    takes: Takes::PathIfAny,
    about: "The key file: the long-term keys of known peers",
};

const ROWS_FILE: Argument = Argument {
    name: ROWS,
    takes: Takes::Value("FILE"),
    about: "The rows file: the subscriptions of peers with keys",
};

const ATT_ARGUMENTS: [Argument; 1] = [Argument {
    name: WORDS,
    takes: Takes::Nothing,
    about: "Print after each answer what it says, as the command `words` does",
}];

const CHECK_ARGUMENTS: [Argument; 2] = [TABLE_FILE, KEY_FILE];

const SHOW_ARGUMENTS: [Argument; 5] = [
    TABLE_FILE,
    KEY_FILE_IF_ANY,
    ROWS_FILE,
    Argument {
        name: ATTRIBUTES,
        takes: Takes::Nothing,
        about: "Print a line for each attribute, declarations too, and no keys",
    },
    Argument {
        name: WIDTH,
        takes: Takes::Value("COLUMNS"),
        about: "The width of the lines, if it has space for a key [default: 80]",
    },
];

const MAY_ARGUMENTS: [Argument; 7] = [
    TABLE_FILE,
    KEY_FILE,
    Argument {
        name: PEER,
        takes: Takes::Path,
        about: "A peer with a key in KEYS, by its address, or `stranger`",
    },
    Argument {
        name: RIGHT,
        takes: Takes::Path,
        about: "The right: read, write, command, notify, indicate or subscribe",
    },
    Argument {
        name: HANDLE,
        takes: Takes::Path,
        about: "The handle of the attribute, as `show` prints it",
    },
    Argument {
        name: AUTHORIZED,
        takes: Takes::Nothing,
        about: "Answer for a connection that the application authorizes",
    },
    Argument {
        name: UNENCRYPTED,
        takes: Takes::Nothing,
        about: "Answer only for the link that is not encrypted",
    },
];

const COMPARE_ARGUMENTS: [Argument; 4] = [
    Argument {
        name: OLD,
        takes: Takes::Path,
        about: "The table file before the change",
    },
    Argument {
        name: NEW,
        takes: Takes::Path,
        about: "The table file after it",
    },
    KEY_FILE_IF_ANY,
    Argument {
        name: NEW_KEYS,
        takes: Takes::Value("FILE"),
        about: "The key file after the change [default: KEYS]",
    },
];

const EXPECT_ARGUMENTS: [Argument; 3] = [
    TABLE_FILE,
    Argument {
        name: FILE,
        takes: Takes::Path,
        about: "The expectations file, or a key file before it",
    },
    Argument {
        name: EXPECTATIONS,
        takes: Takes::PathIfAny,
        about: "The expectations file, if FILE is a key file",
    },
];

const RUN_ARGUMENTS: [Argument; 9] = [
    TABLE_FILE,
    KEY_FILE,
    Argument {
        name: SCRIPT,
        takes: Takes::Path,
        about: "The script: what clients and the application do, line by line",
    },
    ROWS_FILE,
    Argument {
        name: NEXT,
        takes: Takes::Value("FILE"),
        about: "The table file by which the line `replace` of a script replaces TABLE",
    },
    Argument {
        name: RX_MTU,
        takes: Takes::Value("N"),
        about: "The ATT_MTU that the host can receive, from 23 to 517 [default: 247]",
    },
    Argument {
        name: NOTICES,
        takes: Takes::Nothing,
        about: "Print the notices to the application too, each on a line",
    },
    Argument {
        name: ECHO,
        takes: Takes::Nothing,
        about: "Print each line of the script too, before its output",
    },
    Argument {
        name: WORDS,
        takes: Takes::Nothing,
        about: "Print after each PDU what it says, as the command `words` does",
    },
];

const WORDS_ARGUMENTS: [Argument; 1] = [Argument {
    name: TABLE_OPTION,
    takes: Takes::Value("FILE"),
    about: "The table file by which handles are named",
}];

const SERVE_ARGUMENTS: [Argument; 4] = [
    TABLE_FILE,
    KEY_FILE,
    Argument {
        name: ADDRESS,
        takes: Takes::Path,
        about: "The IP address and the port to listen at, as 127.0.0.1:5000",
    },
    ROWS_FILE,
];

const HOST_ARGUMENTS: [Argument; 24] = [
    TABLE_FILE,
    KEY_FILE,
    Argument {
        name: STATE,
        takes: Takes::Value("DIR"),
        about: "The folder that keeps values and subscriptions for the next start",
    },
    Argument {
        name: SAVE_UPDATES,
        takes: Takes::Nothing,
        about: "Save in DIR also the values that only the application changes",
    },
    ROWS_FILE,
    Argument {
        name: DROP_UNKNOWN,
        takes: Takes::Nothing,
        about: "Delete the subscriptions of peers without a key, in place of refusing the file",
    },
    Argument {
        name: LISTEN,
        takes: Takes::Value("ADDRESS"),
        about: "Wait for a controller to connect to this IP address and port",
    },
    Argument {
        name: CONNECT,
        takes: Takes::Value("ADDRESS"),
        about: "Connect to a controller at this IP address and port, again until it is there",
    },
    Argument {
        name: SERIAL,
        takes: Takes::Value("PATH"),
        about: "Serve the controller at this serial line, which is set up already",
    },
    Argument {
        name: APPLICATION,
        takes: Takes::Value("PATH"),
        about: "Make this socket for the application; only its owner can connect",
    },
    Argument {
        name: APPLICATION_PORT,
        takes: Takes::Value("ADDRESS"),
        about: "Wait for the application at this IP address and port, which anybody may reach",
    },
    Argument {
        name: WAIT_FOR_APPLICATION,
        takes: Takes::Nothing,
        about: "Serve a controller only while an application is connected",
    },
    Argument {
        name: NAME,
        takes: Takes::Value("TEXT"),
        about: "The name to advertise, shortened if it does not fit",
    },
    Argument {
        name: ADVERTISE,
        takes: Takes::Values("UUID"),
        about: "The UUID of a service to advertise; say it once for each service",
    },
    Argument {
        name: RANDOM_ADDRESS,
        takes: Takes::Value("ADDRESS"),
        about: "The static random address to use in place of the controller's own",
    },
    Argument {
        name: CAPTURE,
        takes: Takes::Value("FILE"),
        about: "Record all packets in this file, in the format btsnoop",
    },
    Argument {
        name: CAPTURE_SIZE,
        takes: Takes::Value("BYTES"),
        about: "The largest size of the capture [default: 104857600]",
    },
    Argument {
        name: LOG_VALUES,
        takes: Takes::Nothing,
        about: "Log also the bytes that clients write, which can be secret",
    },
    Argument {
        name: LOG_REFUSALS,
        takes: Takes::Nothing,
        about: "Log each right that a client is refused, and how often",
    },
    Argument {
        name: SLOTS,
        takes: Takes::Value("N"),
        about: "How many clients may be connected at once, from 1 to 8 [default: 4]",
    },
    Argument {
        name: IDLE,
        takes: Takes::Value("SECONDS"),
        about: "Disconnect a client without a key after so many silent seconds [default: never]",
    },
    Argument {
        name: STRANGER,
        takes: Takes::Value("SECONDS"),
        about: "Disconnect a client without a key after so many seconds [default: never]",
    },
    Argument {
        name: PATIENCE,
        takes: Takes::Value("SECONDS"),
        about: "Give up a controller that makes no progress for so many seconds [default: 5]",
    },
    Argument {
        name: ONCE,
        takes: Takes::Nothing,
        about: "End when the first controller is gone",
    },
];

const TELL_ARGUMENTS: [Argument; 5] = [
    Argument {
        name: SOCKET,
        takes: Takes::Path,
        about: "The socket of the device, which its option --application names",
    },
    Argument {
        name: COMMAND,
        takes: Takes::Path,
        about: "The first word of the line",
    },
    Argument {
        name: FIRST,
        takes: Takes::PathIfAny,
        about: "The word that follows the command, if there is one",
    },
    Argument {
        name: SECOND,
        takes: Takes::PathIfAny,
        about: "The next word",
    },
    Argument {
        name: THIRD,
        takes: Takes::PathIfAny,
        about: "The last word",
    },
];

/// The commands.
pub const SUBCOMMANDS: [Subcommand; 11] = [
    Subcommand {
        name: help::ATT,
        about: help::ATT_ABOUT,
        details: help::ATT_DETAILS,
        arguments: &ATT_ARGUMENTS,
    },
    Subcommand {
        name: help::CHECK,
        about: help::CHECK_ABOUT,
        details: help::CHECK_DETAILS,
        arguments: &CHECK_ARGUMENTS,
    },
    Subcommand {
        name: help::SHOW,
        about: help::SHOW_ABOUT,
        details: help::SHOW_DETAILS,
        arguments: &SHOW_ARGUMENTS,
    },
    Subcommand {
        name: help::MAY,
        about: help::MAY_ABOUT,
        details: help::MAY_DETAILS,
        arguments: &MAY_ARGUMENTS,
    },
    Subcommand {
        name: help::COMPARE,
        about: help::COMPARE_ABOUT,
        details: help::COMPARE_DETAILS,
        arguments: &COMPARE_ARGUMENTS,
    },
    Subcommand {
        name: help::EXPECT,
        about: help::EXPECT_ABOUT,
        details: help::EXPECT_DETAILS,
        arguments: &EXPECT_ARGUMENTS,
    },
    Subcommand {
        name: help::RUN,
        about: help::RUN_ABOUT,
        details: help::RUN_DETAILS,
        arguments: &RUN_ARGUMENTS,
    },
    Subcommand {
        name: help::WORDS,
        about: help::WORDS_ABOUT,
        details: help::WORDS_DETAILS,
        arguments: &WORDS_ARGUMENTS,
    },
    Subcommand {
        name: help::SERVE,
        about: help::SERVE_ABOUT,
        details: help::SERVE_DETAILS,
        arguments: &SERVE_ARGUMENTS,
    },
    Subcommand {
        name: help::HOST,
        about: help::HOST_ABOUT,
        details: help::HOST_DETAILS,
        arguments: &HOST_ARGUMENTS,
    },
    Subcommand {
        name: help::TELL,
        about: help::TELL_ABOUT,
        details: help::TELL_DETAILS,
        arguments: &TELL_ARGUMENTS,
    },
];
