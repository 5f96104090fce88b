//! The texts that `--help` and `--version` print.

pub const PROGRAM: &str = "gatt_shell";

pub const VERSION: &str = "0.2.0";

/// The description of the program.
pub const ABOUT: &str = "\
The host half of a Bluetooth Low Energy peripheral: an ATT and GATT server that is driven
from the command line.";

/// The exit statuses, below each help text.
pub const STATUSES: &str = "\
Exit status:
   0  the work is done, or help or the version was asked for
   1  a file is refused, or cannot be read or written
   2  a fault in a run; `host` cannot open a socket; `tell` reaches no device
   3  the answer of `may` is no, `compare` found a right that is opened, or
      `expect` a difference
  64  the words of the command line are not understood";

pub const ATT: &str = "att";

pub const ATT_ABOUT: &str = "Answer ATT PDUs, one line of hexadecimal each, from standard input";

pub const ATT_DETAILS: &str = "\
Answer ATT PDUs, one line of hexadecimal each, from standard input.

Each line of input is one ATT PDU in hexadecimal. All come from one connection of an unknown,
unencrypted peer to the built-in example table. Each line of output is the answer to one PDU,
in hexadecimal, or `-` if there is none. Blank lines are skipped. With --words each answer
is followed by two spaces and what it says.

Example: the line `0a0300`, a Read Request of the handle 3, has the answer `0b4c6f636b`.

  printf '0a0300\\n' | gatt_shell att";

pub const CHECK: &str = "check";

pub const CHECK_ABOUT: &str =
    "Check a table file and a key file, and count their attributes and keys";

pub const CHECK_DETAILS: &str = "\
Check a table file and a key file, and count their attributes and keys.

A table file is TOML that describes services, characteristics and descriptors (docs/TABLE.md). A
key file is TOML with the long-term keys of known peers (docs/KEYS-FILE.md). The table file is
checked first. The number of the first fault goes to standard error, and nothing else is printed:
`gatt_shell show` names its place.

  gatt_shell check examples/door.toml examples/keys.toml";

pub const SHOW: &str = "show";

pub const SHOW_ABOUT: &str = "Show who may do what with a table, and what is wrong in a file";

pub const SHOW_DETAILS: &str = "\
Show who may do what with a table, and what is wrong in a file.

A matrix has a row for each value and descriptor, and a column for all kinds of keys in KEYS with
equal rights. The first column is that of a link without a key: of everybody. Below it are the
meaning of its letters, and all that an author has perhaps not meant: a value that everybody may
write, a rule without effect, a key that is too short. The rows file is only checked. The number of
the first fault goes to standard error, as by `check`, with its place and its cause.

  gatt_shell show examples/door.toml examples/keys.toml";

pub const MAY: &str = "may";

pub const MAY_ABOUT: &str = "Answer whether a peer may use an attribute, and why not";

pub const MAY_DETAILS: &str = "\
Answer whether a peer may use an attribute, and why not.

PEER is `stranger`, or the address of a peer that has a key in KEYS. RIGHT is read, write, command
(a write without response), notify, indicate or subscribe. A peer that has subscribed is notified if
it meets what reading needs, whenever it subscribed. A line for each link that the peer may have,
not encrypted and encrypted by each kind of its keys, has the answer: `yes`, or `no`, the broken
rule and the error code. The status is 0 if a line says yes, and 3 if none does.

  gatt_shell may examples/door.toml examples/keys.toml stranger read 10";

pub const COMPARE: &str = "compare";

pub const COMPARE_ABOUT: &str = "Compare two tables: the rights that the new one opens and closes";

pub const COMPARE_DETAILS: &str = "\
Compare two tables: the rights that the new one opens and closes, and for which keys.

A right is opened if some client has it with NEW and not with OLD, whatever its key: each size, with
and without authentication and LE Secure Connections, and no key. KEYS only names the kinds of keys
that exist today. Values correspond by the type of their service and their own, in the order of the
table. With --new-keys a new key of a peer opens rights, too. Other lines name the attributes that
are new, gone, moved or changed, and the subscriptions that a device drops, or that last, if NEW
replaces OLD. The status is 3 if a right is opened.

  gatt_shell compare examples/porch.toml examples/porch_next.toml";

pub const EXPECT: &str = "expect";

pub const EXPECT_ABOUT: &str = "Compare the rights that a table gives with those that are meant";

pub const EXPECT_DETAILS: &str = "\
Compare the rights that a table gives with those that are meant.

An expectations file is TOML that states for each value and descriptor who may read, write and
subscribe (docs/TABLE.md). Each use is compared for no key and for each kind of key that there can
be, authorized or not; no key file is needed. A line is printed for each difference, and for each
attribute that somebody may use but no expectation names. The status is 3 then, and 0 if all
expectations hold.

  gatt_shell expect examples/door.toml examples/door.expect.toml";

pub const RUN: &str = "run";

pub const RUN_ABOUT: &str = "Run a script of clients against a host and a simulated controller";

pub const RUN_DETAILS: &str = "\
Run a script of clients against a host and a simulated controller, in memory.

Each line of a script is an act of a client or of the application. A client connects, sends a PDU,
encrypts its link or disconnects. The application updates a value, authorizes a client, passes the
time or replaces the table. After each line the program prints what was refused, what each client
received, and which connection the host ended. With --notices it also prints the notices to the
application, and with --echo the line itself first. With --words each PDU is followed by what
it says. With --rx-mtu the host can receive PDUs of N octets in place of 247. docs/SCRIPTS.md has
all lines and their output.

The rows file has the subscriptions of peers with keys. It is read first and written at the end. A
missing one is empty. If the table, key or rows file is refused, `gatt_shell show` names the place.

  gatt_shell run examples/door.toml examples/keys.toml examples/first_contact.script";

pub const WORDS: &str = "words";

pub const WORDS_ABOUT: &str = "Add to each line with an ATT PDU what the PDU says";

pub const WORDS_DETAILS: &str = "\
Add to each line with an ATT PDU what the PDU says.

Each line of standard input is printed as it is. If it has an ATT PDU in hexadecimal, as a line of
`att` or `NAME > HEX` of `run`, two spaces follow and what the PDU says, in the terms of the Core
Specification. With --table a handle has the name of its type behind it. docs/CLI.md has the forms.

  gatt_shell run examples/door.toml examples/keys.toml examples/first_contact.script \\
      --echo | gatt_shell words --table examples/door.toml";

pub const SERVE: &str = "serve";

pub const SERVE_ABOUT: &str = "Serve a controller over one TCP connection";

pub const SERVE_DETAILS: &str = "\
Serve a controller over one TCP connection.

The connection carries H4, the UART transport of a Bluetooth controller. The program serves the
first connection until it ends, and then ends itself. At most four clients are connected at once.
docs/CLI.md joins it to a controller on a serial line, and has the faults that end it.

The rows file has the subscriptions of peers with keys. It is read first and written at the end. A
missing one is empty. If the table, key or rows file is refused, `gatt_shell show` names the place.

  gatt_shell serve examples/door.toml examples/keys.toml 127.0.0.1:5000";

pub const HOST: &str = "host";

pub const HOST_ABOUT: &str =
    "The device that a product runs: serve clients, by one controller after another";

pub const HOST_DETAILS: &str = "\
The device that a product runs: serve clients, by one controller after another.

One of --listen, --connect and --serial is required. It leads to the controller, over a connection
that carries H4. If the controller goes, or the host stops with a fault, the next one is served with
the same values and subscriptions. An application connects to a socket, and exchanges lines with the
device (docs/DEVICE.md). With --state the device saves values and subscriptions before it answers a
client, and a restart begins with them. The log is on standard error. A script can wait for its line
`ready`. The status is 2 if a socket cannot be opened, or with --once if the host has stopped.

  mkdir -p door.state
  gatt_shell host examples/door.toml examples/keys.toml --listen 127.0.0.1:5000 \\
      --application door.socket --state door.state";

pub const TELL: &str = "tell";

pub const TELL_ABOUT: &str = "Send one line to a device, and print its answer";

pub const TELL_DETAILS: &str = "\
Send one line to a device, and print its answer.

The words are one line of an application (docs/DEVICE.md). A question (`value`, `connections`,
`subscriptions`, `find`), a call of the host, `reload` and `stop` leave the application connected.
Only the line `application` takes its place. The status is 1 if the device refuses the line, and 2
if it cannot be reached.

  gatt_shell tell door.socket value 10
  gatt_shell tell door.socket find fff0 fff3 2
  gatt_shell tell door.socket reload
  gatt_shell tell door.socket stop";
