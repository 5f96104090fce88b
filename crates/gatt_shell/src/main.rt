//! The program `gatt_shell`: `shell_args` chooses a command, and `gatt_commands` carries it out.
//!
//! Each function here may use all that the system offers; the crate of a command names what it uses
//! of it.
#![tactic(auto)]

mod asking;
mod locking;
mod telling;
mod wording;

ghost use Rattle.std.specs.Prelude.{◌≡◌, Ok, Err, IfErr, true, false};
ghost use Rattle.shell_files.specs.Check.{IsCheckFault};
ghost use Rattle.shell_files.specs.Fault.{exit_status_of};

use arrayvec::ArrayVec;
use device_host::{OptionTexts, Stop};
use gatt_commands::{
    Address, KeysPath, NextPath, RowsPath, RunPaths, RxMtu, ScriptPath, ServePaths, ShellFault,
    Shows, TablePath,
};
use itoa::Buffer;
use locking::{Unlocked, lock_rows};
use policy_commands::{
    ComparePaths, ExpectPaths, ExpectationsPath, MayPaths, MayWords, ShowPaths, View,
};
use shell_args::{Choice, Refusal};
use std::fs::File;
use std::io::{BufWriter, Read, Write};
use std::process::ExitCode;
use std::{io, str};

/// Prints the text of a fault on standard error, if that is possible.
fn tell(rt: &HostRuntime, fault: &ShellFault) {
    let mut text = ArrayVec::new();
    gatt_commands::text(fault, &mut text);
    let _ = rt.eprintln(str::from_utf8(text.as_slice()).unwrap_or(""));
}

/// Prints the text and the place of a fault on standard error.
pub(crate) fn tell_at(rt: &HostRuntime, fault: &ShellFault, place: &[u8]) {
    let mut text = ArrayVec::new();
    gatt_commands::text(fault, &mut text);
    let _ = rt.eprint(str::from_utf8(text.as_slice()).unwrap_or(""));
    let _ = rt.eprint(": ");
    let _ = rt.eprintln(str::from_utf8(place).unwrap_or(""));
}

/// Returns the exit status of a command, after printing its fault.
pub(crate) fn exit_status(rt: &HostRuntime, ran: Result<(), ShellFault>) -> u8
    ensures done { ran ≡ Ok tt → result ≡ 0 }
    ensures fault { (fault : ShellFault) → ran ≡ Err fault → result ≡ exit_status_of fault }
{
    match ran {
        Ok(()) => 0,
        Err(fault) => {
            tell(rt, &fault);
            gatt_commands::status(&fault)
        }
    }
}

/// Returns the exit status of a refused command line, after printing what it asks for.
fn refusal_status(rt: &HostRuntime, refusal: &Refusal) -> u8
    ensures misunderstood { refusal.now ≡ Refusal.Misunderstood → result ≡ 64 }
    ensures memory { refusal.now ≡ Refusal.Memory → result ≡ 2 }
{
    match refusal {
        Refusal::Shown(text) => {
            if rt.print(text).is_err() {
                return exit_status(rt, Err(ShellFault::Unwritten));
            }
        }
        Refusal::Misunderstood => {}
        Refusal::Memory => tell(rt, &ShellFault::Memory),
    }
    refusal.status()
}

/// Returns the exit status of a command with a wrong option, after printing what it may be.
fn wrong_status(rt: &HostRuntime, wrong: &str) -> u8 {
    // If this fails, the error cannot be reported at all.
    let _ = rt.eprintln(wrong);
    Refusal::Misunderstood.status()
}

/// Returns the outcome of a command whose output was flushed. Its own fault comes first.
pub(crate) fn outcome_of(ran: Result<(), ShellFault>, is_flushed: bool) -> Result<(), ShellFault>
    ensures fault { (fault : ShellFault) → ran ≡ Err fault → result ≡ Err fault }
    ensures unwritten { ran ≡ Ok tt → is_flushed ≡ false → result
        ≡ Err ShellFault.Unwritten }
    ensures done { ran ≡ Ok tt → is_flushed ≡ true → result ≡ Ok tt }
{
    ran?;
    if is_flushed {
        Ok(())
    } else {
        Err(ShellFault::Unwritten)
    }
}

/// Answers PDUs from standard input. The output is written before each read, when full, and at the
/// end.
fn run_att(rt: &HostRuntime, words: bool) -> Result<(), ShellFault> {
    if words {
        return wording::answer_lines(rt);
    }
    let Ok(mut writer) = BufWriter::new(rt.alloc(), io::writer(rt)) else {
        return Err(ShellFault::Memory);
    };
    let ran = gatt_commands::att_lines(rt.alloc(), &mut rt.reader(), &mut writer);
    outcome_of(ran, writer.flush().is_ok())
}

/// Checks a table file and then a key file, and prints how many attributes and keys they have.
///
/// No file is opened before its turn.
fn run_check(rt: &HostRuntime, table: TablePath<'_>, keys: KeysPath<'_>) -> Result<(), ShellFault>
    ensures { IfErr result IsCheckFault }
{
    gatt_commands::check_paths(rt.alloc(), rt, table, keys, &mut io::writer(rt))
}

/// Shows the attributes of a table or who may use them, and returns the exit status.
fn show_as(rt: &HostRuntime, paths: ShowPaths<'_>, attributes: bool, width: Option<&str>) -> u8 {
    match columns_in(width) {
        Some(_) if attributes => run_show(rt, paths, View::Attributes),
        Some(columns) => run_show(rt, paths, View::Rights(usize::from(columns))),
        None => wrong_status(rt, "--width: it is no number from 1 to 65535"),
    }
}

/// Returns the width of a line in columns, if it is a number; without one it is 80.
fn columns_in(width: Option<&str>) -> Option<u16> {
    match width {
        Some(width) => width.parse().ok().filter(|columns| *columns > 0),
        None => Some(80),
    }
}

/// Shows a view of a table and returns the exit status. Prints the place of a fault after its
/// number.
fn run_show(rt: &HostRuntime, paths: ShowPaths<'_>, view: View) -> u8 {
    let mut place = Vec::new(rt.alloc());
    let writer = &mut io::writer(rt);
    let ran = policy_commands::show_paths(rt.alloc(), rt, paths, view, writer, &mut place);
    if let Err(fault) = &ran
        && !place.is_empty()
    {
        tell_at(rt, fault, place.as_slice());
        return gatt_commands::status(fault);
    }
    let keys = match paths.keys {
        Some(KeysPath(path)) => Some(path),
        None => None,
    };
    if matches!(&ran, Err(ShellFault::Unreadable))
        && let Some(place) = unreadable(rt, &[Some(paths.table.0), keys, paths.rows.0])
    {
        tell_at(rt, &ShellFault::Unreadable, place.as_bytes());
        return gatt_commands::status(&ShellFault::Unreadable);
    }
    if let Some(path) = keys
        && ran.is_ok()
        && shell_files::is_shared(rt, path)
        && let Ok(line) = format!(in rt.alloc();
            "note: {path} can be used by others than its owner: run `chmod 600 {path}`"
        )
    {
        // If this fails, the note cannot be printed at all.
        let _ = rt.eprintln(line.as_str());
    }
    exit_status(rt, ran)
}

/// Returns which of these files cannot be opened or read, and why.
pub(crate) fn unreadable(rt: &HostRuntime, paths: &[Option<&str>]) -> Option<String> {
    for path in paths {
        if let Some(path) = *path
            && let Err(error) = read_first(rt, path)
        {
            return format!(in rt.alloc(); "{path}: {error}").ok();
        }
    }
    None
}

/// Opens a file and reads its first byte, which a folder refuses.
fn read_first(rt: &HostRuntime, path: &str) -> io::Result<usize> {
    let mut file = File::open(rt, path)?;
    file.read(&mut [0])
}

/// Returns the exit status of a command without its lock, after printing why.
fn unlocked_status(rt: &HostRuntime, unlocked: Unlocked) -> u8
    ensures taken { unlocked ≡ Unlocked.Taken → result ≡ 1 }
    ensures memory { unlocked ≡ Unlocked.Memory → result ≡ 2 }
{
    match unlocked {
        Unlocked::Taken => {
            // If this fails, the error cannot be reported at all.
            let _ = rt.eprintln("rows: locked");
            gatt_commands::status(&ShellFault::Unwritten)
        }
        Unlocked::Memory => {
            tell(rt, &ShellFault::Memory);
            gatt_commands::status(&ShellFault::Memory)
        }
    }
}

/// Runs a script while no other program uses its subscriptions file, and returns the exit status.
fn run_locked(rt: &HostRuntime, paths: RunPaths<'_>, rx_mtu: RxMtu, words: bool) -> u8 {
    match lock_rows(rt, paths.rows) {
        Ok(lock) => {
            let status = exit_status(rt, run_script(rt, paths, rx_mtu, words));
            drop(lock);
            status
        }
        Err(unlocked) => unlocked_status(rt, unlocked),
    }
}

/// Serves a controller while no other program uses the subscriptions file, and returns the exit
/// status.
fn serve_locked(rt: &HostRuntime, paths: ServePaths<'_>, address: Address<'_>) -> u8 {
    match lock_rows(rt, paths.rows) {
        Ok(lock) => {
            let served = gatt_commands::serve_paths(rt.alloc(), rt, paths, address);
            let status = exit_status(rt, served);
            drop(lock);
            status
        }
        Err(unlocked) => unlocked_status(rt, unlocked),
    }
}

/// Runs a script and prints its output, also if it fails. No file is opened before its turn.
fn run_script(
    rt: &HostRuntime,
    paths: RunPaths<'_>,
    rx_mtu: RxMtu,
    words: bool,
) -> Result<(), ShellFault> {
    if words {
        return wording::run_script(rt, paths, rx_mtu);
    }
    let Ok(mut writer) = BufWriter::new(rt.alloc(), io::writer(rt)) else {
        return Err(ShellFault::Memory);
    };
    let ran = gatt_commands::run_paths(rt.alloc(), rt, paths, rx_mtu, &mut writer);
    outcome_of(ran, writer.flush().is_ok())
}

fn run_host(rt: &HostRuntime, options: &OptionTexts<'_>) -> u8 {
    match device_host::serve_devices(rt, options) {
        Ok(()) => exit_status(rt, Ok(())),
        Err(stop) => stop_status(rt, stop),
    }
}

/// Returns the exit status of a stopped `host`, after printing wrong options.
fn stop_status(rt: &HostRuntime, stop: Stop) -> u8 {
    match stop {
        Stop::Fault(fault) => exit_status(rt, Err(fault)),
        Stop::File => gatt_commands::status(&ShellFault::Unwritten),
        Stop::Socket => gatt_commands::status(&ShellFault::Listen),
        Stop::Words(wrong) => wrong_status(rt, wrong),
    }
}

/// Sends a line to a device and returns the exit status.
fn run_tell<'a>(
    rt: &HostRuntime,
    socket: &str,
    command: &'a str,
    others: [Option<&'a str>; 3],
) -> u8 {
    let mut words: ArrayVec<&str, 4> = ArrayVec::new();
    words.push(command);
    for word in others {
        if let Some(word) = word {
            // All of them fit.
            let _ = words.try_push(word);
        }
    }
    telling::tell_device(rt, socket, words.as_slice())
}

/// Carries out a command and returns the exit status.
fn carry_out(rt: &HostRuntime, choice: &Choice<'_>) -> u8 {
    match *choice {
        Choice::Host(ref choice) => run_host(rt, choice),
        Choice::Tell {
            socket,
            command,
            first,
            second,
            third,
        } => run_tell(rt, socket, command, [first, second, third]),
        Choice::Att { words } => exit_status(rt, run_att(rt, words)),
        Choice::Check { table, keys } => {
            exit_status(rt, run_check(rt, TablePath(table), KeysPath(keys)))
        }
        Choice::Show {
            table,
            keys,
            rows,
            attributes,
            width,
        } => {
            let paths = ShowPaths {
                table: TablePath(table),
                keys: keys.map(KeysPath),
                rows: RowsPath(rows),
            };
            show_as(rt, paths, attributes, width)
        }
        Choice::May {
            table,
            keys,
            peer,
            right,
            handle,
            authorized,
            unencrypted,
        } => {
            let paths = MayPaths {
                table: TablePath(table),
                keys: KeysPath(keys),
            };
            let words = MayWords {
                peer,
                right,
                handle,
                authorized,
                unencrypted,
            };
            asking::run_may(rt, paths, &words)
        }
        Choice::Compare {
            old,
            new,
            keys,
            new_keys,
        } => {
            let paths = ComparePaths {
                old: TablePath(old),
                new: TablePath(new),
                keys: keys.map(KeysPath),
                new_keys: new_keys.map(KeysPath),
            };
            asking::run_compare(rt, paths)
        }
        Choice::Expect {
            table,
            keys,
            expectations,
        } => asking::run_expect(
            rt,
            ExpectPaths {
                table: TablePath(table),
                keys: keys.map(KeysPath),
                expectations: ExpectationsPath(expectations),
            },
        ),
        Choice::Run {
            table,
            next,
            keys,
            rows,
            script,
            rx_mtu,
            notices,
            echo,
            words,
        } => {
            let Some(rx_mtu) = RxMtu::read(rx_mtu) else {
                return wrong_status(rt, "--rx-mtu: a number from 23 to 517");
            };
            let paths = RunPaths {
                table: TablePath(table),
                next: NextPath(next),
                keys: KeysPath(keys),
                rows: RowsPath(rows),
                script: ScriptPath(script),
                shows: Shows {
                    notices,
                    lines: echo,
                },
            };
            run_locked(rt, paths, rx_mtu, words)
        }
        Choice::Words { table } => exit_status(rt, wording::add_words(rt, table.map(TablePath))),
        Choice::Serve {
            table,
            keys,
            rows,
            address,
        } => {
            let paths = ServePaths {
                table: TablePath(table),
                keys: KeysPath(keys),
                rows: RowsPath(rows),
            };
            serve_locked(rt, paths, Address(address))
        }
    }
}

/// Carries out the command of some words and returns the exit status.
fn run_words(rt: &HostRuntime, words: &[String]) -> u8 {
    match shell_args::chosen(rt.alloc(), words) {
        Ok(choice) => carry_out(rt, &choice),
        Err(refusal) => {
            if let Some(error) = shell_args::complaint(rt.alloc(), words) {
                // If this fails, the error cannot be reported at all.
                let _ = rt.eprint(&error);
            }
            refusal_status(rt, &refusal)
        }
    }
}

fn run(rt: &HostRuntime) -> u8 {
    if let Err(needed) = device_io::take_stack(rt.alloc()) {
        return stack_status(rt, needed);
    }
    match shell_args::words_of(rt) {
        Ok(words) => run_words(rt, words.as_slice()),
        Err(refusal) => refusal_status(rt, &refusal),
    }
}

/// Returns the exit status of a program whose stack is too small, after printing what it needs.
fn stack_status(rt: &HostRuntime, needed: u64) -> u8
    ensures memory { result ≡ 2 }
{
    let mut digits = Buffer::new();
    // This takes no memory, since memory may be what was refused. If it fails, the error cannot be
    // reported at all.
    let _ = rt.eprint("stack: ");
    let _ = rt.eprint(digits.format(needed));
    let _ = rt.eprintln(" KB needed");
    gatt_commands::status(&ShellFault::Memory)
}

fn main(rt: HostRuntime) -> ExitCode {
    ExitCode::from(run(&rt))
}
