//! Serves one controller after another.

ghost use Rattle.std.specs.Prelude.{◌≡◌, IfOk};
ghost use Rattle.std.specs.List.{flat_map};
ghost use Rattle.gatt_host.specs.Connections.{connections_in};
ghost use Rattle.device_host.specs.Answers.{end_line};

use crate::answers::note_event;
use crate::course::Course;
use crate::device::{Device, Takes};
use crate::keeping::{Contents, Keeping};
use crate::key_notes::note_keys;
use crate::opening::{open_host, reopen};
use crate::outgoing::ToController;
use crate::reload::{give_up_reload, reopen_with_keys};
use crate::starting::{Start, begin_capture, reaching};
use crate::state_lines::add_ends;
use crate::stop::Stop;
use crate::stopping::{finish, is_stopped, reset};
use crate::supervision::{Activity, Supervision};
use crate::turn_notices::Hearing;
use app_lines::{Names, Told};
use device_io::{Log, Supervisor, System};
use device_loop::{End, Sending, serve_happenings, serve_turn};
use device_options::{HostOptions, HostSettings, OptionTexts};
use device_session::{Heard, SavedChanges, Session};
use gatt_host::{Host, HostFault};
use shell_files::ShellFault;
use std::alloc::{AllocError, Global};
use std::fs::{File, Files};
use std::net::{Net, TcpListener, TcpStream};
use std::random::RandomSource;
use std::rt::Env;
use std::time::Clock;

/// Why a controller is no longer served.
#[derive(Clone, Copy)]
enum Over {
    Gone(&'static str),
    Stopped(HostFault),
    /// The application has asked the device to stop.
    Asked,
    /// As `Asked`, and not everything is saved.
    Unsaved,
    /// The connections have ended, so that the host is opened with other keys.
    Reloads,
}

/// The most lines of one read, each at least a line feed.
const MOST_LINES: u32 = 2_048;

impl Over {
    fn outcome(self) -> Result<(), Stop> {
        match self {
            Over::Gone(_) | Over::Asked | Over::Reloads => Ok(()),
            Over::Unsaved => Err(Stop::File),
            Over::Stopped(fault) => Err(Stop::Fault(ShellFault::Host(fault.number()))),
        }
    }

    /// Returns true if no other controller is served afterwards.
    fn is_last(self, is_once: bool) -> bool {
        match self {
            Over::Gone(_) | Over::Stopped(_) => is_once,
            Over::Asked | Over::Unsaved => true,
            Over::Reloads => false,
        }
    }

    /// Returns why a controller is no longer served by a device that reloads.
    fn before_a_reload(self) -> Over {
        match self {
            Over::Asked | Over::Unsaved => Over::Reloads,
            _ => self,
        }
    }
}

/// Serves one controller after another: for ever, or only the first.
pub fn serve_devices<
    R: Files<File = File>
        + Net<Listener = TcpListener, Stream = TcpStream>
        + Clock
        + Eprint
        + Env
        + RandomSource
        + AllocGlobal,
>(rt: &R, words: &OptionTexts<'_>) -> Result<(), Stop> {
    let options = match HostOptions::read(words) {
        Ok(options) => options,
        Err(wrong) => return Err(Stop::Words(wrong)),
    };
    let Ok(log) = Log::new(rt, rt.alloc()) else {
        return Err(Stop::Fault(ShellFault::Listen));
    };
    let start = Start {
        number: number_of_start(rt),
        supervision: Supervision::new(Supervisor::of(rt)),
    };
    prepare_and_serve(rt.alloc(), log, &options, start)
}

/// Returns a random number for this start.
fn number_of_start<R: RandomSource>(rt: &R) -> u64 {
    let mut octets = [0; 4];
    // Without randomness, the device serves with the number 0.
    let _ = rt.fill_bytes(&mut octets);
    u64::from(u32::from_le_bytes(octets))
}

fn prepare_and_serve<R: System>(
    alloc: Global,
    log: Log<'_, R>,
    options: &HostOptions<'_>,
    start: Start,
) -> Result<(), Stop> {
    let (host, keeping, key_text) = open_host(alloc, &log, options)?;
    listen_and_serve(alloc, log, options, host, keeping, key_text, start)
}

/// Listens, and serves a host. Dropping hosts and devices as a whole keeps the proof small.
fn listen_and_serve<R: System>(
    alloc: Global,
    log: Log<'_, R>,
    options: &HostOptions<'_>,
    host: Host,
    keeping: Option<Keeping>,
    key_text: Vec<u8>,
    start: Start,
) -> Result<(), Stop> {
    match reaching(log, alloc, options, keeping, key_text, start) {
        Ok(mut device) => {
            let served = save_and_serve(options, host, &mut device);
            drop(device);
            served
        }
        Err(stop) => {
            drop(host);
            Err(stop)
        }
    }
}

/// Serves a host after a first save, which is retried later if it fails.
///
/// If the save replaces the state of another table, that state is kept first.
fn save_and_serve<R: System>(
    options: &HostOptions<'_>,
    host: Host,
    device: &mut Device<'_, R>,
) -> Result<(), Stop> {
    if let Some(keeping) = &mut device.keeping {
        if let Err(stop) = keeping.keep_before(device.session.log()) {
            drop(host);
            return Err(stop);
        }
        keeping.save(&host, &mut device.session);
    }
    if let Err(stop) = begin_capture(&mut device.session, options) {
        drop(host);
        return Err(stop);
    }
    device.session.log_refusals(options.log_refusals);
    note_keys(
        device.alloc,
        device.session.log(),
        device.files.keys,
        device.key_text.as_slice(),
    );
    device.session.log().say("ready");
    device.supervision.ready();
    serve_each(device, host, options)
}

/// Serves each controller with the data of the one before, or only one.
fn serve_each<R: System>(
    device: &mut Device<'_, R>,
    host: Host,
    options: &HostOptions<'_>,
) -> Result<(), Stop> {
    let mut host = host;
    let mut hearing = hearing_of(device, options.log_values);
    let mut outcome = Ok(());
    for _controller in 0..u64::MAX {
        let over = serve_one(device, &mut host, &mut hearing);
        if over.is_last(options.once) {
            give_up_reload(device);
            outcome = over.outcome();
            break;
        }
        host = open_next(device, host, &options.host)?;
        device.session.lose();
    }
    drop(hearing);
    drop(host);
    outcome
}

/// Opens the host of the next controller, with other keys if the device reloads.
fn open_next<R: Files<File = File> + Clock + Eprint>(
    device: &mut Device<'_, R>,
    host: Host,
    settings: &HostSettings,
) -> Result<Host, Stop> {
    match device.course {
        Course::Reloads { .. } => reopen_with_keys(device, host, settings),
        _ => reopen(device, host, settings),
    }
}

fn hearing_of<R>(device: &Device<'_, R>, logs_values: bool) -> Hearing {
    let saved = match &device.keeping {
        Some(keeping) => match keeping.contents {
            Contents::Subscriptions => SavedChanges::Subscriptions,
            Contents::State(_) => SavedChanges::All,
        },
        None => SavedChanges::Nothing,
    };
    Hearing::new(
        Heard::new(device.alloc, logs_values, saved),
        saved == SavedChanges::All,
    )
}

fn serve_one<R: System>(
    device: &mut Device<'_, R>,
    host: &mut Host,
    hearing: &mut Hearing,
) -> Over {
    hearing.begin();
    // The connections belong to the last controller.
    device.session.know(&hearing.heard);
    device.ending.clear();
    let over = serve_turns(device, host, hearing);
    device.session.end_all_refusals();
    match device.course {
        Course::Serves => {
            tell_over(device.alloc, &mut device.session, host, over);
            over
        }
        Course::Stops(_) => {
            if finish(device, host) {
                Over::Asked
            } else {
                Over::Unsaved
            }
        }
        Course::Reloads { .. } => {
            let over = over.before_a_reload();
            if let Over::Reloads = over {
                reset(device);
            }
            tell_over(device.alloc, &mut device.session, host, over);
            over
        }
    }
}

fn serve_turns<R: System>(
    device: &mut Device<'_, R>,
    host: &mut Host,
    heard: &mut Hearing,
) -> Over {
    let mut out = ToController::new(device.alloc);
    for _turn in 0..u64::MAX {
        if let Some(over) = over_in_turn(device, host, &mut out, heard) {
            return over;
        }
    }
    Over::Gone("gone")
}

/// Serves one turn. Returns why serving has ended, if so.
fn over_in_turn<R: System>(
    device: &mut Device<'_, R>,
    host: &mut Host,
    out: &mut ToController,
    heard: &mut Hearing,
) -> Option<Over> {
    supervise(device, host);
    let served = serve_events(device, host, out, heard);
    device.takes = Takes::Nothing;
    let turn = serve_turn(host, device, out, heard);
    device.takes = Takes::Any;
    if matches!(turn.sending, Sending::Failed) {
        return Some(Over::Gone(device.session.why_lost("gone: it cannot be written")));
    }
    match served {
        Ok(End::Turns) if device.session.lacks_application() => {
            Some(Over::Gone("released: no application is connected"))
        }
        Ok(End::Turns) if is_stopped(device, host) => Some(Over::Asked),
        Ok(End::Turns) => None,
        Ok(End::Ended) => Some(Over::Gone("gone")),
        Ok(End::Failed) => Some(Over::Gone(device.session.why_lost("gone: it cannot be read"))),
        Err(fault) => Some(Over::Stopped(fault)),
    }
}

/// Feeds the watchdog of the supervisor if it is time, and shows it what the device does.
fn supervise<R: Clock + Eprint>(device: &mut Device<'_, R>, host: &Host) {
    if !device.supervision.is_there() {
        return;
    }
    let activity = if device.session.is_serving() {
        let mut count: usize = 0;
        for _connection in host.connections() {
            count = count.saturating_add(1);
        }
        Activity::Serving(count)
    } else {
        Activity::Waiting
    };
    let now = device.session.log().now();
    device.supervision.turn(device.alloc, activity, now);
}

/// Serves an event, and then the other lines of the same read: one save covers all of them.
fn serve_events<R: System>(
    device: &mut Device<'_, R>,
    host: &mut Host,
    out: &mut ToController,
    heard: &mut Hearing,
) -> Result<End, HostFault> {
    let mut served = serve_happenings(host, device, out, heard, 1);
    note_event(device, host, heard);
    device.takes = Takes::Line;
    for _line in 0..MOST_LINES {
        if !matches!(served, Ok(End::Turns)) || !device.session.has_next_line() {
            break;
        }
        served = serve_happenings(host, device, out, heard, 1);
        note_event(device, host, heard);
    }
    served
}

fn tell_over<R: Clock + Eprint>(
    alloc: Global,
    session: &mut Session<'_, R>,
    host: &Host,
    over: Over,
) {
    match over {
        Over::Gone(how) => session.log().say_of("controller", how),
        Over::Stopped(fault) => tell_stopped(alloc, session, fault),
        Over::Reloads if session.has_controller() => session
            .log()
            .say_of("controller", "released: the keys have changed"),
        Over::Reloads | Over::Asked | Over::Unsaved => {}
    }
    if session.is_serving() {
        let ends = ends_of_connections(alloc, session.names(), host);
        session.tell_ends(ends);
        session.tell(&Told::Waiting);
    }
    session.flush();
}

/// Returns a line for each connection that ends because its controller is gone.
fn ends_of_connections(alloc: Global, names: &Names, host: &Host) -> Result<Vec<u8>, AllocError>
    ensures ends { IfOk result (λ text. text.items
        ≡ flat_map (end_line names.now.named) (connections_in host.now)) }
{
    let mut text = Vec::new(alloc);
    add_ends(&mut text, names, host)?;
    Ok(text)
}

fn tell_stopped<R: Clock + Eprint>(alloc: Global, session: &mut Session<'_, R>, fault: HostFault) {
    if let Ok(words) = format!(in alloc; "{fault}") {
        session.log().say_of("stopped:", words.as_str());
        session.tell(&Told::Stopped(words.as_str()));
    }
}
