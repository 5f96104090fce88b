//! The reasons for a device to stop.

use shell_files::ShellFault;

/// Why a device stops.
#[derive(Clone, Copy)]
pub enum Stop {
    /// The options make no sense: what is wrong.
    Words(&'static str),
    /// A file is refused or cannot be written, as reported on standard error.
    File,
    /// A socket cannot be opened, as reported on standard error.
    Socket,
    /// Any fault of other commands.
    Fault(ShellFault),
}

impl From<ShellFault> for Stop {
    fn from(fault: ShellFault) -> Stop {
        Stop::Fault(fault)
    }
}

pub(crate) fn refuse<R: Eprint>(rt: &R, line: Option<String>) -> Stop {
    tell(rt, line, Stop::File)
}

pub(crate) fn refuse_socket<R: Eprint>(rt: &R, line: Option<String>) -> Stop {
    tell(rt, line, Stop::Socket)
}

fn tell<R: Eprint>(rt: &R, line: Option<String>, stop: Stop) -> Stop {
    let Some(line) = line else {
        return Stop::Fault(ShellFault::Memory);
    };
    // If this fails, the error cannot be reported at all.
    let _ = rt.eprintln(line.as_str());
    stop
}
