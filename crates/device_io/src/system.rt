//! The system that a device runs on.

use std::fs::{File, Files};
use std::net::{Net, TcpListener, TcpStream};
use std::time::Clock;

/// Files, sockets, a clock, and standard error.
///
/// A function that is called with the program's own runtime names these traits itself: the kit's
/// borrow checker does not cover a call that names only this one.
pub trait System: Files<File = File>
    + Net<Listener = TcpListener, Stream = TcpStream>
    + Clock
    + Eprint {}

impl<
    R: Files<File = File> + Net<Listener = TcpListener, Stream = TcpStream> + Clock + Eprint,
> System for R {}
