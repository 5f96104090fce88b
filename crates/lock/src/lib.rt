//! A door lock as an application of the host. A client turns the bolt by writing a value of the
//! table. A button inside lets connected clients read the code for five seconds. Clients without a
//! key are disconnected after a while.
#![tactic(auto)]

use arrayvec::ArrayVec;
use gatt_host::{App, Host, HostFault, Input, Listener, MAX_SLOTS, Notice, Sink, drive_to};

/// Handle of the lock state in the table of the door: 01 is open.
const STATE: u16 = 10;

/// Time to read the code after the button, in milliseconds.
const LEAVE: u64 = 5_000;

/// Time that a client without a key may stay, in milliseconds.
const PATIENCE: u64 = 30_000;

/// Turns the bolt of a door.
pub trait Motor {
    fn turn(&mut self, open: bool);
}

#[derive(Clone, Copy, Default)]
struct Phone {
    handle: u16,
    /// Time of connection, in milliseconds.
    since: u64,
    /// True if its link has a key.
    known: bool,
}

/// A lock with the clients at the door.
#[derive(Drop)]
pub struct Lock<M> {
    motor: M,
    phones: ArrayVec<Phone, MAX_SLOTS>,
    /// In milliseconds.
    now: u64,
}

impl<M: Motor> Listener for Lock<M> {
    fn hear(&mut self, notice: Notice<'_>) {
        match notice {
            Notice::Written {
                attribute,
                value,
                ..
            } if attribute == STATE => self.motor.turn(value == [0x01].as_slice()),
            Notice::Connected { handle, .. } => self.welcome(handle),
            Notice::Secured { handle, .. } => self.know(handle),
            Notice::Ending { handle, .. } | Notice::Disconnected { handle } => self.forget(handle),
            _ => {}
        }
    }
}

impl<M: Motor> Lock<M> {
    /// Creates a lock without clients.
    pub fn new(motor: M) -> Lock<M> {
        Lock {
            motor,
            phones: ArrayVec::new(),
            now: 0,
        }
    }

    /// Returns the motor.
    pub fn motor(&self) -> &M {
        &self.motor
    }

    /// Sets the time, in milliseconds, processes bytes and writes the answers. Disconnects clients
    /// that stayed too long without a key.
    pub fn serve<W: Sink>(
        &mut self,
        host: &mut Host,
        now: u64,
        octets: &[u8],
        out: &mut W,
    ) -> Result<(), HostFault> {
        self.now = now;
        let inputs = [Input::Call(App::Tick(now)), Input::Bytes(octets)];
        drive_to(host, &inputs, out, self)?;
        for place in (0..MAX_SLOTS).rev() {
            if let Some(stranger) = self.stranger(place) {
                self.call(host, App::Disconnect(stranger), out)?;
            }
        }
        Ok(())
    }

    /// Handles the button: authorizes all connected clients.
    pub fn press<W: Sink>(&mut self, host: &mut Host, out: &mut W) -> Result<(), HostFault> {
        let until = self.now.saturating_add(LEAVE);
        for place in 0..MAX_SLOTS {
            if let Some(phone) = self.phone(place) {
                self.call(host, App::Authorize(phone.handle, until), out)?;
            }
        }
        Ok(())
    }

    /// Makes a call and writes its packets. A refusal is ignored: the call came too late.
    fn call<W: Sink>(
        &mut self,
        host: &mut Host,
        call: App<'_>,
        out: &mut W,
    ) -> Result<(), HostFault> {
        drive_to(host, &[Input::Call(call)], out, self)?;
        Ok(())
    }

    fn phone(&self, place: usize) -> Option<Phone> {
        self.phones.get(place).copied()
    }

    /// Returns the connection of a client that stayed too long without a key.
    fn stranger(&self, place: usize) -> Option<u16> {
        let phone = self.phone(place)?;
        let late = self.now.saturating_sub(phone.since) > PATIENCE;
        if late && !phone.known {
            Some(phone.handle)
        } else {
            None
        }
    }

    fn welcome(&mut self, handle: u16) {
        // A host has at most `MAX_SLOTS` connections, so this succeeds.
        let _ = self.phones.try_push(Phone {
            handle,
            since: self.now,
            known: false,
        });
    }

    fn know(&mut self, handle: u16) {
        for phone in self.phones.as_mut_slice() {
            if phone.handle == handle {
                phone.known = true;
            }
        }
    }

    fn forget(&mut self, handle: u16) {
        self.phones.retain(|phone| phone.handle != handle);
    }
}
