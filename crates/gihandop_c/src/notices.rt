//! Notices as C reads them.

ghost use Rattle.std.specs.Prelude.{◌≡◌, ◌≢◌, slice_get};
ghost use Rattle.std.specs.Option.{option_map};
ghost use Rattle.gatt_host.specs.Notices.{notice_of};
ghost use Rattle.gatt_host.specs.Telling.{notices_told};
ghost use Rattle.gatt_laws.specs.machine.Notice.{Connected, Ending, Secured};
ghost use Rattle.gihandop_c.specs.Telling.{notice_fields, fields_of_attribute, fields_of_connection, HandsOut};
ghost use Rattle.gihandop_c.specs.Statuses.{notice_status};
ghost use Rattle.gihandop_c.specs.declared.status.TheConstants.{DONE};

use crate::opened::Opened;
use crate::status;
use gatt_host::{Host, KeyFacts, Notice, Peer};
use host_api::notice_number;

/// A notice of a connection. Fields that its kind does not have are 0.
#[repr(C)]
#[derive(Clone, Copy)]
pub struct NoticeFields {
    /// The size of the caller's structure, in bytes: at least `NOTICE_SIZE`.
    pub size: usize,
    /// A number of `notice_number`.
    pub kind: u8,
    /// `CONFIGURED`: the bits of the client characteristic configuration.
    pub bits: u8,
    /// `ENDING`: the reason (Core 5.0, Vol 2 Part D, 2).
    pub reason: u8,
    /// `SECURED`: the size of the key, in octets. `authenticated`: it was exchanged with
    /// protection against a man in the middle. `secure`: LE Secure Connections made it.
    pub key_size: u8,
    pub authenticated: bool,
    pub secure: bool,
    /// `CONNECTED`: the type of the peer's address, 0 public or 1 random, and the address as on
    /// the wire.
    pub address_kind: u8,
    pub address: [u8; 6],
    /// The handle of the connection in HCI.
    pub connection: u16,
    /// `WRITTEN`, `CONFIGURED`, `CONFIRMED`, `SKIPPED`: the handle of the attribute.
    pub attribute: u16,
}

const NOTICE_SIZE: usize = size_of::<NoticeFields>();

pub(crate) fn next(opened: &mut Opened, notice: &mut NoticeFields) -> u32
    ensures status { result ≡ notice_status notice.old.size opened.old }
    ensures gives { result ≡ DONE
        → HandsOut notice.old.size notice.new opened.old opened.new }
    ensures unchanged { result ≢ DONE → opened.new ≡ opened.old }
    ensures untouched { result ≢ DONE → notice.new ≡ notice.old }
{
    if notice.size < NOTICE_SIZE {
        return status::BAD_SIZE;
    }
    let Some(behind) = opened.told.checked_add(1) else {
        return status::NOTHING;
    };
    match at(&opened.host, opened.told, notice.size) {
        Some(next) => {
            opened.told = behind;
            *notice = next;
            status::DONE
        }
        None => status::NOTHING,
    }
}

fn at(host: &Host, place: usize, size: usize) -> Option<NoticeFields>
    ensures { result
        ≡ option_map (notice_fields size) (slice_get (notices_told host.now) place) }
{
    Some(fields(host.notice(place)?, size))
}

fn fields(notice: Notice<'_>, size: usize) -> NoticeFields
    ensures { result ≡ notice_fields size (notice_of notice.entry) }
{
    match notice {
        Notice::Connected { handle, peer } => connected(size, handle, peer),
        Notice::Disconnected { handle } => of_connection(size, notice_number::DISCONNECTED, handle),
        Notice::Secured { handle, facts } => secured(size, handle, facts),
        Notice::Unsecured { handle } => of_connection(size, notice_number::UNSECURED, handle),
        Notice::Written {
            handle,
            attribute,
            ..
        } => of_attribute(size, notice_number::WRITTEN, handle, attribute, 0),
        Notice::Configured {
            handle,
            attribute,
            bits,
        } => of_attribute(size, notice_number::CONFIGURED, handle, attribute, bits),
        Notice::Confirmed { handle, attribute } => of_attribute(
            size,
            notice_number::CONFIRMED,
            handle,
            attribute,
            0,
        ),
        Notice::TimedOut { handle } => of_connection(size, notice_number::TIMED_OUT, handle),
        Notice::Ending { handle, reason } => ending(size, handle, reason),
        Notice::Skipped { handle, attribute } => of_attribute(
            size,
            notice_number::SKIPPED,
            handle,
            attribute,
            0,
        ),
    }
}

fn of_connection(size: usize, kind: u8, handle: u16) -> NoticeFields
    ensures { result ≡ fields_of_connection size kind handle }
{
    NoticeFields {
        size,
        kind,
        bits: 0,
        reason: 0,
        key_size: 0,
        authenticated: false,
        secure: false,
        address_kind: 0,
        address: [0; 6],
        connection: handle,
        attribute: 0,
    }
}

fn of_attribute(size: usize, kind: u8, handle: u16, attribute: u16, bits: u8) -> NoticeFields
    ensures { result ≡ fields_of_attribute size kind handle attribute bits }
{
    let mut said = of_connection(size, kind, handle);
    said.attribute = attribute;
    said.bits = bits;
    said
}

fn connected(size: usize, handle: u16, peer: Peer) -> NoticeFields
    ensures { result ≡ notice_fields size (Connected handle peer) }
{
    let address = peer.address;
    let mut said = of_connection(size, notice_number::CONNECTED, handle);
    said.address_kind = peer.kind;
    said.address = address;
    said
}

fn secured(size: usize, handle: u16, facts: KeyFacts) -> NoticeFields
    ensures { result ≡ notice_fields size (Secured handle facts) }
{
    let mut said = of_connection(size, notice_number::SECURED, handle);
    said.key_size = facts.size;
    said.authenticated = facts.authenticated;
    said.secure = facts.secure;
    said
}

fn ending(size: usize, handle: u16, reason: u8) -> NoticeFields
    ensures { result ≡ notice_fields size (Ending handle reason) }
{
    let mut said = of_connection(size, notice_number::ENDING, handle);
    said.reason = reason;
    said
}
