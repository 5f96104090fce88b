ghost use Rattle.std.specs.Prelude.{◌≡◌, ◌≤◌, [], length, drop, slice_get, is_some, None, Some, IfOk, IsFalse};
ghost use Rattle.std.specs.Bool.{OnTrue, OnFalse};
ghost use Rattle.std.specs.Option.{option_map};
ghost use Rattle.sim_controller.specs.Assembled.{assembly};
ghost use Rattle.sim_controller.specs.FromHost.{fragment_that};
ghost use Rattle.sim_controller.specs.Phone.{absent_phone, new_link, assembled_in, with_assembly, hears_too_much, held_link, is_held};

use crate::assembly::{Assembled, assemble};
use arrayvec::ArrayVec;
use circular_buffer::HeapCircularBuffer;
use le_acl::MAX_FRAME;
use std::alloc::{AllocError, Global};
use std::marker::Model;

/// Maximum number of frames queued for a client.
const MAX_FRAMES: usize = 16;

/// State of a client's connection.
#[derive(Drop)]
struct Link {
    /// True if packets are not completed automatically.
    held: bool,
    /// Octets of an unfinished frame to the client.
    unfinished: Option<ArrayVec<u8, MAX_FRAME>>,
}

/// A client, as the controller sees it.
#[derive(Drop)]
pub(crate) struct Phone {
    link: Option<Link>,
    /// Frames that the client has not received yet.
    heard: HeapCircularBuffer<ArrayVec<u8, MAX_FRAME>>,
    /// Reason of the host's Disconnect, until it is reported.
    ended: Option<u8>,
}

impl Model for Phone {
    ghost use Rattle.sim_controller.specs.Phone.{Phone};

    ghost Value = { Phone };

    ghost use Rattle.std.specs.Prelude.{◌≡◌, ◌≤◌, length};
    ghost use Rattle.sim_controller.specs.PhoneFields.{phone_of, IsPhone};

    ghost view = { λ p. phone_of p.link p.heard.items p.ended };

    ghost invariant = { λ p. IsPhone p.heard };
}

impl Phone {
    pub(crate) fn new(alloc: Global) -> Result<Phone, AllocError>
        ensures { IfOk result (λ phone. phone ≡ absent_phone) }
    {
        Ok(Phone {
            link: None,
            heard: HeapCircularBuffer::with_capacity(alloc, MAX_FRAMES)?,
            ended: None,
        })
    }

    pub(crate) fn is_here(&self) -> bool
        ensures { result ≡ is_some self.now.link }
    {
        self.link.is_some()
    }

    pub(crate) fn is_held(&self) -> bool
        ensures { result ≡ is_held self.now.link }
    {
        match &self.link {
            Some(link) => link.held,
            None => false,
        }
    }

    /// Returns true if a complete frame exceeds the queue.
    pub(crate) fn hears_too_much(&self, assembled: &Assembled) -> bool
        ensures { result ≡ hears_too_much self.now (assembly assembled.now) }
    {
        self.heard.is_full() && assembled.is_frame()
    }

    pub(crate) fn connect(&mut self)
        ensures { self.new ≡ record self.old { link = Some new_link } }
    {
        self.link = Some(Link {
            held: false,
            unfinished: None,
        });
    }

    pub(crate) fn leave(&mut self)
        ensures { self.new ≡ record self.old { link = None } }
    {
        self.link = None;
    }

    pub(crate) fn end(&mut self, reason: u8)
        ensures { self.new ≡ record self.old { link = None; ended = Some reason } }
    {
        self.link = None;
        self.ended = Some(reason);
    }

    pub(crate) fn hold(&mut self)
        ensures { self.new ≡ record self.old { link = option_map held_link self.old.link } }
    {
        if let Some(link) = &mut self.link {
            link.held = true;
        }
    }

    pub(crate) fn assemble(&self, begins: bool, octets: &[u8]) -> Assembled
        ensures { assembly result ≡ assembled_in self.now.link (fragment_that begins octets.now) }
    {
        if begins {
            return assemble(&[], octets);
        }
        match &self.link {
            Some(
                Link {
                    unfinished: Some(earlier),
                    ..
                },
            ) => assemble(earlier, octets),
            _ => Assembled::Nothing,
        }
    }

    /// Stores the result of a fragment, and queues a complete frame.
    pub(crate) fn take_in(&mut self, assembled: Assembled)
        requires { IsFalse (hears_too_much self.old (assembly assembled)) }
        ensures { self.new ≡ with_assembly self.old (assembly assembled) }
    {
        let Some(link) = &mut self.link else {
            return;
        };
        match assembled {
            Assembled::Nothing => link.unfinished = None,
            Assembled::Unfinished(octets) => link.unfinished = Some(octets),
            Assembled::Frame(frame) => {
                link.unfinished = None;
                self.heard.try_push_back(frame).unwrap();
            }
        }
    }

    pub(crate) fn hear(&mut self, out: &mut ArrayVec<u8, MAX_FRAME>) -> bool
        ensures frame { OnTrue result (slice_get self.old.heard 0 ≡ Some out.new.items) }
        ensures none { OnFalse result (self.old.heard ≡ []) }
        ensures out_unchanged { OnFalse result (out.new.items ≡ out.old.items) }
        ensures within { length self.old.heard ≤ MAX_FRAMES }
        ensures after { self.new ≡ record self.old { heard = drop 1 self.old.heard } }
    {
        match self.heard.pop_front() {
            Some(frame) => {
                *out = frame;
                true
            }
            None => false,
        }
    }

    pub(crate) fn ended(&mut self) -> Option<u8>
        ensures reason { result ≡ self.old.ended }
        ensures after { self.new ≡ record self.old { ended = None } }
    {
        self.ended.take()
    }
}
