//! Incoming frames and arrivals of the connections in slots.

ghost use Rattle.std.specs.Prelude.{◌≡◌, replicate, IfOk};
ghost use Rattle.host_connections.specs.Arrivals.{no_arrivals};
ghost use Rattle.le_acl.specs.Reassembler.{no_assembly};

use host_connections::Arrivals;
use le_acl::Reassembler;
use std::alloc::{AllocError, Global};
use std::marker::Model;

#[derive(Drop)]
pub(crate) struct Frames {
    /// One for each slot.
    pub(crate) assembled: Vec<Reassembler>,
    /// Ordinals of the connections, and the time of the last packet of each.
    pub(crate) arrivals: Arrivals,
}

impl Model for Frames {
    ghost use Rattle.gatt_host.specs.Meaning.{IncomingFrames};

    ghost Value = { IncomingFrames };

    ghost view = { λ f. record { assembled = f.assembled.items; arrivals = f.arrivals } };
}

impl Frames {
    /// Creates the frames of `count` slots with all their memory.
    pub(crate) fn new(alloc: Global, count: usize) -> Result<Frames, AllocError>
        ensures assembled { IfOk result
            (λ frames. frames.assembled ≡ replicate count no_assembly) }
        ensures arrivals { IfOk result (λ frames. frames.arrivals ≡ no_arrivals) }
    {
        let mut assembled = Vec::with_capacity(alloc, count)?;
        for _ in 0..count {
            assembled.push(Reassembler::new())?;
        }
        Ok(Frames {
            assembled,
            arrivals: Arrivals::none(),
        })
    }
}
