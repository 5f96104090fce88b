//! The links of the connections at the time of each notice. The host itself is ahead of its
//! notices: it has processed all that came together.

ghost use Rattle.std.specs.Prelude.{◌≡◌, [], IfErr, IfOk};
ghost use Rattle.device_session.specs.Links.{keyed_peer, key_noted, with_key, with_link, without_link};

use le_hci::Peer;
use std::alloc::{AllocError, Global};

/// The link of a connection.
#[derive(Clone, Copy)]
pub(crate) struct Link {
    pub(crate) handle: u16,
    pub(crate) peer: Peer,
    pub(crate) has_key: bool,
}

impl Link {
    fn note_key(&mut self, handle: u16, has_key: bool)
        ensures { self.new ≡ key_noted handle has_key self.old }
    {
        if self.handle == handle {
            self.has_key = has_key;
        }
    }
}

#[derive(Drop)]
pub(crate) struct Links {
    links: Vec<Link>,
}

impl Links {
    pub(crate) fn new(alloc: Global) -> Links
        ensures { result.links.items ≡ [] }
    {
        Links {
            links: Vec::new(alloc),
        }
    }

    pub(crate) fn forget(&mut self)
        ensures { self.new.links.items ≡ [] }
    {
        self.links.clear();
    }

    /// Notes a new connection. On error, for which memory was refused, it is not noted.
    pub(crate) fn connect(&mut self, handle: u16, peer: Peer) -> Result<(), AllocError>
        ensures noted { IfOk result
            (λ _. self.new.links.items ≡ with_link handle peer self.old.links.items) }
        ensures refused { IfErr result
            (λ _. self.new.links.items ≡ without_link handle self.old.links.items) }
    {
        self.disconnect(handle);
        let has_key = false;
        self.links.push(Link {
            handle,
            peer,
            has_key,
        })?;
        Ok(())
    }

    pub(crate) fn disconnect(&mut self, handle: u16)
        ensures { self.new.links.items ≡ without_link handle self.old.links.items }
    {
        self.links.retain(|link| link.handle != handle);
    }

    /// Notes whether a link has a key.
    pub(crate) fn note_key(&mut self, handle: u16, has_key: bool)
        ensures { self.new.links.items ≡ with_key handle has_key self.old.links.items }
    {
        note_keys(&mut self.links, handle, has_key);
    }

    /// Returns the peer of a connection whose link has a key.
    pub(crate) fn keyed_peer(&self, handle: u16) -> Option<Peer>
        ensures { result ≡ keyed_peer self.now.links.items handle }
    {
        let link = self
            .links
            .iter()
            .find(|link| link.handle == handle && link.has_key)?;
        Some(link.peer)
    }
}

fn note_keys(links: &mut Vec<Link>, handle: u16, has_key: bool)
    ensures { links.new.items ≡ with_key handle has_key links.old.items }
{
    for place in 0..links.len() {
        links[place].note_key(handle, has_key);
    }
}
