ghost use Rattle.std.specs.Prelude.{◌≡◌, ◌<◌, ◌≤◌, [], ◌∷◌, length, drop, slice_get, Some, IfOk, IfErr, OnOk, OnErr};
ghost use Rattle.std.specs.Bool.{OnTrue, OnFalse};
ghost use Rattle.std.specs.Option.{option_map};
ghost use Rattle.sim_controller.specs.Acts.{SimulatedAct, act_of, phone_in, payload_in, act_fault, telling_fault, simulated_after_act, DoesAct};
ghost use Rattle.sim_controller.specs.Answers.{completion_fault, completions_for, data_fault, after_data, host_fault, after_host, AnswersCommand, TellsAnswer};
ghost use Rattle.sim_controller.specs.Calls.{GivesInOrder, TellsWhatIsRead};
ghost use Rattle.sim_controller.specs.FromHost.{host_packet_of, fragment_that, taken_of};
ghost use Rattle.sim_controller.specs.Hearing.{HearsItsFrames};
ghost use Rattle.sim_controller.specs.Phone.{phone_after_hearing, after_telling};
ghost use Rattle.sim_controller.specs.Simulated.{simulated_at_start, phone_at, with_phone, with_told, refusal, IsDone};
ghost use Rattle.sim_controller.specs.Told.{sent_octets, sent_of};
ghost use Rattle.sim_controller.specs.declared.handle.TheConstants.{PHONES};
ghost use Rattle.sim_controller.specs.declared.phone.TheConstants.{MAX_FRAMES};
ghost use Rattle.sim_controller.specs.declared.waiting.TheConstants.{MAX_PACKETS};
ghost use Rattle.le_acl.specs.declared.sender.TheConstants.{MAX_ACL_LEN};
ghost use Rattle.octet_io.specs.declared.pdu.TheConstants.{MAX_PDU};

use crate::act::PhoneAct;
use crate::answer::answer_to;
use crate::command::{Asked, HostPacket, read};
use crate::config::SimConfig;
use crate::fault::SimFault;
use crate::frame::{frame_of, tell_frame};
use crate::phone::Phone;
use crate::phones::{absent_phones, here_with};
use crate::told::Told;
use crate::waiting::{MAX_PACKETS, tell, tell_both};
use arrayvec::ArrayVec;
use circular_buffer::HeapCircularBuffer;
use le_acl::MAX_FRAME;
use le_h4::PacketOctets;
use le_hci::Peer;
use le_hci::reason::{LOCAL_HOST_TERMINATED, REMOTE_USER_TERMINATED};
use std::alloc::{AllocError, Global};
use std::marker::Model;

/// A controller with `PHONES` clients. It allocates no memory after `new`.
#[derive(Drop)]
pub struct Sim {
    config: SimConfig,
    advertising: bool,
    waiting: HeapCircularBuffer<Told>,
    phones: Vec<Phone>,
}

impl Model for Sim {
    ghost use Rattle.sim_controller.specs.Simulated.{Simulated, simulated_of, IsSimulated};

    ghost Value = { Simulated };

    ghost view = { λ s. simulated_of s.config s.advertising s.waiting.items s.phones.items };

    ghost invariant = { λ s. IsSimulated s.config s.waiting s.phones.items };
}

impl Sim {
    /// Creates a controller that does not advertise and has no connection. Allocates all memory
    /// with `alloc`.
    #[tactic(auto, using(crate::proofs::GivenInOrder::gives_in_order, crate::proofs::HeardFrames::hears_its_frames))]
    pub fn new(alloc: Global, config: SimConfig) -> Result<Sim, SimFault>
        requires cut_least { 1 ≤ config.cut }
        requires cut_most { config.cut ≤ MAX_ACL_LEN }
        ensures start { IfOk result (λ sim. sim ≡ simulated_at_start config) }
        ensures fault { IfErr result (λ fault. fault ≡ SimFault.OutOfMemory) }
        // These hold whatever the calls are.
        ensures in_order { GivesInOrder config }
        ensures read { TellsWhatIsRead }
        ensures heard { HearsItsFrames config }
    {
        Sim::with_room(alloc, config).map_err(|_| SimFault::OutOfMemory)
    }

    fn with_room(alloc: Global, config: SimConfig) -> Result<Sim, AllocError>
        requires cut_least { 1 ≤ config.cut }
        requires cut_most { config.cut ≤ MAX_ACL_LEN }
        ensures { IfOk result (λ sim. sim ≡ simulated_at_start config) }
    {
        Ok(Sim {
            config,
            advertising: false,
            waiting: HeapCircularBuffer::with_capacity(alloc, MAX_PACKETS)?,
            phones: absent_phones(alloc)?,
        })
    }

    /// Executes an act of a client. A fault changes nothing.
    pub fn act(&mut self, act: PhoneAct<'_>) -> Result<(), SimFault>
        requires phone { phone_in (act_of act) < PHONES }
        requires payload { length (payload_in (act_of act)) ≤ MAX_PDU }
        ensures exact { result ≡ refusal (act_fault self.old (act_of act.entry)) }
        ensures done { OnOk result (self.new ≡ simulated_after_act self.old (act_of act.entry)) }
        ensures unchanged { OnErr result (self.new ≡ self.old) }
    {
        match act {
            PhoneAct::Connect { phone, peer } => self.connect(phone, peer),
            PhoneAct::Drop { phone } => self.leave(phone),
            PhoneAct::Encrypt { phone, rand, ediv } => self.encrypt(phone, rand, ediv),
            PhoneAct::Clear { phone } => self.clear(phone),
            PhoneAct::Send {
                phone,
                cid,
                payload,
            } => self.send(phone, cid, payload),
            PhoneAct::Hold { phone } => self.hold(phone),
            PhoneAct::Done { phone, packets } => self.done(phone, packets),
        }
    }

    fn connect(&mut self, phone: u8, peer: Peer) -> Result<(), SimFault>
        requires { phone < PHONES }
        ensures { DoesAct (SimulatedAct.Connect phone peer) self.old self.new result }
    {
        if self.phones[usize::from(phone)].is_here() {
            return Err(SimFault::AlreadyHere);
        }
        if !self.advertising {
            return Err(SimFault::NotAdvertising);
        }
        tell(&mut self.waiting, Told::ConnectionComplete { phone, peer })?;
        self.phones[usize::from(phone)].connect();
        self.advertising = false;
        Ok(())
    }

    fn leave(&mut self, phone: u8) -> Result<(), SimFault>
        requires { phone < PHONES }
        ensures { DoesAct (SimulatedAct.Drop phone) self.old self.new result }
    {
        if !self.phones[usize::from(phone)].is_here() {
            return Err(SimFault::NotHere);
        }
        tell(
            &mut self.waiting,
            Told::DisconnectionComplete {
                phone,
                reason: REMOTE_USER_TERMINATED,
            },
        )?;
        self.phones[usize::from(phone)].leave();
        Ok(())
    }

    fn encrypt(&mut self, phone: u8, rand: [u8; 8], ediv: u16) -> Result<(), SimFault>
        requires { phone < PHONES }
        ensures { DoesAct (SimulatedAct.Encrypt phone rand ediv) self.old self.new result }
    {
        self.tell_of(phone, Told::LongTermKeyRequest { phone, rand, ediv })
    }

    fn clear(&mut self, phone: u8) -> Result<(), SimFault>
        requires { phone < PHONES }
        ensures { DoesAct (SimulatedAct.Clear phone) self.old self.new result }
    {
        self.tell_of(phone, Told::EncryptionChange { phone, enabled: 0 })
    }

    fn done(&mut self, phone: u8, packets: u16) -> Result<(), SimFault>
        requires { phone < PHONES }
        ensures { DoesAct (SimulatedAct.Done phone packets) self.old self.new result }
    {
        self.tell_of(phone, Told::CompletedPackets { phone, packets })
    }

    fn tell_of(&mut self, phone: u8, told: Told) -> Result<(), SimFault>
        requires { phone < PHONES }
        ensures { IsDone (telling_fault self.old phone (told ∷ []))
            (with_told self.old (told ∷ [])) self.old self.new result }
    {
        if !self.phones[usize::from(phone)].is_here() {
            return Err(SimFault::NotHere);
        }
        tell(&mut self.waiting, told)
    }

    fn send(&mut self, phone: u8, cid: u16, payload: &[u8]) -> Result<(), SimFault>
        requires phone { phone < PHONES }
        requires payload { length payload.now ≤ MAX_PDU }
        ensures { DoesAct (SimulatedAct.Send phone cid payload.now) self.old self.new result }
    {
        if !self.phones[usize::from(phone)].is_here() {
            return Err(SimFault::NotHere);
        }
        let frame = frame_of(cid, payload);
        let cut = usize::from(self.config.cut);
        tell_frame(&mut self.waiting, phone, &frame, cut)
    }

    fn hold(&mut self, phone: u8) -> Result<(), SimFault>
        requires { phone < PHONES }
        ensures { DoesAct (SimulatedAct.Hold phone) self.old self.new result }
    {
        if !self.phones[usize::from(phone)].is_here() {
            return Err(SimFault::NotHere);
        }
        self.phones[usize::from(phone)].hold();
        Ok(())
    }

    fn answer(&mut self, asked: Asked) -> Result<(), SimFault>
        ensures { AnswersCommand asked self.old self.new result }
    {
        match asked {
            Asked::Disconnect { handle, reason } => self.disconnect(handle, reason),
            Asked::GiveKey { handle } => self.give_key(handle),
            Asked::Advertise { enable } => self.advertise(enable),
            _ => self.tell_answer(asked),
        }
    }

    fn disconnect(&mut self, handle: u16, reason: u8) -> Result<(), SimFault>
        ensures { AnswersCommand (Asked.Disconnect handle reason) self.old self.new result }
    {
        let asked = Asked::Disconnect { handle, reason };
        let Some(phone) = here_with(&self.phones, handle) else {
            return self.tell_answer(asked);
        };
        let ended = Told::DisconnectionComplete {
            phone,
            reason: LOCAL_HOST_TERMINATED,
        };
        tell_both(&mut self.waiting, answer_to(&self.config, asked), ended)?;
        self.phones[usize::from(phone)].end(reason);
        Ok(())
    }

    fn give_key(&mut self, handle: u16) -> Result<(), SimFault>
        ensures { AnswersCommand (Asked.GiveKey handle) self.old self.new result }
    {
        let asked = Asked::GiveKey { handle };
        let Some(phone) = here_with(&self.phones, handle) else {
            return self.tell_answer(asked);
        };
        let encrypted = Told::EncryptionChange { phone, enabled: 1 };
        tell_both(&mut self.waiting, answer_to(&self.config, asked), encrypted)
    }

    fn advertise(&mut self, enable: bool) -> Result<(), SimFault>
        ensures { AnswersCommand (Asked.Advertise enable) self.old self.new result }
    {
        self.tell_answer(Asked::Advertise { enable })?;
        self.advertising = enable;
        Ok(())
    }

    fn tell_answer(&mut self, asked: Asked) -> Result<(), SimFault>
        ensures { TellsAnswer asked self.old self.new result }
    {
        tell(&mut self.waiting, answer_to(&self.config, asked))
    }

    /// Writes the next packet to the host to `out`. Returns false and changes nothing if there is
    /// none.
    pub fn next_to_host(&mut self, out: &mut PacketOctets) -> bool
        ensures packet { OnTrue result (option_map (λ told. sent_octets (sent_of told))
            (slice_get self.old.waiting 0) ≡ Some out.new.items) }
        ensures none { OnFalse result (self.old.waiting ≡ []) }
        ensures out_unchanged { OnFalse result (out.new.items ≡ out.old.items) }
        ensures within { length self.old.waiting ≤ MAX_PACKETS }
        ensures after { self.new ≡ record self.old { waiting = drop 1 self.old.waiting } }
    {
        match self.waiting.pop_front() {
            Some(told) => {
                told.write(out);
                true
            }
            None => false,
        }
    }

    /// Processes a packet of the host, from its indicator on. A fault changes nothing.
    pub fn from_host(&mut self, octets: &[u8]) -> Result<(), SimFault>
        ensures exact { result ≡ refusal (host_fault self.old (host_packet_of octets.now)) }
        ensures done { OnOk result (self.new ≡ after_host self.old (host_packet_of octets.now)) }
        ensures unchanged { OnErr result (self.new ≡ self.old) }
    {
        match read(octets) {
            Some(packet) => self.take(packet),
            None => Err(SimFault::BadPacket),
        }
    }

    fn take(&mut self, packet: HostPacket<'_>) -> Result<(), SimFault>
        ensures { IsDone (host_fault self.old (Some (taken_of packet.entry)))
            (after_host self.old (Some (taken_of packet.entry))) self.old self.new result }
    {
        match packet {
            HostPacket::Command(asked) => self.answer(asked),
            HostPacket::Data {
                handle,
                begins,
                octets,
            } => match here_with(&self.phones, handle) {
                Some(phone) => self.take_data(phone, begins, octets),
                None => Ok(()),
            },
        }
    }

    fn take_data(&mut self, phone: u8, begins: bool, octets: &[u8]) -> Result<(), SimFault>
        requires { phone < PHONES }
        ensures { let fragment = fragment_that begins octets.now in
            IsDone (data_fault self.old (Some phone) fragment)
            (after_data self.old (Some phone) fragment) self.old self.new result }
    {
        let assembled = self.phones[usize::from(phone)].assemble(begins, octets);
        if self.phones[usize::from(phone)].hears_too_much(&assembled) {
            return Err(SimFault::Full);
        }
        self.complete(phone)?;
        self.phones[usize::from(phone)].take_in(assembled);
        Ok(())
    }

    /// Completes a packet for a client, unless its packets are held.
    fn complete(&mut self, phone: u8) -> Result<(), SimFault>
        requires { phone < PHONES }
        ensures { IsDone (completion_fault self.old phone)
            (with_told self.old (completions_for self.old phone)) self.old self.new result }
    {
        if self.phones[usize::from(phone)].is_held() {
            return Ok(());
        }
        tell(
            &mut self.waiting,
            Told::CompletedPackets { phone, packets: 1 },
        )
    }

    /// Writes the next frame for a client, with its header, to `out`. Returns false and changes
    /// nothing if there is none.
    pub fn heard(&mut self, phone: u8, out: &mut ArrayVec<u8, MAX_FRAME>) -> bool
        requires { phone < PHONES }
        ensures frame { OnTrue result
            (slice_get (phone_at self.old phone).heard 0 ≡ Some out.new.items) }
        ensures none { OnFalse result ((phone_at self.old phone).heard ≡ []) }
        ensures out_unchanged { OnFalse result (out.new.items ≡ out.old.items) }
        ensures within { length (phone_at self.old phone).heard ≤ MAX_FRAMES }
        ensures after { self.new
            ≡ with_phone self.old phone (phone_after_hearing (phone_at self.old phone)) }
    {
        self.phones[usize::from(phone)].hear(out)
    }

    /// Returns, once, the reason of the Disconnect that ended a client's connection.
    pub fn ended(&mut self, phone: u8) -> Option<u8>
        requires { phone < PHONES }
        ensures reason { result ≡ (phone_at self.old phone).ended }
        ensures after { self.new
            ≡ with_phone self.old phone (after_telling (phone_at self.old phone)) }
    {
        self.phones[usize::from(phone)].ended()
    }
}
