ghost use Rattle.std.specs.Prelude.{◌≡◌, ◌≢◌, List, ℕ, ◌∷◌, drop, IsSome, Some, IfErr};
ghost use Rattle.std.specs.Option.{option_map};
ghost use Rattle.std.specs.Result.{result_map_both};
ghost use Rattle.octet_io.specs.Number.{Octets};
ghost use Rattle.arrayvec.specs.ArrayVec.{ArrayVec};
ghost use Rattle.le_hci.specs.Command.{command_of};
ghost use Rattle.le_hci.specs.InitOrder.{init_commands_sent, commands_in_order, tell_shared, IsPrefixOf};
ghost use Rattle.le_hci.specs.InitTold.{KnowsUsable, state_after_answers};
ghost use Rattle.le_hci.specs.Init.{command_awaited, opcode_awaited, init_outcome, returned_values, handed_back, next, with_buffers, first_state};

use crate::buffers::{Buffers, le_buffers, shared_buffers};
use crate::command::{Command, EVENT_MASK, LE_EVENT_MASK, MAX_ADVERTISING_DATA};
use crate::peer::{PUBLIC_ADDRESS, RANDOM_ADDRESS};
use arrayvec::ArrayVec;

/// Settings of a controller.
#[derive(Drop)]
pub struct Settings {
    /// Random address to advertise from, in wire order. `None` means the public one.
    pub address: Option<[u8; 6]>,
    pub advertising: ArrayVec<u8, MAX_ADVERTISING_DATA>,
}

/// Progress of a controller's initialisation. Each state except `Ready` waits for the completion of
/// the named command.
#[derive(Drop)]
pub enum Init {
    /// Reset.
    Resetting(Settings),
    /// Set Event Mask.
    Masking(Settings),
    /// LE Set Event Mask.
    LeMasking(Settings),
    /// LE Read Buffer Size.
    Sizing(Settings),
    /// Read Buffer Size: all transports share the buffers.
    SharedSizing(Settings),
    /// LE Set Random Address.
    Addressing {
        address: [u8; 6],
        advertising: ArrayVec<u8, MAX_ADVERTISING_DATA>,
        buffers: Buffers,
    },
    /// LE Set Advertising Parameters.
    Describing {
        /// 0 public, 1 random.
        own_address_type: u8,
        advertising: ArrayVec<u8, MAX_ADVERTISING_DATA>,
        buffers: Buffers,
    },
    /// LE Set Advertising Data.
    Filling {
        advertising: ArrayVec<u8, MAX_ADVERTISING_DATA>,
        buffers: Buffers,
    },
    /// LE Set Advertise Enable.
    Enabling {
        buffers: Buffers,
    },
    /// The controller advertises. It accepts `packets` ACL packets at a time, with at most `length`
    /// octets of data.
    Ready {
        length: u16,
        packets: u16,
    },
}

/// Reason why the initialisation did not continue.
#[derive(Clone, Copy, Debug, PartialEq, Eq)]
pub enum InitFault {
    /// The command with this opcode failed with this nonzero status.
    Refused(u16, u8),
    /// There is no buffer, or buffers have fewer than 27 octets.
    BadBuffers,
    /// The status is missing, or it is 0 and return parameters are missing.
    Short,
}

/// Status of a successful command (Core 5.0, Vol 2 Part D, 1.3).
const SUCCESS: u8 = 0x00;

impl Init {
    /// Returns the first state. Without `address` the controller uses its public one.
    pub fn new(address: Option<[u8; 6]>, advertising: ArrayVec<u8, MAX_ADVERTISING_DATA>) -> Init
        ensures exact { result ≡ first_state address advertising }
        // Commands are sent in their order, whatever the answers.
        ensures in_order { (answers : List Octets)
            → IsPrefixOf (init_commands_sent answers result)
            (commands_in_order address advertising.items (tell_shared (drop 3 answers))) }
        // Whatever the answers, known buffers hold at least one packet of 27 octets.
        ensures usable { (answers : List Octets)
            → KnowsUsable (state_after_answers answers result) }
    {
        Init::Resetting(Settings {
            address,
            advertising,
        })
    }

    /// Returns the command to send once in this state. `None` means that the controller is ready.
    pub fn command(&self) -> Option<Command<'_>>
        ensures { option_map command_of result ≡ command_awaited self.now }
    {
        match self {
            Init::Resetting(_) => Some(Command::Reset),
            Init::Masking(_) => Some(Command::SetEventMask { mask: EVENT_MASK }),
            Init::LeMasking(_) => Some(Command::LeSetEventMask {
                mask: LE_EVENT_MASK,
            }),
            Init::Sizing(_) => Some(Command::LeReadBufferSize),
            Init::SharedSizing(_) => Some(Command::ReadBufferSize),
            Init::Addressing { address, .. } => {
                Some(Command::LeSetRandomAddress { address: *address })
            }
            Init::Describing {
                own_address_type,
                ..
            } => Some(Command::LeSetAdvertisingParameters {
                own_address_type: *own_address_type,
            }),
            Init::Filling { advertising, .. } => Some(Command::LeSetAdvertisingData {
                advertising,
            }),
            Init::Enabling { .. } => Some(Command::LeSetAdvertiseEnable),
            Init::Ready { .. } => None,
        }
    }

    /// Processes the response to the pending command and returns the next state.
    ///
    /// The parameters are those of a Command Complete, or the nonzero status of a Command Status.
    /// Octets after them are ignored. A fault returns the unchanged state.
    pub fn complete(self, parameters: &[u8]) -> Result<Init, (InitFault, Init)>
        requires awaiting { IsSome (command_awaited self) }
        ensures exact { result ≡ init_outcome self parameters.now }
        ensures handed_back { IfErr result (λ e. e.1 ≡ self) }
        ensures refused { (opcode status : ℕ) (returned : Octets)
            → opcode_awaited self ≡ Some opcode
            → parameters.now ≡ status ∷ returned → status ≢ 0 → result
            ≡ Err (InitFault.Refused opcode status, self) }
    {
        let Some(command) = self.command() else {
            unreachable!()
        };
        match values(command.opcode(), parameters) {
            Ok(values) => self.advance(values),
            Err(fault) => Err((fault, self)),
        }
    }

    fn advance(self, values: &[u8]) -> Result<Init, (InitFault, Init)>
        requires awaiting { IsSome (command_awaited self) }
        ensures { result ≡ handed_back self (next self values.now) }
    {
        match self {
            Init::Resetting(settings) => Ok(Init::Masking(settings)),
            Init::Masking(settings) => Ok(Init::LeMasking(settings)),
            Init::LeMasking(settings) => Ok(Init::Sizing(settings)),
            Init::Sizing(settings) => match le_buffers(values) {
                Ok(Some(buffers)) => Ok(settings.with_buffers(buffers)),
                Ok(None) => Ok(Init::SharedSizing(settings)),
                Err(fault) => Err((fault, Init::Sizing(settings))),
            },
            Init::SharedSizing(settings) => match shared_buffers(values) {
                Ok(buffers) => Ok(settings.with_buffers(buffers)),
                Err(fault) => Err((fault, Init::SharedSizing(settings))),
            },
            Init::Addressing {
                address: _,
                advertising,
                buffers,
            } => Ok(Init::Describing {
                own_address_type: RANDOM_ADDRESS,
                advertising,
                buffers,
            }),
            Init::Describing {
                own_address_type: _,
                advertising,
                buffers,
            } => Ok(Init::Filling {
                advertising,
                buffers,
            }),
            Init::Filling {
                advertising: _,
                buffers,
            } => Ok(Init::Enabling { buffers }),
            Init::Enabling { buffers } => Ok(Init::Ready {
                length: buffers.length,
                packets: buffers.packets,
            }),
            Init::Ready { .. } => unreachable!(),
        }
    }
}

fn values(opcode: u16, parameters: &[u8]) -> Result<&[u8], InitFault>
    ensures { result_map_both (λ values. values.now) (λ fault. fault) result
        ≡ returned_values opcode parameters.now }
{
    match parameters {
        [] => Err(InitFault::Short),
        [SUCCESS, values @ ..] => Ok(values),
        [status, ..] => Err(InitFault::Refused(opcode, *status)),
    }
}

impl Settings {
    /// Returns the state once the buffers are known. A random address is set before its first use.
    fn with_buffers(self, buffers: Buffers) -> Init
        ensures { result ≡ with_buffers self buffers }
    {
        match self.address {
            Some(address) => Init::Addressing {
                address,
                advertising: self.advertising,
                buffers,
            },
            None => Init::Describing {
                own_address_type: PUBLIC_ADDRESS,
                advertising: self.advertising,
                buffers,
            },
        }
    }
}
