//! The acts of a line of a script.

ghost use Rattle.std.specs.Prelude.{◌≡◌, ◌<◌, ℕ, true, IfSome, IsSome};
ghost use Rattle.gatt_host.specs.Calls.{call_of};
ghost use Rattle.gatt_host.specs.HostModel.{all_out};
ghost use Rattle.scripts.specs.Phones.{IsOfPhoneBelow};
ghost use Rattle.sim_controller.specs.Acts.{DoesAct};
ghost use Rattle.gatt_commands.specs.Doing.{Calls, DoesLine, NotesAct, NotesReplacing, NotesUnless, PhoneActs, ReplacesBy, sim_act};
ghost use Rattle.gatt_commands.specs.Lines.{IsOfPhone};
ghost use Rattle.scripts.specs.declared.script.TheConstants.{MAX_PHONES};

use crate::notes::Notes;
use crate::refused::Refused;
use crate::stage::Stage;
use arrayvec::ArrayVec;
use att_table::Table;
use gatt_host::{App, Host};
use scripts::{Act, ScriptedAct};
use sim_controller::{PhoneAct, Sim, SimFault};

/// The connection handle of the first client; those of the others follow it.
pub(crate) const FIRST_HANDLE: u16 = 0x40;

/// Does what a line says, and records the host's notices, unless it is refused.
///
/// A replacement exchanges the table and `stage.next`.
pub(crate) fn do_act(stage: &mut Stage, act: &Act<'_>, notes: &mut Notes) -> Option<Refused>
    requires drained { all_out stage.old.host ≡ true }
    requires phone { IsOfPhoneBelow MAX_PHONES act.now }
    ensures does { DoesLine act.now result stage.old stage.new }
    ensures noted { NotesAct act.now stage.old.next result stage.new.host notes.old notes.new }
    ensures named { (count : ℕ) → IsOfPhoneBelow count act.now
        → IfSome result (IsOfPhone count) }
    ensures sim { IsSome result → stage.new.sim ≡ stage.old.sim }
    ensures next { IsSome result → stage.new.next ≡ stage.old.next }
{
    match act {
        Act::Phone { phone, act } => phone_act(&mut stage.sim, *phone, act),
        Act::Authorize { phone, until } => {
            let handle = FIRST_HANDLE + u16::from(*phone);
            call(&mut stage.host, App::Authorize(handle, *until), notes)
        }
        Act::Update { handle, value } => {
            let mut octets = ArrayVec::new();
            value.decode(&mut octets);
            call(
                &mut stage.host,
                App::Update(*handle, octets.as_slice()),
                notes,
            )
        }
        Act::Tick { time } => call(&mut stage.host, App::Tick(*time), notes),
        Act::Replace => replace(&mut stage.host, &mut stage.next, notes),
    }
}

fn call(host: &mut Host, call: App<'_>, notes: &mut Notes) -> Option<Refused>
    requires { all_out host.old ≡ true }
    ensures calls { Calls (call_of call.entry) result host.old host.new }
    ensures noted { NotesUnless result host.new notes.old notes.new }
    ensures named { (count : ℕ) → IfSome result (IsOfPhone count) }
{
    match host.app(call) {
        Ok(()) => {
            notes.hear(host);
            None
        }
        Err(fault) => Some(Refused::Call(fault.number())),
    }
}

fn replace(host: &mut Host, next: &mut Option<Table>, notes: &mut Notes) -> Option<Refused>
    requires { all_out host.old ≡ true }
    ensures replaces { ReplacesBy next.old result host.old host.new next.new }
    ensures noted { NotesReplacing next.old result host.new notes.old notes.new }
    ensures named { (count : ℕ) → IfSome result (IsOfPhone count) }
    ensures next { IsSome result → next.new ≡ next.old }
{
    let table = next.take()?;
    match host.replace(table) {
        Ok(old) => {
            *next = Some(old);
            notes.hear(host);
            None
        }
        Err((fault, table)) => {
            *next = Some(table);
            Some(Refused::Call(fault.number()))
        }
    }
}

fn phone_act(sim: &mut Sim, phone: u8, act: &ScriptedAct<'_>) -> Option<Refused>
    requires { phone < MAX_PHONES }
    ensures acts { PhoneActs (sim_act phone act.now) result sim.old sim.new }
    ensures named { (count : ℕ) → phone < count → IfSome result (IsOfPhone count) }
    ensures unchanged { IsSome result → sim.new ≡ sim.old }
{
    match do_phone_act(sim, phone, act) {
        Ok(()) => None,
        Err(fault) => Some(Refused::Act {
            phone,
            number: fault.number(),
        }),
    }
}

fn do_phone_act(sim: &mut Sim, phone: u8, act: &ScriptedAct<'_>) -> Result<(), SimFault>
    requires { phone < MAX_PHONES }
    ensures { DoesAct (sim_act phone act.now) sim.old sim.new result }
{
    match act {
        ScriptedAct::Connect { peer } => sim.act(PhoneAct::Connect { phone, peer: *peer }),
        ScriptedAct::Drop => sim.act(PhoneAct::Drop { phone }),
        ScriptedAct::Encrypt {
            random_number,
            diversifier,
        } => sim.act(PhoneAct::Encrypt {
            phone,
            rand: *random_number,
            ediv: *diversifier,
        }),
        ScriptedAct::Clear => sim.act(PhoneAct::Clear { phone }),
        ScriptedAct::Send { channel, payload } => {
            let mut octets = ArrayVec::new();
            payload.decode(&mut octets);
            sim.act(PhoneAct::Send {
                phone,
                cid: *channel,
                payload: octets.as_slice(),
            })
        }
        ScriptedAct::Hold => sim.act(PhoneAct::Hold { phone }),
        ScriptedAct::Done { packets } => sim.act(PhoneAct::Done {
            phone,
            packets: *packets,
        }),
    }
}
