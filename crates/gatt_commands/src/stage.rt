//! A host over a simulated controller.

ghost use Rattle.std.specs.Prelude.{◌≡◌, IfErr, IfOk};
ghost use Rattle.sim_controller.specs.Simulated.{simulated_at_start};
ghost use Rattle.gatt_commands.specs.Runs.{IsStageOpened, simulated};

use crate::mtu::RxMtu;
use crate::opening::open_host;
use att_table::Table;
use gatt_host::Host;
use gatt_subs::Rows;
use le_acl::MIN_ACL_LEN;
use le_security::Keys;
use shell_files::ShellFault;
use sim_controller::{Sim, SimConfig};
use std::alloc::Global;

/// The ACL packets that the simulated controller buffers (this profile's own).
const SIMULATED_PACKETS: u8 = 8;

/// The configuration that the simulated controller reports, and its fragmentation.
const SIMULATED: SimConfig = SimConfig {
    acl_len: MIN_ACL_LEN,
    packets: SIMULATED_PACKETS,
    shared: false,
    cut: MIN_ACL_LEN,
};

/// The state between two lines of a script.
#[derive(Drop)]
pub(crate) struct Stage {
    pub(crate) host: Host,
    pub(crate) sim: Sim,
    /// The table of the next replacement.
    pub(crate) next: Option<Table>,
}

/// Opens a host with these files over a new simulated controller.
pub(crate) fn open_stage(
    alloc: Global,
    table: Table,
    next: Option<Table>,
    keys: Keys,
    rows: Rows,
    rx_mtu: RxMtu,
) -> Result<Stage, ShellFault>
    ensures opened { IfOk result (IsStageOpened table next keys rows rx_mtu) }
    ensures faults { IfErr result (λ fault. fault ≡ ShellFault.Memory) }
{
    let sim = open_sim(alloc)?;
    let host = open_host(alloc, table, keys, rows, rx_mtu)?;
    Ok(Stage { host, sim, next })
}

fn open_sim(alloc: Global) -> Result<Sim, ShellFault>
    ensures start { IfOk result (λ sim. sim ≡ simulated_at_start simulated) }
    ensures faults { IfErr result (λ fault. fault ≡ ShellFault.Memory) }
{
    Sim::new(alloc, SIMULATED).map_err(|_| ShellFault::Memory)
}
