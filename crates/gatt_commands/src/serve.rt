//! The command `serve`.

ghost use Rattle.std.specs.Prelude.{◌≡◌, ◌≢◌, ℕ, None, Err, IfErr, IfOk, IfSome};
ghost use Rattle.gatt_subs.specs.RowsText.{rows_text};
ghost use Rattle.shell_files.specs.KeyFile.{keys_out_of_memory, keys_in, KeysAreRefusedAs};
ghost use Rattle.gatt_commands.specs.Opening.{IsOpenedWithFiles};
ghost use Rattle.shell_files.specs.RowsFile.{rows_out_of_memory, rows_in, RowsAreRefusedAs};
ghost use Rattle.gatt_commands.specs.Serving.{fault_told_of, IsOpeningFault, IsOutcomeOf, IsServeFault, IsServedFault, SavesBy, ServesStream};
ghost use Rattle.shell_files.specs.TableFile.{table_out_of_memory, table_in, TableIsRefusedAs};

use crate::mtu::RxMtu;
use crate::opening::open_host;
use gatt_host::{Host, serve};
use octet_io::{Reader, Sink, Source, Writer};
use shell_files::{
    KeysPath, LazyFile, RowsOut, RowsPath, RowsReader, RowsStore, RowsWriter, ShellFault,
    TablePath, read_keys, read_rows, read_table, save_after,
};
use std::alloc::Global;
use std::fs::Files;
use std::io::Read;
use std::net::{Net, SocketAddr, TcpListener, TcpStream};

/// The largest number of reads of a connection, including the one at its end.
pub const TURNS: u64 = 1_000_000_000;

/// Serves the controller of the first connection, then saves the subscriptions.
pub fn serve_on<V: RowsStore>(
    listener: &TcpListener,
    host: &mut Host,
    store: &mut V,
) -> Result<(), ShellFault>
    // Without a connection nothing is served or saved.
    ensures listen { result ≡ Err ShellFault.Listen → host.new ≡ host.old }
    ensures unsaved { result ≡ Err ShellFault.Listen → store.new ≡ store.old }
    // Some octets of one connection are served. How many it has is up to its socket.
    ensures served { result ≢ Err ShellFault.Listen → host.old.fault ≡ None
        → ServesStream host.old host.new None None None None }
    // The number of a host fault is reported; without one only saving may fail.
    ensures outcome { result ≢ Err ShellFault.Listen → IsOutcomeOf host.new.fault result }
    // The store was asked to save the subscriptions at the end.
    ensures saved { result ≢ Err ShellFault.Listen
        → SavesBy result (rows_text host.new.server.rows) (V.saves store.old)
        (V.saves store.new) }
    ensures faults { IfErr result IsServedFault }
{
    let Ok((stream, _)) = listener.accept() else {
        return Err(ShellFault::Listen);
    };
    // If this fails, packets are sent with delay.
    let _ = stream.set_nodelay(true);
    let served = serve_stream(host, &mut Reader::new(&stream), &mut Writer::new(&stream));
    save_after(served, host.rows(), store)
}

fn serve_stream<R: Source, W: Sink>(
    host: &mut Host,
    reader: &mut R,
    writer: &mut W,
) -> Result<(), ShellFault>
    ensures serves { host.old.fault ≡ None
        → ServesStream host.old host.new (R.remaining reader.old) (R.remaining reader.new)
        (W.contents writer.old) (W.contents writer.new) }
    ensures told { result ≡ fault_told_of host.new.fault }
    ensures faults { IfErr result (λ fault. IsServedFault fault × (fault ≢ ShellFault.Listen)) }
{
    match serve(host, reader, writer, TURNS) {
        Ok(_) => Ok(()),
        Err(fault) => Err(ShellFault::Host(fault.number())),
    }
}

/// The address at which `serve` listens, as a text.
#[derive(Clone, Copy)]
pub struct Address<'a>(pub &'a str);

fn listen<N: Net>(net: &N, address: Address<'_>) -> Result<N::Listener, ShellFault>
    ensures { IfErr result (λ fault. fault ≡ ShellFault.Listen) }
{
    let Ok(address) = address.0.parse::<SocketAddr>() else {
        return Err(ShellFault::Listen);
    };
    match TcpListener::bind(net, address) {
        Ok(listener) => Ok(listener),
        Err(_) => Err(ShellFault::Listen),
    }
}

/// The paths of the files that are served.
#[derive(Clone, Copy)]
pub struct ServePaths<'a> {
    pub table: TablePath<'a>,
    pub keys: KeysPath<'a>,
    pub rows: RowsPath<'a>,
}

/// Opens a host with these files, and serves the first connection to an address.
///
/// Opens each file only before its check.
pub fn serve_paths<F: Files + Net<Listener = TcpListener, Stream = TcpStream>>(
    alloc: Global,
    system: &F,
    paths: ServePaths<'_>,
    address: Address<'_>,
) -> Result<(), ShellFault>
    ensures { IfErr result IsServeFault }
{
    let mut host = open_paths(alloc, system, paths)?;
    let served = serve_at(system, &mut host, paths.rows, address);
    drop(host);
    served
}

fn serve_at<F: Files + Net<Listener = TcpListener, Stream = TcpStream>>(
    system: &F,
    host: &mut Host,
    rows: RowsPath<'_>,
    address: Address<'_>,
) -> Result<(), ShellFault>
    ensures { IfErr result IsServedFault }
{
    let listener = listen(system, address)?;
    serve_on(
        &listener,
        host,
        &mut RowsOut::new(RowsWriter::new(system, rows)),
    )
}

fn open_paths<F: Files>(alloc: Global, files: &F, paths: ServePaths<'_>) -> Result<Host, ShellFault>
    ensures opened { IfOk result (IsOpenedWithFiles None None None) }
    ensures faults { IfErr result IsOpeningFault }
{
    open_files(
        alloc,
        &mut LazyFile::new(files, paths.table.0),
        &mut LazyFile::new(files, paths.keys.0),
        &mut RowsReader::new(files, paths.rows),
    )
}

/// Opens a host with files, each read only if those before it are accepted.
fn open_files<T: Read, K: Read, R: Read>(
    alloc: Global,
    table: &mut T,
    keys: &mut K,
    rows: &mut R,
) -> Result<Host, ShellFault>
    ensures opened { IfOk result
        (IsOpenedWithFiles (T.remaining table.old) (K.remaining keys.old) (R.remaining rows.old)) }
    // A file is refused by the number of its first fault, or by that of refused memory.
    ensures table { (number : ℕ) → result ≡ Err (ShellFault.Table number)
        → number ≢ table_out_of_memory
        → IfSome (T.remaining table.old) (λ octets. TableIsRefusedAs number (table_in octets)) }
    ensures keys { (number : ℕ) → result ≡ Err (ShellFault.Keys number)
        → number ≢ keys_out_of_memory
        → IfSome (K.remaining keys.old) (λ octets. KeysAreRefusedAs number (keys_in octets)) }
    ensures rows { (number : ℕ) → result ≡ Err (ShellFault.Rows number)
        → number ≢ rows_out_of_memory
        → IfSome (R.remaining rows.old) (λ octets. RowsAreRefusedAs number (rows_in octets)) }
    ensures faults { IfErr result IsOpeningFault }
{
    let table = read_table(alloc, table)?;
    let keys = read_keys(alloc, keys)?;
    let rows = read_rows(alloc, rows)?;
    open_host(alloc, table, keys, rows, RxMtu::usual())
}
