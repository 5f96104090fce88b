//! A store that writes subscriptions as a file.

ghost use Rattle.std.specs.Prelude.{◌≡◌, None, IfErr, OnErr, OnOk};
ghost use Rattle.std.specs.Result.{is_ok};
ghost use Rattle.std.specs.Io.KnownBytes.{Appends};
ghost use Rattle.octet_io.specs.Stream.{WritesFront};
ghost use Rattle.gatt_subs.specs.RowsText.{rows_text};
ghost use Rattle.shell_files.specs.Saving.{Saves};

use crate::fault::ShellFault;
use crate::rows_store::RowsStore;
use gatt_subs::Rows;
use octet_io::{Failed, Sink, write_uninterrupted};
use std::io::Write;

/// A store that writes the text of a subscriptions file to a writer and flushes it.
#[derive(Drop)]
pub struct RowsOut<W> {
    writer: W,
}

impl<W> RowsOut<W> {
    ghost use Rattle.shell_files.specs.RowsOut.{rows_writer};

    /// Returns a store for this writer.
    pub fn new(writer: W) -> Self
        ensures { rows_writer result ≡ writer }
    {
        RowsOut { writer }
    }
}

impl<W: Write> Sink for RowsOut<W> {
    ghost contents = { λ out. W.contents out.writer };

    ghost failures = { λ _. None };

    fn write(&mut self, buf: &[u8]) -> Result<usize, Failed> {
        write_uninterrupted(&mut self.writer, buf)
    }
}

impl<W: Write> RowsStore for RowsOut<W> {
    ghost use Rattle.shell_files.specs.RowsOut.{rows_writer};

    #[tactic(auto, using(crate::proofs::RowsWritten::flushed, crate::proofs::RowsWritten::flush_failed))]
    fn save(&mut self, rows: &Rows) -> Result<(), ShellFault>
        ensures saves { Saves (rows_text rows.now) (is_ok result) None None }
        ensures faults { IfErr result (λ fault. fault ≡ ShellFault.Unwritten) }
        // The text is appended, or a prefix if the writer fails.
        ensures ok { OnOk result (Appends (W.contents (rows_writer self.old))
            (W.contents (rows_writer self.new)) (rows_text rows.now)) }
        ensures front { OnErr result (WritesFront (rows_text rows.now)
            (W.contents (rows_writer self.old)) (W.contents (rows_writer self.new))) }
    {
        if rows.text(self).is_err() || self.writer.flush().is_err() {
            return Err(ShellFault::Unwritten);
        }
        Ok(())
    }
}
