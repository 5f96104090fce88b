//! A cell of the matrix: the rights of a link by letters.

ghost use Rattle.std.specs.Prelude.{◌≡◌, ◌++◌, ◌&&◌, IfOk, OnOk, false, not, true};
ghost use Rattle.policy_rights.specs.Held.{may_with};
ghost use Rattle.policy_words.specs.Cell.{always_of, cell_text, cell_with, in_parentheses, is_once, letter_if, letters_of, once_of, or_dot};

use att_policy::KeyFacts;
use att_table::Table;
use policy_rights::{Right, may_with};
use std::alloc::{AllocError, Global};
use text_words::add_octets;

/// A link, and an attribute that it may use.
#[derive(Clone, Copy)]
pub(crate) struct Asked {
    pub key: Option<KeyFacts>,
    pub handle: u16,
}

/// The rights to an attribute that a cell shows.
#[derive(Clone, Copy)]
pub struct Rights {
    pub read: bool,
    pub write: bool,
    pub command: bool,
    pub notify: bool,
    pub indicate: bool,
    pub subscribe: bool,
}

/// Returns the cell of an attribute and a key.
pub(crate) fn cell(alloc: Global, table: &Table, asked: Asked) -> Result<Vec<u8>, AllocError>
    ensures { IfOk result
        (λ cell. cell.items ≡ cell_text table.now.attributes asked.handle asked.key) }
{
    cell_of(alloc, always(table, asked), once(table, asked))
}

/// Returns a cell with rights that need no authorization, and others that do.
///
/// On `Err` memory was refused.
pub fn cell_of(alloc: Global, always: Rights, once: Rights) -> Result<Vec<u8>, AllocError>
    ensures { IfOk result (λ cell. cell.items ≡ cell_with always once) }
{
    let mut letters = Vec::new(alloc);
    add_letters(&mut letters, always)?;
    let mut in_parentheses = Vec::new(alloc);
    add_letters(&mut in_parentheses, once)?;
    add_in_parentheses(&mut letters, &in_parentheses)?;
    let mut cell = Vec::new(alloc);
    add_or_dot(&mut cell, &letters)?;
    Ok(cell)
}

#[tactic(auto, unfolding(crate::specs::Cell::letters_of))]
fn add_letters(text: &mut Vec<u8>, rights: Rights) -> Result<(), AllocError>
    ensures ok { OnOk result (text.new.items ≡ text.old.items ++ letters_of rights) }
{
    add_if(text, rights.read, b'r')?;
    add_if(text, rights.write, b'w')?;
    add_if(text, rights.command, b'c')?;
    add_if(text, rights.notify, b'n')?;
    add_if(text, rights.indicate, b'i')?;
    add_if(text, rights.subscribe, b's')
}

fn always(table: &Table, asked: Asked) -> Rights
    ensures { result ≡ always_of table.now.attributes asked.handle asked.key }
{
    Rights {
        read: is_always(table, asked, Right::Read),
        write: is_always(table, asked, Right::Write),
        command: is_always(table, asked, Right::Command),
        notify: is_always(table, asked, Right::Notify),
        indicate: is_always(table, asked, Right::Indicate),
        subscribe: is_always(table, asked, Right::Subscribe),
    }
}

fn once(table: &Table, asked: Asked) -> Rights
    ensures { result ≡ once_of table.now.attributes asked.handle asked.key }
{
    Rights {
        read: is_once(table, asked, Right::Read),
        write: is_once(table, asked, Right::Write),
        command: is_once(table, asked, Right::Command),
        notify: is_once(table, asked, Right::Notify),
        indicate: is_once(table, asked, Right::Indicate),
        subscribe: is_once(table, asked, Right::Subscribe),
    }
}

fn is_always(table: &Table, asked: Asked, right: Right) -> bool
    ensures { result ≡ may_with table.now.attributes asked.key false asked.handle right }
{
    may_with(table, asked.key, false, asked.handle, right)
}

fn is_once(table: &Table, asked: Asked, right: Right) -> bool
    ensures { result ≡ is_once table.now.attributes asked.handle asked.key right }
{
    may_with(table, asked.key, true, asked.handle, right) && !is_always(table, asked, right)
}

fn add_if(text: &mut Vec<u8>, holds: bool, letter: u8) -> Result<(), AllocError>
    ensures ok { OnOk result (text.new.items ≡ text.old.items ++ letter_if holds letter) }
{
    if holds {
        add_octets(text, &[letter])
    } else {
        Ok(())
    }
}

fn add_in_parentheses(text: &mut Vec<u8>, letters: &[u8]) -> Result<(), AllocError>
    ensures ok { OnOk result (text.new.items ≡ text.old.items ++ in_parentheses letters.now) }
{
    match letters {
        [] => Ok(()),
        _ => {
            add_octets(text, b"(")?;
            add_octets(text, letters)?;
            add_octets(text, b")")
        }
    }
}

fn add_or_dot(text: &mut Vec<u8>, letters: &[u8]) -> Result<(), AllocError>
    ensures ok { OnOk result (text.new.items ≡ text.old.items ++ or_dot letters.now) }
{
    match letters {
        [] => add_octets(text, b"."),
        _ => add_octets(text, letters),
    }
}
