//! States with table texts that no device has, and the words of faults.

use super::cases::assert_case;
use att_table::Table;
use att_table::examples::DOOR;
use device_state::{Saves, State, StateFault, state_text};
use gatt_subs::{Rows, RowsFault};
use octet_io::ArraySink;
use std::alloc::{AllocError, Global};

/// Table texts, subscriptions, and the state of these without values.
const TEXTS: &[(&str, &str, &str)] = &[
    (
        "",
        "",
        "gihandop state 1\n[table]\n|\n[subscriptions]\n[values]\n[end] 6facb79113a93f908f67140b5351f28ffe1a4c5a5bbc83bd2e1b17ff51809463\n",
    ),
    (
        "[values]\n|x\n[subscriptions]\n\n[end] ä\r",
        "! 1 c0:00:00:00:00:01\n",
        "gihandop state 1\n[table]\n|[values]\n||x\n|[subscriptions]\n|\n|[end] ä\r\n[subscriptions]\n! 1 c0:00:00:00:00:01\n[values]\n[end] 5b4c6fb4b0b1a2aa592f901194968e9c2d7e270c2f8890ad35a59cc56e0003c1\n",
    ),
];

#[test]
fn table_texts(rt: HostRuntime) {
    for &(table_text, rows, text) in TEXTS {
        assert_case(&rt, is_kept(rt.alloc(), table_text, rows, text), text);
    }
}

/// Compares the text of a state without values, and its parts when read back.
fn is_kept(alloc: Global, table_text: &str, rows: &str, text: &str) -> bool {
    match Table::read(alloc, DOOR) {
        Ok(table) => {
            has_text(alloc, table_text, rows, &table, text) && says(alloc, text, table_text, rows)
        }
        Err(_) => false,
    }
}

/// Compares the text of a state whose values are those of the table.
fn has_text(alloc: Global, table_text: &str, rows: &str, table: &Table, text: &str) -> bool {
    match Rows::read(alloc, rows) {
        Ok(rows) => is_same(
            state_text(alloc, table_text, &rows, table, table, Saves::All),
            text,
        ),
        Err(_) => false,
    }
}

fn is_same(written: Result<Vec<u8>, AllocError>, text: &str) -> bool {
    match written {
        Ok(written) => written.as_slice() == text.as_bytes(),
        Err(_) => false,
    }
}

fn says(alloc: Global, text: &str, table_text: &str, rows: &str) -> bool {
    match State::read(alloc, text.as_bytes()) {
        Ok(state) => has_parts(&state, table_text, rows),
        Err(_) => false,
    }
}

fn has_parts(state: &State, table_text: &str, rows: &str) -> bool {
    state.table_text() == table_text && is_text_of(state.rows(), rows) && state.values().is_empty()
}

fn is_text_of(rows: &Rows, text: &str) -> bool {
    let mut sink = ArraySink::<512>::new();
    rows.text(&mut sink).is_ok() && sink.octets() == text.as_bytes()
}

#[test]
fn words_of_too_many_subscriptions(rt: HostRuntime) {
    let fault = StateFault::Subscriptions(4, RowsFault::TooMany);
    let words = "line 4: too many subscriptions follow";
    assert_case(&rt, has_words(rt.alloc(), fault, words), words);
}

fn has_words(alloc: Global, fault: StateFault, words: &str) -> bool {
    match format!(in alloc; "{fault}") {
        Ok(text) => text.as_str() == words,
        Err(_) => false,
    }
}
