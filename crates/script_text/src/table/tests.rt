//! Tests of what is found in the table.
use super::*;

#[test]
fn each_spelling_is_found(rt: HostRuntime) {
    for (spelling, word, ..) in table() {
        let found = entry_of(table(), spelling.as_bytes(), None);
        assert_eq!(rt; found.map(|entry| entry.1), Some(*word), "at {spelling}");
    }
}

#[test]
fn other_words_are_not_found(rt: HostRuntime) {
    let words = [
        // Just before and just behind the first spelling and the last one.
        "adj_prec",
        "adj_pree",
        "targes",
        "targeu",
        // Parts of spellings, and spellings with more behind them.
        "",
        "_",
        "adj_pre",
        "nod",
        "targe",
        "adj_pred_",
        "node_",
        "targets",
    ];
    for word in words {
        let found = entry_of(table(), word.as_bytes(), None);
        assert!(rt; found.is_none(), "at {word}");
    }
}
