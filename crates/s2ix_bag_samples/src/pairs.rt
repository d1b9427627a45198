use s2id_samples::cell_of;
use s2ix_bag::{Entry, Held, Label, Pair};

/// The label with this number.
pub fn label_of(number: &str) -> Option<Label> {
    Label::new(number.parse().ok()?)
}

/// The pair that a text TOKEN:LABEL is.
pub fn pair_of(text: &str) -> Option<Pair> {
    let (token, label) = text.split_once(':')?;
    Some(Pair {
        cell: cell_of(token)?,
        label: label_of(label)?,
    })
}

/// The pair and its count that a text TOKEN:LABEL:COUNT is.
pub fn held_of(text: &str) -> Option<Held> {
    let (pair, count) = text.rsplit_once(':')?;
    Some(Held {
        pair: pair_of(pair)?,
        count: count.parse().ok()?,
    })
}

// The entry of a change that a text TOKEN:LABEL:BEFORE:AFTER is.
pub(crate) fn entry_of(text: &str) -> Option<Entry> {
    let (before, after) = text.rsplit_once(':')?;
    let Held { pair, count } = held_of(before)?;
    Some(Entry {
        pair,
        before: count,
        after: after.parse().ok()?,
    })
}
