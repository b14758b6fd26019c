//! Members of the objects of a table.

use anyhow::{Result, bail};
use serde_json::Value;

/// What a table says of a case. The first of these objects that has a member counts: a row or a step of the case, the case,
/// and what all cases of the table share. `null` stands for no member.
#[derive(Clone, Copy)]
pub struct Said<'a> {
    /// The row or step.
    pub row: &'a Value,
    /// The case.
    pub case: &'a Value,
    /// What all cases share.
    pub shared: &'a Value,
}

impl<'a> Said<'a> {
    /// The member of this name.
    pub fn member(&self, name: &str) -> Option<&'a Value> {
        for object in [self.row, self.case, self.shared] {
            if let Some(value) = object.get(name) {
                return if value.is_null() { None } else { Some(value) };
            }
        }
        None
    }

    /// The text of this name; an empty one where there is none.
    pub fn text(&self, name: &str) -> Result<&'a str> {
        match self.member(name) {
            None => Ok(""),
            Some(value) => text_of(value),
        }
    }

    /// The number of this name.
    pub fn number(&self, name: &str) -> Result<Option<u64>> {
        match self.member(name) {
            None => Ok(None),
            Some(value) => Ok(Some(number_of(value)?)),
        }
    }

    /// Whether the member of this name is there and `true`.
    pub fn is_set(&self, name: &str) -> Result<bool> {
        match self.member(name) {
            None => Ok(false),
            Some(value) => match value.as_bool() {
                Some(set) => Ok(set),
                None => bail!("{name} is neither true nor false"),
            },
        }
    }

    /// The list of this name; an empty one where there is none.
    pub fn list(&self, name: &str) -> Result<&'a [Value]> {
        match self.member(name) {
            None => Ok(&[]),
            Some(value) => list_of(value),
        }
    }
}

/// A text.
pub fn text_of(value: &Value) -> Result<&str> {
    match value.as_str() {
        Some(text) => Ok(text),
        None => bail!("a text is wanted"),
    }
}

/// A natural number.
pub fn number_of(value: &Value) -> Result<u64> {
    match value.as_u64() {
        Some(number) => Ok(number),
        None => bail!("a number is wanted"),
    }
}

/// The items of a list.
pub fn list_of(value: &Value) -> Result<&[Value]> {
    match value.as_array() {
        Some(items) => Ok(items.as_slice()),
        None => bail!("a list is wanted"),
    }
}

/// The two items of a list.
pub fn pair_of(value: &Value) -> Result<(&Value, &Value)> {
    match list_of(value)? {
        [first, second] => Ok((first, second)),
        _ => bail!("a list of two is wanted"),
    }
}

/// Refuses an object with a member that is none of these, so that no misspelled one is passed over.
pub fn refuse_others(value: &Value, names: &[&str]) -> Result<()> {
    let Some(members) = value.as_object() else {
        bail!("an object is wanted");
    };
    for (name, _value) in members.iter() {
        if !is_among(name.as_str(), names) {
            bail!("{name} is no member here");
        }
    }
    Ok(())
}

fn is_among(name: &str, names: &[&str]) -> bool {
    for known in names {
        if *known == name {
            return true;
        }
    }
    false
}
