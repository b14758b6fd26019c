//! Bytes, as a table writes them.

use crate::members::{list_of, number_of, pair_of, refuse_others, text_of};
use anyhow::{Result, bail};
use cu_store::Key;
use serde_json::Value;
use std::alloc::Global;

/// The texts that a table names.
#[derive(Clone, Copy)]
pub struct NamedTexts<'a> {
    /// What takes the memory.
    pub alloc: Global,
    /// The texts by their names.
    pub named: &'a Value,
}

impl NamedTexts<'_> {
    /// The bytes that a value stands for: a text for its own bytes, `{"named":N}` for those of the table's text N,
    /// `{"hex":H}` for those of hexadecimal digits with or without spaces, `{"repeat":[V,N]}` for N times those of V,
    /// `{"join":[V,..]}` for those of each V, and any other JSON value for its compact text, its members in byte order.
    pub fn bytes(&self, value: &Value) -> Result<Vec<u8>> {
        let Some(parts) = value.get("join") else {
            return self.part(value);
        };
        refuse_others(value, &["join"])?;
        let mut bytes = Vec::new(self.alloc);
        for part in list_of(parts)? {
            bytes.extend_from_slice(&self.part(part)?)?;
        }
        Ok(bytes)
    }

    /// The bytes of a value that joins nothing.
    fn part(&self, value: &Value) -> Result<Vec<u8>> {
        let Some(repeated) = value.get("repeat") else {
            return self.unit(value);
        };
        refuse_others(value, &["repeat"])?;
        let (unit, times) = pair_of(repeated)?;
        let unit = self.unit(unit)?;
        let mut bytes = Vec::new(self.alloc);
        for _ in 0..number_of(times)? {
            bytes.extend_from_slice(&unit)?;
        }
        Ok(bytes)
    }

    /// The bytes of a value that neither joins nor repeats.
    fn unit(&self, value: &Value) -> Result<Vec<u8>> {
        let Some(name) = value.get("named") else {
            return plain(self.alloc, value);
        };
        refuse_others(value, &["named"])?;
        match self.named.get(text_of(name)?) {
            Some(text) => plain(self.alloc, text),
            None => bail!("no text of this name"),
        }
    }
}

/// The bytes of a value that names nothing.
fn plain(alloc: Global, value: &Value) -> Result<Vec<u8>> {
    if let Some(text) = value.as_str() {
        return Ok(text.as_bytes().to_vec(alloc)?);
    }
    match value.get("hex") {
        None => Ok(value.to_vec(alloc)?),
        Some(digits) => {
            refuse_others(value, &["hex"])?;
            from_hex(alloc, text_of(digits)?)
        }
    }
}

/// The bytes of pairs of hexadecimal digits, between which there may be spaces.
fn from_hex(alloc: Global, text: &str) -> Result<Vec<u8>> {
    let mut bytes = Vec::new(alloc);
    let mut high = None;
    for letter in text.bytes() {
        if letter == b' ' {
            continue;
        }
        let Some(digit) = digit_of(letter) else {
            bail!("{text} isn't hexadecimal");
        };
        match high {
            None => high = Some(digit),
            Some(first) => {
                bytes.push((first & 15) << 4 | digit)?;
                high = None;
            }
        }
    }
    if high.is_some() {
        bail!("{text} has an odd count of digits");
    }
    Ok(bytes)
}

/// The value of a hexadecimal digit.
fn digit_of(letter: u8) -> Option<u8> {
    match letter {
        b'0'..=b'9' => Some(letter - b'0'),
        b'a'..=b'f' => Some(letter - b'a' + 10),
        _ => None,
    }
}

/// The key of a text.
pub fn key_of(text: &str) -> Result<Key> {
    match Key::make(text) {
        Some(key) => Ok(key),
        None => bail!("{text} is longer than 96 bytes"),
    }
}
