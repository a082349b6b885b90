//! What a line holds: a kind, words, and bytes behind a colon.

use std::alloc::{AllocError, Global};
use std::fmt::Write;

/// What a row shows, by its kind and the words behind it.
#[derive(Clone, Copy)]
pub struct Line<'a> {
    pub kind: &'a str,
    pub words: &'a str,
}

/// The kind and the words of a row, and the text behind its colon.
pub fn split_line(row: &str) -> (Line<'_>, &str) {
    let (head, text) = row.split_once(':').unwrap_or((row, ""));
    let (kind, words) = first_word(head);
    (Line { kind, words }, text)
}

/// The first of some words, and the others.
pub fn first_word(words: &str) -> (&str, &str) {
    words.split_once(' ').unwrap_or((words, ""))
}

/// A decimal number, and 0 for what is none.
pub fn number_of(word: &str) -> usize {
    word.parse::<usize>().unwrap_or(0)
}

/// A number of arguments, and 0 for what is none.
pub fn count_of(word: &str) -> u8 {
    word.parse::<u8>().unwrap_or(0)
}

/// Bytes as two hexadecimal digits each or as text in single quotes; `*N` behind either repeats it.
pub fn bytes_of(alloc: Global, text: &str) -> Result<Vec<u8>, AllocError> {
    let mut bytes = Vec::new(alloc);
    let mut quoted: &[u8] = &[];
    let mut is_quoted = false;
    for piece in text.split('\'') {
        if is_quoted {
            quoted = piece.as_bytes();
            bytes.extend_from_slice(quoted)?;
        } else {
            push_words(&mut bytes, quoted, piece)?;
        }
        is_quoted = !is_quoted;
    }
    Ok(bytes)
}

/// The bytes of words of two digits. The word `*N` repeats the text in front of it, which stands once already.
fn push_words(bytes: &mut Vec<u8>, quoted: &[u8], words: &str) -> Result<(), AllocError> {
    for word in words.split_whitespace() {
        let (digits, times) = word.split_once('*').unwrap_or((word, "1"));
        match u8::from_str_radix(digits, 16) {
            Ok(byte) => push_times(bytes, &[byte], 0, number_of(times))?,
            Err(_) => push_times(bytes, quoted, 1, number_of(times))?,
        }
    }
    Ok(())
}

/// Some bytes, once for each number from `first` to `count`.
fn push_times(
    bytes: &mut Vec<u8>,
    unit: &[u8],
    first: usize,
    count: usize,
) -> Result<(), AllocError> {
    for _ in first..count {
        bytes.extend_from_slice(unit)?;
    }
    Ok(())
}

/// Each line of a text, indented.
pub fn push_indented(out: &mut String, text: &[u8]) -> Result<(), AllocError> {
    for line in str::from_utf8(text).unwrap_or("no text").lines() {
        writeln!(out, "  {line}")?;
    }
    Ok(())
}

/// Bytes as two hexadecimal digits each, with a gap before each, to the end of the line.
pub fn push_bytes(out: &mut String, bytes: &[u8], gap: &str) -> Result<(), AllocError> {
    for byte in bytes {
        write!(out, "{gap}{byte:02X}")?;
    }
    out.push_str("\n")
}
