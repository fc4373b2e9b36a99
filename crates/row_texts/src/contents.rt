// Bytes that are written in words.
use crate::images::Image;
use crate::places::number_of;
use anyhow::{Context, Result, bail};
use std::alloc::Global;

fn hex_byte(digits: &str) -> Result<u8> {
    u8::from_str_radix(digits, 16)
        .ok()
        .context(format_args!("no byte: {digits}"))
}

/// Puts a text whose bytes may be written `\xNN`, and the backslash `\\`.
pub(crate) fn put_escaped(out: &mut Vec<u8>, text: &str) -> Result<()> {
    let mut rest = text;
    for _ in 0..=text.len() {
        let Some((before, behind)) = rest.split_once('\\') else {
            break;
        };
        out.extend_from_slice(before.as_bytes())?;
        rest = put_escape(out, behind)?;
    }
    out.extend_from_slice(rest.as_bytes())?;
    Ok(())
}

// Puts the byte of an escape, and answers what stands behind it.
fn put_escape<'a>(out: &mut Vec<u8>, behind: &'a str) -> Result<&'a str> {
    if let Some(rest) = behind.strip_prefix("\\") {
        out.push(b'\\')?;
        return Ok(rest);
    }
    let Some(rest) = behind.strip_prefix("x") else {
        bail!("no escape: {behind}");
    };
    let Some((digits, rest)) = rest.split_at_checked(2) else {
        bail!("no escape: {behind}");
    };
    out.push(hex_byte(digits)?)?;
    Ok(rest)
}

/// Puts the bytes of pairs of digits.
pub fn put_hex(out: &mut Vec<u8>, digits: &str) -> Result<()> {
    let mut rest = digits;
    for _ in 0..digits.len() {
        let Some((byte, behind)) = rest.split_at_checked(2) else {
            break;
        };
        out.push(hex_byte(byte)?)?;
        rest = behind;
    }
    if !rest.is_empty() {
        bail!("an odd digit: {digits}");
    }
    Ok(())
}

// So many bytes, each of them the one before and a step.
fn put_steps(out: &mut Vec<u8>, first: u8, step: u8, count: u64) -> Result<()> {
    let mut byte = first;
    for _ in 0..count {
        out.push(byte)?;
        byte = byte.wrapping_add(step);
    }
    Ok(())
}

/// The bytes that these words are: a text in quotes, `hex:DIGITS`, `fill:BYTE:COUNT`, or `step:BYTE:STEP:COUNT`. None
/// where they are something else.
pub fn content_of(alloc: Global, image: &Image, words: &str) -> Result<Option<Vec<u8>>> {
    let mut out = Vec::new(alloc);
    if let Some(rest) = words.strip_prefix("\"") {
        let text = rest
            .strip_suffix("\"")
            .context("a quote that is not closed")?;
        put_escaped(&mut out, text)?;
    } else if let Some(digits) = words.strip_prefix("hex:") {
        put_hex(&mut out, digits)?;
    } else if let Some(rest) = words.strip_prefix("fill:") {
        let (byte, count) = rest.split_once(':').context("fill:BYTE:COUNT")?;
        put_steps(&mut out, hex_byte(byte)?, 0, number_of(image, count)?)?;
    } else if let Some(rest) = words.strip_prefix("step:") {
        let (byte, rest) = rest.split_once(':').context("step:BYTE:STEP:COUNT")?;
        let (step, count) = rest.split_once(':').context("step:BYTE:STEP:COUNT")?;
        put_steps(
            &mut out,
            hex_byte(byte)?,
            hex_byte(step)?,
            number_of(image, count)?,
        )?;
    } else {
        return Ok(None);
    }
    Ok(Some(out))
}

/// The bytes of a name as it is spelled in a path: `%` and two digits are a byte. The name of no bytes is `""`.
pub(crate) fn name_of(alloc: Global, spelled: &str) -> Result<Vec<u8>> {
    let mut out = Vec::new(alloc);
    let mut rest = if spelled == "\"\"" { "" } else { spelled };
    for _ in 0..=spelled.len() {
        let Some((before, behind)) = rest.split_once('%') else {
            break;
        };
        out.extend_from_slice(before.as_bytes())?;
        let (digits, behind) = behind.split_at_checked(2).context("no digits behind %")?;
        out.push(hex_byte(digits)?)?;
        rest = behind;
    }
    out.extend_from_slice(rest.as_bytes())?;
    Ok(out)
}
