//! The parts of a printed line: bytes, words, numbers and hexadecimal content, each put at a text's end.
#![tactic(auto)]

ghost use Rattle.std.specs.Prelude.{◌≡◌, ◌++◌, ◌<◌, ◌^◌, IfOk, decimal};
ghost use Rattle.text_words.specs.Words.{word, number};
ghost use Rattle.hex.specs.Hex.{encode_lower};

use itoa::Buffer;
use no_memory::NoMemory;
use std::alloc::Global;

/// Puts these bytes at the end.
pub fn append(text: &mut Vec<u8>, bytes: &[u8]) -> Result<(), NoMemory>
    ensures { IfOk result (λ _. text.new.items ≡ text.old.items ++ bytes.now) }
{
    text.extend_from_slice(bytes)?;
    Ok(())
}

/// Puts a space and these bytes at the end.
pub fn append_word(text: &mut Vec<u8>, bytes: &[u8]) -> Result<(), NoMemory>
    ensures { IfOk result (λ _. text.new.items ≡ text.old.items ++ word bytes.now) }
{
    text.push(b' ')?;
    text.extend_from_slice(bytes)?;
    Ok(())
}

/// Puts a number at the end, in decimal.
pub fn append_decimal(text: &mut Vec<u8>, n: u64) -> Result<(), NoMemory>
    ensures { IfOk result (λ _. text.new.items ≡ text.old.items ++ decimal n) }
{
    let mut buffer = Buffer::new();
    text.extend_from_slice(buffer.format(n).as_bytes())?;
    Ok(())
}

/// Puts a space and a number at the end, in decimal.
pub fn append_number(text: &mut Vec<u8>, n: u64) -> Result<(), NoMemory>
    ensures { IfOk result (λ _. text.new.items ≡ text.old.items ++ number n) }
{
    text.push(b' ')?;
    append_decimal(text, n)
}

/// Puts the bytes at the end as pairs of lower-case hexadecimal digits.
pub fn append_hex(alloc: Global, text: &mut Vec<u8>, bytes: &[u8]) -> Result<(), NoMemory>
    ensures { IfOk result (λ _. text.new.items ≡ text.old.items ++ encode_lower bytes.now) }
{
    let start = text.len();
    let Some(end) = bytes
        .len()
        .checked_mul(2)
        .and_then(|count| start.checked_add(count))
    else {
        return Err(NoMemory);
    };
    text.resize(end, 0)?;
    match hex::encode_to_slice(bytes, &mut text[start..]) {
        Ok(()) => Ok(()),
        Err(_) => Err(NoMemory),
    }
}
