ghost use Rattle.std.specs.Prelude.{◌≡◌, ◌++◌, IfOk};
ghost use Rattle.file_tree.specs.PathText.{is_escaped, byte_text, name_text, names_text, path_text};

use crate::{Name, NoMemory, Path};
use text_words::append;

/// Whether a byte of a name is written as `%` and two digits.
pub(crate) fn is_escaped_byte(byte: u8) -> bool
    ensures { result ≡ is_escaped byte }
{
    byte < 33 || byte > 126 || byte == b'%'
}

fn append_byte(text: &mut Vec<u8>, byte: u8) -> Result<(), NoMemory>
    ensures { IfOk result (λ _. text.new.items ≡ text.old.items ++ byte_text byte) }
{
    if is_escaped_byte(byte) {
        let mut digits = [0; 2];
        let _ = hex::encode_to_slice(&[byte], &mut digits);
        text.push(b'%')?;
        append(text, &digits)
    } else {
        text.push(byte)?;
        Ok(())
    }
}

/// Puts a name at the end of a text, as it is written in paths and lists.
pub fn append_name(text: &mut Vec<u8>, name: &Name) -> Result<(), NoMemory>
    ensures { IfOk result (λ _. text.new.items ≡ text.old.items ++ name_text name.now) }
{
    for byte in name.bytes() {
        append_byte(text, *byte)?;
    }
    Ok(())
}

fn append_names(text: &mut Vec<u8>, names: &[Name]) -> Result<(), NoMemory>
    ensures { IfOk result (λ _. text.new.items ≡ text.old.items ++ names_text names.now) }
{
    for name in names {
        text.push(b'/')?;
        append_name(text, name)?;
    }
    Ok(())
}

/// Puts a path at the end of a text: `/`, or each name after a `/`.
pub fn append_path(text: &mut Vec<u8>, path: &Path) -> Result<(), NoMemory>
    ensures { IfOk result (λ _. text.new.items ≡ text.old.items ++ path_text path.now) }
{
    if path.names().is_empty() {
        append(text, b"/")
    } else {
        append_names(text, path.names())
    }
}
