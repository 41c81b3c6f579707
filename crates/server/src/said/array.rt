//! Arrays of texts, as PostgreSQL writes them.

ghost use Rattle.std.specs.Prelude.{◌≡◌, ◌++◌, codes, IfOk, OnOk};
ghost use Rattle.std.specs.List.{flat_map, list_any};
ghost use Rattle.replcmd.specs.Words.{is_keyword};
ghost use Rattle.server.specs.Arrays.{array_text, element, escaped_byte, further_element, is_escaped, is_of_arrays, is_space, needs_quotes};

use pqformat::Text;
use std::alloc::{AllocError, Global};

/// The array of these texts (PostgreSQL 15, 8.15.6).
#[tactic(auto, unfolding(crate::specs::Arrays::array_text))]
pub(crate) fn array_text(alloc: Global, texts: &[Text]) -> Result<Vec<u8>, AllocError>
    ensures { IfOk result (λ array. array.items ≡ array_text texts.now) }
{
    let mut array = Vec::new(alloc);
    array.push(b'{')?;
    if let Some((first, others)) = texts.split_first() {
        push_element(&mut array, first.as_str())?;
        push_others(&mut array, others)?;
    }
    array.push(b'}')?;
    Ok(array)
}

/// The elements after the first.
fn push_others(array: &mut Vec<u8>, texts: &[Text]) -> Result<(), AllocError>
    ensures { OnOk result
        (array.new.items ≡ array.old.items ++ flat_map further_element texts.now) }
{
    for text in texts {
        array.push(b',')?;
        push_element(array, text.as_str())?;
    }
    Ok(())
}

fn push_element(array: &mut Vec<u8>, text: &str) -> Result<(), AllocError>
    ensures { OnOk result (array.new.items ≡ array.old.items ++ element text.now) }
{
    if needs_quotes(text) {
        array.push(b'"')?;
        push_escaped(array, text.as_bytes())?;
        array.push(b'"')?;
        Ok(())
    } else {
        array.extend_from_slice(text.as_bytes())
    }
}

fn push_escaped(array: &mut Vec<u8>, text: &[u8]) -> Result<(), AllocError>
    ensures { OnOk result (array.new.items ≡ array.old.items ++ flat_map escaped_byte text.now) }
{
    for byte in text {
        push_byte(array, *byte)?;
    }
    Ok(())
}

fn push_byte(array: &mut Vec<u8>, byte: u8) -> Result<(), AllocError>
    ensures { OnOk result (array.new.items ≡ array.old.items ++ escaped_byte byte) }
{
    if is_escaped(byte) {
        array.push(b'\\')?;
    }
    array.push(byte)?;
    Ok(())
}

/// Whether it can't stand as it is.
fn needs_quotes(text: &str) -> bool
    ensures { result ≡ needs_quotes text.now }
{
    text.is_empty() || has_bytes_of_arrays(text.as_bytes()) || is_null(text)
}

fn has_bytes_of_arrays(text: &[u8]) -> bool
    ensures { result ≡ list_any is_of_arrays text.now }
{
    text.iter().any(|byte| is_of_arrays(*byte))
}

/// Whether it would be read as a null.
#[tactic(auto, using(replcmd::proofs::Keywords::keyword_tested))]
fn is_null(text: &str) -> bool
    ensures { result ≡ is_keyword (codes "NULL") text.now }
{
    text.eq_ignore_ascii_case("NULL")
}

fn is_of_arrays(byte: u8) -> bool
    ensures { result ≡ is_of_arrays byte }
{
    is_escaped(byte) || byte == b'{' || byte == b'}' || byte == b',' || is_space(byte)
}

fn is_escaped(byte: u8) -> bool
    ensures { result ≡ is_escaped byte }
{
    byte == b'"' || byte == b'\\'
}

fn is_space(byte: u8) -> bool
    ensures { result ≡ is_space byte }
{
    matches!(byte, b' ' | 9 | 10 | 11 | 12 | 13)
}
