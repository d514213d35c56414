//! A field is read from the front of the bytes, and the rest is handed back.
ghost use Rattle.std.specs.Prelude.{◌≡◌, Ok};
ghost use Rattle.aseba_payload.specs.Reading.{Gives, word_at, text_at, param_at, params_at, list_of_params_at, words_at};

use crate::fault::Fault;
use aseba_tree::Param;
use aseba_words::{List, Name};
use byteorder::{ByteOrder, LittleEndian};
use std::alloc::Global;

pub fn word(bytes: &[u8]) -> Result<(u16, &[u8]), Fault>
    ensures { Gives (λ x. (x.0, x.1.now)) result (word_at bytes.now) }
{
    if bytes.len() < 2 {
        return Err(Fault::Short);
    }
    Ok((LittleEndian::read_u16(bytes), &bytes[2..]))
}

pub fn text(alloc: Global, bytes: &[u8]) -> Result<(Name, &[u8]), Fault>
    ensures { Gives (λ x. (x.0, x.1.now)) result (text_at bytes.now) }
{
    match bytes {
        [] => Err(Fault::Short),
        [len, rest @ ..] => {
            let len = usize::from(*len);
            if rest.len() < len {
                return Err(Fault::Short);
            }
            let (text, rest) = rest.split_at(len);
            Ok((Name::new(alloc, text)?, rest))
        }
    }
}

#[tactic(auto, unfolding(crate::specs::Reading::param_at))]
fn param(alloc: Global, bytes: &[u8]) -> Result<(Param, &[u8]), Fault>
    ensures { Gives (λ x. (x.0, x.1.now)) result (param_at bytes.now) }
{
    if bytes.len() < 2 {
        return Err(Fault::Short);
    }
    let size = LittleEndian::read_i16(bytes);
    let (name, rest) = text(alloc, &bytes[2..])?;
    Ok((Param { size, name }, rest))
}

fn list_of_params(alloc: Global, count: u16, bytes: &[u8]) -> Result<(Vec<Param>, &[u8]), Fault>
    ensures { Gives (λ x. (x.0.items, x.1.now)) result (list_of_params_at count bytes.now) }
{
    let mut params = Vec::new(alloc);
    let mut rest = bytes;
    for _ in 0..count {
        let (param, after) = param(alloc, rest)?;
        params.push(param)?;
        rest = after;
    }
    Ok((params, rest))
}

#[tactic(auto, unfolding(crate::specs::Reading::params_at))]
pub fn params(alloc: Global, bytes: &[u8]) -> Result<(List<Param>, &[u8]), Fault>
    ensures { Gives (λ x. (x.0, x.1.now)) result (params_at bytes.now) }
{
    let (count, rest) = word(bytes)?;
    let (params, rest) = list_of_params(alloc, count, rest)?;
    Ok((List::from_vec(params), rest))
}

/// All that remains, as words.
pub fn words(alloc: Global, bytes: &[u8]) -> Result<(List<u16>, &[u8]), Fault>
    ensures { Gives (λ x. (x.0, x.1.now)) result (words_at bytes.now) }
{
    if bytes.len() % 2 != 0 {
        return Err(Fault::NotWords { len: bytes.len() });
    }
    let mut words = vec![in alloc; 0; bytes.len() / 2]?;
    LittleEndian::read_u16_into(bytes, &mut words);
    Ok((List::from_vec(words), &[]))
}
